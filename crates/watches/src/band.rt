// Band: in trouble when a value is below the lowest or above the highest.
ghost use Rattle.std.specs.Prelude.{◌≡◌, false};
ghost use Rattle.watches.specs.Kinds.{inside, band_kind};
ghost use Rattle.std.proofs.Common.{rules};

use crate::watch::{Watch, has_function};

#[derive(Clone, Copy)]
pub struct Band {
    lowest: u32,
    highest: u32,
    trouble: bool,
}

impl Band {
    pub fn new(lowest: u32, highest: u32) -> Band
        ensures good_with_its_limits { result ≡ record { lowest = lowest; highest = highest; trouble = false } }
    {
        Band {
            lowest,
            highest,
            trouble: false,
        }
    }

    fn holds(&self, value: u32) -> bool
        ensures limits_inside { result ≡ inside self.now value }
    {
        (self.lowest..=self.highest).contains(&value)
    }
}

impl Watch for Band {
    ghost kind = { band_kind };

    ghost state = { λ w. w };

    ghost lawful = { Prim.search rules };

    ghost ok = { Prim.search rules };

    fn width(&self) -> u32 {
        1
    }

    fn in_trouble(&self, function: u32) -> bool {
        has_function(1, function) && self.trouble
    }

    fn see(&mut self, function: u32, value: u32) -> Option<bool> {
        if !has_function(1, function) {
            return None;
        }
        self.trouble = !self.holds(value);
        Some(self.trouble)
    }
}
