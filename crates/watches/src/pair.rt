// Pair: two watches as one, the left's functions first.
ghost use Rattle.std.specs.Prelude.{◌≡◌};
ghost use Rattle.watches.specs.Pairs.{pair_kind};
ghost use Rattle.watches.specs.Joining.{pair_lawful};
ghost use Rattle.std.proofs.Common.{rules};

use crate::part::{Part, pair_width, part_of};
use crate::watch::Watch;

#[derive(Clone, Copy, Drop)]
pub struct Pair<L, R> {
    left: L,
    right: R,
}

impl<L: Watch, R: Watch> Pair<L, R> {
    pub fn new(left: L, right: R) -> Pair<L, R>
        ensures of_these_two { result ≡ record { left = left; right = right } }
    {
        Pair { left, right }
    }
}

impl<L: Watch, R: Watch> Watch for Pair<L, R> {
    ghost kind = { pair_kind L.Watch.kind R.Watch.kind };

    ghost state = { λ w. (L.Watch.state w.left, R.Watch.state w.right) };

    ghost lawful = { pair_lawful L.Watch.lawful R.Watch.lawful };

    ghost ok = { Prim.search rules };

    fn width(&self) -> u32 {
        pair_width(self.left.width(), self.right.width())
    }

    fn in_trouble(&self, function: u32) -> bool {
        match part_of(self.left.width(), self.right.width(), function) {
            Some(Part::Left(number)) => self.left.in_trouble(number),
            Some(Part::Right(number)) => self.right.in_trouble(number),
            None => false,
        }
    }

    fn see(&mut self, function: u32, value: u32) -> Option<bool> {
        match part_of(self.left.width(), self.right.width(), function)? {
            Part::Left(number) => self.left.see(number, value),
            Part::Right(number) => self.right.see(number, value),
        }
    }
}
