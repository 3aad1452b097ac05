// Comparing: a kind of one function that compares each value with the one just before it, by a rule.
ghost use Rattle.std.specs.Prelude.{◌≡◌, ℕ, Bool, Option};
ghost use Rattle.watches.specs.Kinds.{nothing_seen, comparing};
ghost use Rattle.std.proofs.Common.{rules};

use crate::last_seen::LastSeen;
use crate::watch::Watch;
use std::marker::PhantomData;

/// Which values bring trouble, by the value just before, if there is one.
pub trait Rule {
    ghost rule: { Option ℕ → ℕ → Bool };

    fn brings_trouble(before: Option<u32>, value: u32) -> bool
        ensures by_the_rule { result ≡ rule before value };
}

#[derive(Clone, Copy)]
pub struct Comparing<R> {
    last: LastSeen,
    rule: PhantomData<R>,
}

impl<R> Comparing<R> {
    pub fn new() -> Self
        ensures good_with_nothing_seen { result.last ≡ nothing_seen }
    {
        Comparing {
            last: LastSeen::new(),
            rule: PhantomData,
        }
    }
}

impl<R: Rule> Watch for Comparing<R> {
    ghost kind = { comparing R.Rule.rule };

    ghost state = { λ w. w.last };

    ghost lawful = { Prim.search rules };

    ghost ok = { Prim.search rules };

    fn width(&self) -> u32 {
        1
    }

    fn in_trouble(&self, function: u32) -> bool {
        self.last.in_trouble(function)
    }

    fn see(&mut self, function: u32, value: u32) -> Option<bool> {
        let trouble = R::brings_trouble(self.last.value, value);
        self.last.remember(function, value, trouble)
    }
}
