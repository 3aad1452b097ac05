// Moving: in trouble when a value equals the one just before it.
ghost use Rattle.std.specs.Prelude.{◌≡◌};
ghost use Rattle.watches.specs.Kinds.{repeats};

use crate::comparing::{Comparing, Rule};

pub type Moving = Comparing<Repeat>;

/// A repeat is trouble.
#[derive(Clone, Copy)]
pub struct Repeat;

impl Rule for Repeat {
    ghost rule = { repeats };

    fn brings_trouble(before: Option<u32>, value: u32) -> bool {
        before.is_some_and(|before| value == before)
    }
}
