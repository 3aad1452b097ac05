// Still: in trouble when a value differs from the one just before it.
ghost use Rattle.std.specs.Prelude.{◌≡◌};
ghost use Rattle.watches.specs.Kinds.{differs};

use crate::comparing::{Comparing, Rule};

pub type Still = Comparing<Change>;

/// A change is trouble.
#[derive(Clone, Copy)]
pub struct Change;

impl Rule for Change {
    ghost rule = { differs };

    fn brings_trouble(before: Option<u32>, value: u32) -> bool {
        before.is_some_and(|before| value != before)
    }
}
