// What a kind of one function remembers to compare each value with the one just before it.
ghost use Rattle.std.specs.Prelude.{◌≡◌, ◌&&◌, if◌then◌else◌, Some, None};
ghost use Rattle.watches.specs.Kinds.{nothing_seen};
ghost use Rattle.watches.specs.Meaning.{within};

use crate::watch::has_function;

/// The value seen last, and whether it brought trouble.
#[derive(Clone, Copy)]
pub struct LastSeen {
    pub value: Option<u32>,
    pub trouble: bool,
}

impl LastSeen {
    pub fn new() -> LastSeen
        ensures good_with_nothing_seen { result ≡ nothing_seen }
    {
        LastSeen {
            value: None,
            trouble: false,
        }
    }

    pub fn in_trouble(&self, function: u32) -> bool
        ensures only_function_1 { result ≡ (within 1 function && self.now.trouble) }
    {
        has_function(1, function) && self.trouble
    }

    /// Remembers a value and the state that it brought, if it is function 1's.
    pub fn remember(&mut self, function: u32, value: u32, trouble: bool) -> Option<bool>
        ensures answer { result ≡ (if within 1 function then Some trouble else None) }
        ensures after { self.new ≡ (if within 1 function then (record { value = Some value; trouble = trouble }) else self.old) }
    {
        if !has_function(1, function) {
            return None;
        }
        self.value = Some(value);
        self.trouble = trouble;
        Some(trouble)
    }
}
