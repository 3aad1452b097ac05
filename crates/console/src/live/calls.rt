// The calls on the bench's console, balanced with no condition.
ghost use Rattle.std.specs.Prelude.{◌≡◌, ◌∷◌, length, slice_index};
ghost use Rattle.machine.specs.Balance.{view_of, Balanced, RunTied};
ghost use Rattle.machine.specs.Cases.{bench};
ghost use Rattle.machine.specs.Machine.{message_of};
ghost use Rattle.machine.specs.Outcomes.{answer_of};
ghost use Rattle.machine.specs.Runs.{Entry, History, Ran};
ghost use Rattle.console.specs.Consoles.{call_of, Steps};

use super::BenchConsole;
use crate::call::{Answer, Call};
use crate::console::Console;
use machine::equipment::bench;

impl BenchConsole {
    /// A wire, two processors of delay 0; Still, Moving, and Band 100 to 200.
    pub fn new() -> BenchConsole
        ensures the_bench { result ≡ bench }
    {
        BenchConsole {
            console: Console::new(bench()),
        }
    }

    /// Any of the five calls.
    pub fn work(&mut self, call: &Call) -> Answer
        ensures as_the_machine_does { Steps self.old (call_of call.now) (answer_of result) self.new }
        ensures balanced { ∥ ((h : History) × Ran h self.old × Balanced (record { call = call_of call.now; answer = answer_of result } ∷ h) (view_of self.new) × RunTied (view_of self.new)) ∥₁ }
    {
        self.console.work(call)
    }

    /// How many bytes a link would send now.
    pub fn message_length(&self, link: u32) -> usize
        ensures of_the_message { result ≡ length (message_of self.now link) }
    {
        self.console.message_length(link)
    }

    pub fn message_byte(&self, link: u32, at: usize) -> u8
        ensures byte_or_zero { result ≡ slice_index (message_of self.now link) at }
    {
        self.console.message_byte(link, at)
    }
}
