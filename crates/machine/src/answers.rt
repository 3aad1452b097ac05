// What the calls answer.
ghost use Rattle.std.specs.Prelude.{◌≡◌};
ghost use Rattle.machine.specs.Outcomes.{answer_in, counted_in};
ghost use Rattle.machine.specs.Parts.{quiet};

use links::answers::Receipt;
use records::event::Event;
use records::refusal::Refusal;
use records::report::Report;

/// What collect hands out, if anything waits.
#[derive(Clone, Copy)]
pub enum Handed {
    Event { event: Event },
    Report { report: Report },
}

/// The outcome of any of the five calls.
#[derive(Clone, Copy)]
pub enum Outcome {
    /// The accepted number.
    Submitted { answer: Result<u32, Refusal> },
    Delivered { answer: Result<Receipt, Refusal> },
    Ticked,
    /// Whether the function is in trouble now.
    Sampled { answer: Result<bool, Refusal> },
    Collected { handed: Option<Handed> },
}

/// An event that was raised: it waits, or it is lost.
#[derive(Clone, Copy)]
pub struct Raised {
    pub lost: bool,
}

/// The outcome of a call, and how many events were raised and lost in it.
#[derive(Clone, Copy)]
pub struct Answer<T> {
    pub outcome: T,
    pub raised: u32,
    pub lost: u32,
}

impl<T> Answer<T> {
    /// With no event.
    pub fn quiet(outcome: T) -> Answer<T>
        ensures nothing_raised { answer_in result ≡ quiet outcome }
    {
        Answer {
            outcome,
            raised: 0,
            lost: 0,
        }
    }

    /// With one event more, if one was raised.
    pub fn and(self, event: Option<Raised>) -> Answer<T>
        ensures one_more_if_any { answer_in result ≡ counted_in event (answer_in self) }
    {
        match event {
            None => self,
            Some(event) => Answer {
                outcome: self.outcome,
                raised: self.raised.saturating_add(1),
                lost: self.lost.saturating_add(u32::from(event.lost)),
            },
        }
    }

    /// With what becomes of the outcome.
    pub fn map<U, F: FnOnce(T) -> U>(self, change: F) -> Answer<U>
        requires { F.IsAlwaysCallable change }
        ensures outcome_changed { F.post change self.outcome result.outcome }
        ensures counts_kept { (result.raised ≡ self.raised) × (result.lost ≡ self.lost) }
    {
        Answer {
            outcome: change(self.outcome),
            raised: self.raised,
            lost: self.lost,
        }
    }
}
