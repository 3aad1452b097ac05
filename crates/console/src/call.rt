// A call with what it carries, and what it is answered.
use machine::answers::Outcome;

/// One of the five calls, with bytes of its own.
pub type Call = records::call::Call<Vec<u8>>;

/// The outcome, and the events raised and lost in the call.
pub type Answer = machine::answers::Answer<Outcome>;
