// One line of a script: the reply to a command, and how many polls find nothing before it.
use records::command::Reply;

#[derive(Clone, Copy)]
pub struct Cue {
    pub polls: u8,
    pub reply: Reply,
}
