// The processor: a link that stands in for a signal processor and answers by itself.
use crate::intake::Intake;

pub mod calls;

/// `polls` counts the polls of the held command that found nothing.
#[derive(Clone, Copy)]
pub struct Processor {
    delay: u8,
    intake: Intake,
    polls: u8,
}
