// A link that replies as a script says: the next cue is for the next command, and with no cue left it never replies.
use crate::script::Cue;
use links::intake::Intake;

pub mod calls;

/// Waits `TICKS`, or the nearest limit that a link may have. `at` is the next cue of the script; `cue` is for the held
/// command; `polls` counts the polls of it that found nothing.
#[derive(Clone, Copy)]
pub struct Scripted<const TICKS: u32> {
    script: [Cue; 8],
    at: usize,
    intake: Intake,
    cue: Option<Cue>,
    polls: u8,
}

/// Waits one tick.
pub type Hasty = Scripted<1>;

/// Waits fifty ticks.
pub type Patient = Scripted<50>;
