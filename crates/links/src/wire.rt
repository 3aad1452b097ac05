// The wire: a link whose unit talks in bytes.
ghost use Rattle.std.specs.Prelude.{◌≡◌, None};

use crate::intake::Intake;
use records::command::Reply;

pub mod calls;

#[derive(Clone, Copy)]
pub struct Wire {
    intake: Intake,
    // Kept beside the held command: what is held is the same for every kind, and only here a reply waits.
    due: Option<Reply>,
    ghost idle: { intake.held ≡ None → due ≡ None },
}
