// The link trait: every kind keeps the same meaning.
ghost use Rattle.std.specs.Prelude.{◌≡◌, ℕ, List, length, is_some, slice_index};
ghost use Rattle.links.specs.Meaning.{LinkKind, Lawful, offer_answer, receipt};

use crate::answers::{OfferRefusal, Receipt};
use records::command::{Command, Reply};

/// How many commands a link ever takes.
pub const MOST_TAKEN: u32 = 1_000_000;

/// A link holds one command at a time until it is answered or abandoned.
pub trait Link {
    ghost kind: { LinkKind };

    ghost state: { Self → kind.State };

    ghost WAIT_LIMIT: { ℕ };

    /// After how many ticks without a reply a command is abandoned: 1 to 50.
    const WAIT_LIMIT: u32;

    fn offer(&mut self, command: Command) -> Result<(), OfferRefusal>
        ensures answer { result ≡ offer_answer (kind.means (state self.old)) }
        ensures after { state self.new ≡ kind.offered (state self.old) command };

    fn poll(&mut self) -> Option<Reply>
        ensures what_was_due { result ≡ (kind.means (state self.old)).due }
        ensures after { state self.new ≡ kind.polled (state self.old) };

    fn receive(&mut self, bytes: &[u8]) -> Receipt
        ensures kept_or_ignored { result ≡ receipt (kind.means (state self.old)) (kind.means (kind.received (state self.old) bytes.now)) }
        ensures after { state self.new ≡ kind.received (state self.old) bytes.now };

    fn abandon(&mut self)
        ensures after { state self.new ≡ kind.abandoned (state self.old) };

    fn is_held(&self) -> bool
        ensures a_command_is_held { result ≡ is_some (kind.means (state self.now)).held };

    // Kept: a length and one byte at a time, as the executive is asked for a message, so that no memory is lent.
    fn message_length(&self) -> usize
        ensures of_the_message { result ≡ length (kind.message (state self.now)) };

    fn message_byte(&self, at: usize) -> u8
        ensures byte_or_zero { result ≡ slice_index (kind.message (state self.now)) at };

    ghost the_kinds_limit: { WAIT_LIMIT ≡ kind.limit };

    ghost lawful: { Lawful kind };

    ghost ok: { (link : Self) → kind.Ok (state link) };
}
