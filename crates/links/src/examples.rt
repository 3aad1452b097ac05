// Links of both kinds worked through code that knows only the trait.
#![tactic(auto, unfolding(crate::specs::Polls::polled_times))]

ghost use Rattle.std.specs.Prelude.{◌≡◌, Some, None};
ghost use Rattle.records.specs.declared.command.Reply.TheVariants.{Ack, Nack};
ghost use Rattle.links.specs.Polls.{polled_times};
ghost use Rattle.links.specs.Processors.{reply_to};

use crate::link::Link;
use crate::processor::Processor;
use crate::wire::Wire;
use records::command::{Command, Reply};

fn poll_times<L: Link>(link: &mut L, times: u8)
    ensures after { L.Link.state link.new ≡ polled_times L.Link.kind times (L.Link.state link.old) }
{
    for _ in 0..times {
        let _ = link.poll();
    }
}

/// The answer to the poll that follows an offer and so many polls.
fn reply_after<L: Link>(link: &mut L, command: Command, polls: u8) -> Option<Reply>
    ensures by_its_kind { result ≡ (L.Link.kind.means (polled_times L.Link.kind polls (L.Link.kind.offered (L.Link.state link.old) command))).due }
{
    let _ = link.offer(command);
    poll_times(link, polls);
    link.poll()
}

/// The same, with bytes received before that poll.
fn reply_to_bytes<L: Link>(link: &mut L, command: Command, polls: u8, bytes: &[u8]) -> Option<Reply>
    ensures by_its_kind { result ≡ (L.Link.kind.means (L.Link.kind.received (polled_times L.Link.kind polls (L.Link.kind.offered (L.Link.state link.old) command)) bytes.now)).due }
{
    let _ = link.offer(command);
    poll_times(link, polls);
    let _ = link.receive(bytes);
    link.poll()
}

/// A wire that received nothing answers nothing, however often it is polled before its limit.
pub fn wire_unanswered(command: Command) -> Option<Reply>
    ensures nothing_is_due { result ≡ None }
{
    reply_after(&mut Wire::new(), command, 19)
}

pub fn wire_acknowledged(command: Command) -> Option<Reply>
    ensures the_next_poll_answers_it { result ≡ Some Ack }
{
    reply_to_bytes(&mut Wire::new(), command, 19, &[0x00, 0x84])
}

pub fn wire_turned_down(command: Command) -> Option<Reply>
    ensures code_and_detail { result ≡ Some (Nack 0x00A7 34) }
{
    reply_to_bytes(
        &mut Wire::new(),
        command,
        0,
        &[0x00, 0xF4, 0x00, 0xA7, 0x00, 0x00, 0x00, 0x22],
    )
}

/// A processor of delay 3 is still silent at its third poll.
pub fn processor_silent(command: Command) -> Option<Reply>
    ensures nothing_is_due { result ≡ None }
{
    reply_after(&mut Processor::new(3), command, 2)
}

/// It answers the fourth.
pub fn processor_answers(command: Command) -> Option<Reply>
    ensures the_fourth_poll_answers { result ≡ Some (reply_to command) }
{
    reply_after(&mut Processor::new(3), command, 3)
}
