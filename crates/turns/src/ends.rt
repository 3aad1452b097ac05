// How a held command ends for its owner.
ghost use Rattle.std.specs.Prelude.{◌≡◌, Some};
ghost use Rattle.desks.specs.Chains.{link_fault};
ghost use Rattle.machine.specs.Seats.{answered_run, ended};
ghost use Rattle.turns.specs.Ends.{ending_of, desk_after, failed_with, replied};

use desks::chain::{LinkFault, in_report, standing};
use desks::desk::Desk;
use machine::answers::Raised;
use machine::state::{Hold, LinkStatus, Owner, Run, RunState};
use records::command::Reply;
use records::event::{Event, EventKind};
use records::fault::Fault;
use records::report::Stage;

/// A run whose command was answered moves on or ends; one that waits for no answer is left alone.
fn answer_run(run: Run, answer: Result<(), LinkFault>, desk: &mut Desk)
    ensures moves_on_or_ends { desk.new ≡ answered_run run.state (ending_of answer) run desk.old }
{
    match (run.state, in_report(standing(run), answer)) {
        (RunState::Ready { .. }, _) => {}
        (RunState::Sent { .. }, Ok(())) => desk.pass(run),
        (RunState::Sent { .. }, Err(fault)) => desk.fail_run(run, fault),
    }
}

/// Tells the owner of a command how it ended.
fn end(hold: Option<Hold>, answer: Result<(), LinkFault>, desk: &mut Desk)
    ensures for_its_owner { desk.new ≡ ended hold (ending_of answer) desk.old }
{
    let Some(hold) = hold else {
        return;
    };
    match (hold.owner, answer) {
        (Owner::Telecommand { number }, Ok(())) => desk.log.file(number, Stage::Done { sent: 1 }),
        (Owner::Telecommand { number }, Err(fault)) => desk.log.file(
            number,
            Stage::Failed {
                sent: 1,
                fault: Fault::from(fault),
            },
        ),
        (Owner::Procedure, _) => {
            if let Some(run) = desk.run {
                answer_run(run, answer, desk);
            }
        }
    }
}

/// A command that ended with a fault: an event first.
pub fn fail(hold: Option<Hold>, event: Event, fault: LinkFault, desk: &mut Desk) -> Raised
    ensures event_then_owner { desk_after desk.new (Some result) ≡ failed_with event (link_fault fault) hold desk.old }
{
    let raised = desk.log.raise(event);
    end(hold, Err(fault), desk);
    raised
}

/// A command that its unit replied to. Answers the event that was raised, if any.
pub fn reply(place: u8, hold: Option<Hold>, reply: Reply, desk: &mut Desk) -> Option<Raised>
    ensures by_the_reply { desk_after desk.new result ≡ replied reply place hold desk.old }
{
    let link = u32::from(place);
    match reply {
        Reply::Ack => {
            end(hold, Ok(()), desk);
            None
        }
        Reply::Nack { code, detail } => {
            desk.set_status(u16::from(place), LinkStatus::Stopped);
            let event = Event {
                kind: EventKind::Nack,
                place: link,
                value: u32::from(code),
            };
            let fault = LinkFault::Nack {
                link: place,
                code,
                detail,
            };
            Some(fail(hold, event, fault, desk))
        }
        Reply::Odd => {
            let event = Event {
                kind: EventKind::Odd,
                place: link,
                value: 0,
            };
            Some(fail(hold, event, LinkFault::Odd { link: place }, desk))
        }
    }
}
