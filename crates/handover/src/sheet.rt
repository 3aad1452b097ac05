// Judging a telecommand sheet line by line.
ghost use Rattle.std.specs.Prelude.{◌≡◌};
ghost use Rattle.bench_text.specs.Lines.{said_by};
ghost use Rattle.handover.specs.Sheets.{verdict_of, counted, blank};

use crate::verdict::{OtherCall, Totals, Verdict};
use bench_text::line::Line;
use records::call::Call;
use telecommands::read::read_packet;

/// The verdict on a line; none where the line does not count.
pub fn verdict(line: &Line) -> Option<Verdict>
    ensures by_the_packet_reader { result ≡ verdict_of (said_by line.now) }
{
    let call = match line {
        Line::Skipped => return None,
        Line::Unreadable => return Some(Verdict::Unreadable),
        Line::Message { .. } => return Some(Verdict::NotJudged(OtherCall::Message)),
        Line::Call(call) => call,
    };
    Some(match call {
        Call::Submit { packet } => Verdict::Judged(read_packet(packet.as_slice())),
        Call::Deliver { .. } => Verdict::NotJudged(OtherCall::Deliver),
        Call::Tick => Verdict::NotJudged(OtherCall::Tick),
        Call::Sample { .. } => Verdict::NotJudged(OtherCall::Sample),
        Call::Collect => Verdict::NotJudged(OtherCall::Collect),
    })
}

impl Totals {
    pub fn new() -> Self
        ensures nothing_counted { result ≡ blank }
    {
        Totals::default()
    }

    pub fn count(&mut self, verdict: &Verdict)
        ensures one_more { self.new ≡ counted self.old verdict.now }
    {
        match verdict {
            Verdict::Judged(Ok(_)) => self.taken = self.taken.saturating_add(1),
            Verdict::Judged(Err(_)) => self.refused = self.refused.saturating_add(1),
            Verdict::NotJudged(_) => self.not_judged = self.not_judged.saturating_add(1),
            Verdict::Unreadable => self.unreadable = self.unreadable.saturating_add(1),
        }
    }
}
