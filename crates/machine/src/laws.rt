// The balance over every run, and laws of the machine, each a theorem on any links and watch.
ghost use Rattle.machine.specs.Laws.{RunsBalance, RunsAreTied, WaitingIsHandedOut, RefusalsChangeNothing, RefusalsAreQuiet, RefusalsCanBeStruck, SentKeepsCounting, FreeIsWhatIsLeft, CountsOfTheHistory};
ghost use Rattle.machine.specs.Raised.{EventsInOrder};
ghost use Rattle.machine.specs.Sizes.{PacketsAreSmall};
ghost use Rattle.machine.specs.Written.{ReportsInOrder, ReportsBounded, RunBounded, AcceptedIsReported, PendingWasStarted, StartedOnce};

use links::link::Link;
use watches::watch::Watch;

/// Whatever is called and whatever the links reply, a run from a fresh machine is balanced after each call.
pub fn runs_balance<A: Link, B: Link, C: Link, W: Watch>()
    ensures after_each_call { RunsBalance A.Link.kind B.Link.kind C.Link.kind W.Watch.kind }
    ensures links_hold_as_the_run_waits { RunsAreTied A.Link.kind B.Link.kind C.Link.kind W.Watch.kind }
{}

pub fn waiting_is_handed_out<A: Link, B: Link, C: Link, W: Watch>()
    ensures by_collects_alone { WaitingIsHandedOut A.Link.kind B.Link.kind C.Link.kind W.Watch.kind }
{}

pub fn refusals_change_nothing<A: Link, B: Link, C: Link, W: Watch>()
    ensures machine_as_it_was { RefusalsChangeNothing A.Link.kind B.Link.kind C.Link.kind W.Watch.kind }
    ensures no_event_raised_or_lost { RefusalsAreQuiet A.Link.kind B.Link.kind C.Link.kind W.Watch.kind }
    ensures can_be_struck { RefusalsCanBeStruck A.Link.kind B.Link.kind C.Link.kind W.Watch.kind }
{}

/// A call only adds reports behind those that there are, and every fault has the class of the table.
pub fn reports_in_order<A: Link, B: Link, C: Link, W: Watch>()
    ensures as_written { ReportsInOrder A.Link.kind B.Link.kind C.Link.kind W.Watch.kind }
{}

pub fn sent_keeps_counting<A: Link, B: Link, C: Link, W: Watch>()
    ensures below_its_largest { SentKeepsCounting A.Link.kind B.Link.kind C.Link.kind W.Watch.kind }
{}

pub fn free_places<A: Link, B: Link, C: Link, W: Watch>()
    ensures left_of_400 { FreeIsWhatIsLeft A.Link.kind B.Link.kind C.Link.kind W.Watch.kind }
{}

pub fn own_counts<A: Link, B: Link, C: Link, W: Watch>()
    ensures those_of_the_history { CountsOfTheHistory A.Link.kind B.Link.kind C.Link.kind W.Watch.kind }
{}

/// A call only adds events behind those that there are; a sample's tells the state it answered, a tick's a link's trouble.
pub fn events_in_order<A: Link, B: Link, C: Link, W: Watch>()
    ensures as_raised { EventsInOrder A.Link.kind B.Link.kind C.Link.kind W.Watch.kind }
{}

pub fn reports_bounded<A: Link, B: Link, C: Link, W: Watch>()
    ensures by_28_steps { ReportsBounded A.Link.kind B.Link.kind C.Link.kind W.Watch.kind }
    ensures the_run_too { RunBounded A.Link.kind B.Link.kind C.Link.kind W.Watch.kind }
{}

/// The newest report is the accepted number's own, STARTED where it is pending: none is dropped for want of a place.
pub fn accepted_is_reported<A: Link, B: Link, C: Link, W: Watch>()
    ensures in_its_own_call { AcceptedIsReported A.Link.kind B.Link.kind C.Link.kind W.Watch.kind }
    ensures started_once { StartedOnce A.Link.kind B.Link.kind C.Link.kind W.Watch.kind }
    ensures started_while_pending { PendingWasStarted A.Link.kind B.Link.kind C.Link.kind W.Watch.kind }
{}

/// At most 28 steps and 38 settings, so the bounds above hold of whatever is submitted.
pub fn packets_are_small()
    ensures few_steps_and_settings { PacketsAreSmall }
{}
