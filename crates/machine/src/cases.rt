// Worked cases of the machine, each a theorem.
ghost use Rattle.machine.specs.Cases.{BenchCases, MoreBenchCases, AnyMachineCases};

use links::link::Link;
use watches::watch::Watch;

/// Whole lists of calls on the bench's links and watch.
pub fn bench_cases()
    ensures as_computed { BenchCases }
    ensures new_and_withdrawn { MoreBenchCases }
{}

/// Refusals at their bounds, for any links and watch in any state.
pub fn any_machine_cases<A: Link, B: Link, C: Link, W: Watch>()
    ensures at_their_bounds { AnyMachineCases A.Link.kind B.Link.kind C.Link.kind W.Watch.kind }
{}
