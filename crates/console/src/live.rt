// A console on the bench's links and watch: whatever it holds, some calls led there from the making on.
ghost use Rattle.machine.specs.Runs.{History, Ran};
ghost use Rattle.console.specs.Benches.{bench_of};

use crate::console::Console;
use links::processor::Processor;
use links::wire::Wire;
use std::marker::Model;
use watches::bench::BenchWatch;

pub mod calls;

#[derive(Drop)]
pub struct BenchConsole {
    console: Console<Wire, Processor, Processor, BenchWatch>,
    ghost ran: { ∥ ((h : History) × Ran h (bench_of console)) ∥₁ },
}

impl Model for BenchConsole {
    ghost use Rattle.console.specs.Benches.{bench_of};
    ghost use Rattle.console.specs.Lives.{Bench};

    ghost Value = { Bench };

    ghost view = { λ b. bench_of b.console };
}
