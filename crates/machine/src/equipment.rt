// What an executive works with: three links and a watch.
ghost use Rattle.std.specs.Prelude.{◌≡◌};
ghost use Rattle.machine.specs.Cases.{bench};
ghost use Rattle.machine.specs.Equipments.{bench_made_of, BenchIsFresh};

use links::link::Link;
use links::processor::Processor;
use links::wire::Wire;
use watches::bench::{BenchWatch, bench_watch};
use watches::watch::Watch;

/// Each is a different one, and is used once.
#[derive(Drop)]
pub struct Equipment<A: Link, B: Link, C: Link, W: Watch> {
    pub link0: A,
    pub link1: B,
    pub link2: C,
    pub watch: W,
}

pub type BenchEquipment = Equipment<Wire, Processor, Processor, BenchWatch>;

/// A wire, two processors of delay 0; Still, Moving, and Band 100 to 200.
pub fn bench() -> BenchEquipment
    ensures the_bench { bench_made_of result ≡ bench }
    ensures unused { BenchIsFresh result }
{
    Equipment {
        link0: Wire::new(),
        link1: Processor::new(0),
        link2: Processor::new(0),
        watch: bench_watch(),
    }
}
