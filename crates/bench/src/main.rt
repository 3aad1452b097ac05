// Works an executive by a list of calls on standard input, one answer to a line.
#![tactic(auto)]

use crate::session::{next_place, respond};
use bench_text::input::Lines;
use console::live::BenchConsole;
use std::io::BufReader;

mod session;

fn run(rt: &HostRuntime) -> anyhow::Result<()> {
    let reader = BufReader::new(rt.alloc(), rt.stdin())?;
    let mut console = BenchConsole::new();
    let mut place = 0u64;
    let mut answer = String::new(rt.alloc());
    for line in Lines::of(rt.alloc(), reader) {
        let line = line?;
        place = next_place(place, &line);
        answer.clear();
        respond(rt.alloc(), &mut console, line, place, &mut answer)?;
        print!(rt; "{answer}")?;
    }
    Ok(())
}

fn main(rt: HostRuntime) -> anyhow::Result<()> {
    run(&rt)
}
