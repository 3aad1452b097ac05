// Judges a shift's telecommand sheet before anything is sent: which packets would be taken, and which refused.
#![tactic(auto)]

use crate::sheet::verdict;
use crate::verdict::Totals;
use bench_text::input::Lines;
use std::io::{BufRead, BufReader};
use std::{env, fs};

mod sheet;
mod verdict;
mod words;

fn judge_sheet<R: BufRead + Drop>(rt: &HostRuntime, reader: R) -> anyhow::Result<()> {
    let mut totals = Totals::new();
    // Kept: not the count of the lines that are read, since only those that count have a place.
    let mut place = 0u64;
    for line in Lines::of(rt.alloc(), reader) {
        if let Some(verdict) = verdict(&line?) {
            place = place.saturating_add(1);
            totals.count(&verdict);
            println!(rt; "{place} {verdict}")?;
        }
    }
    let Totals {
        taken,
        refused,
        not_judged,
        unreadable,
    } = totals;
    println!(rt;
        "taken {taken} refused {refused} not judged {not_judged} unreadable {unreadable}"
    )?;
    Ok(())
}

// Kept: a call for each, since a file and standard input are two types of reader.
fn run(rt: &HostRuntime) -> anyhow::Result<()> {
    let mut args = env::args(rt)?.skip(1);
    match args.next() {
        Some(path) => {
            let file = fs::open(rt, path.as_str())?;
            judge_sheet(rt, BufReader::new(rt.alloc(), file)?)
        }
        None => judge_sheet(rt, BufReader::new(rt.alloc(), rt.stdin())?),
    }
}

fn main(rt: HostRuntime) -> anyhow::Result<()> {
    run(&rt)
}
