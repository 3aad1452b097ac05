// Works a shift's call list through the executive, and prints the telecommand sheet for the hand-over.
#![tactic(auto)]

use crate::sheet::SheetLine;
use anyhow::anyhow;
use bench_text::input::Lines;
use console::call::{Answer, Call};
use machine::answers::Outcome;
use sheets::bench::work_bench;
use sheets::list::{CallList, Mark};
use sheets::rows::row_of;
use sheets::shift::Shift;
use sheets::tally::Totals;
use std::io::{BufRead, BufReader};
use std::{env, fs};
use telecommands::read::read_packet;

mod sheet;

fn read_list<R: BufRead + Drop>(rt: &HostRuntime, reader: R) -> anyhow::Result<CallList> {
    let mut list = CallList::new(rt.alloc());
    for line in Lines::of(rt.alloc(), reader) {
        list.add(line?)?;
    }
    Ok(list)
}

/// Prints the line of a submit; other calls have none.
fn print_call(
    rt: &HostRuntime,
    place: u64,
    call: &Call,
    answer: &Answer,
    answers: &[Answer],
) -> anyhow::Result<()> {
    if let (Call::Submit { packet }, Outcome::Submitted { answer }) = (call, answer.outcome) {
        let line = SheetLine {
            row: row_of(answers, answer),
            packet: read_packet(packet.as_slice()).ok(),
        };
        println!(rt; "{place} {line}")?;
    }
    Ok(())
}

fn print_lines(rt: &HostRuntime, list: &CallList, answers: &[Answer]) -> anyhow::Result<()> {
    let mut worked = list.calls.iter().zip(answers);
    for (place, mark) in (1..).zip(&list.marks) {
        match mark {
            Mark::Call => {
                if let Some((call, answer)) = worked.next() {
                    print_call(rt, place, call, answer, answers)?;
                }
            }
            Mark::Question => {}
            Mark::Unreadable => println!(rt; "{place} unreadable")?,
        }
    }
    Ok(())
}

fn print_totals(rt: &HostRuntime, totals: &Totals) -> anyhow::Result<()> {
    let Totals {
        accepted,
        done,
        failed,
        pending,
        sent,
        raised,
        collected,
        waiting,
        lost,
    } = *totals;
    println!(rt; "accepted {accepted}: done {done}, failed {failed}, pending {pending}")?;
    println!(rt; "commands in final reports {sent}")?;
    println!(rt; "events raised {raised}: collected {collected}, waiting {waiting}, lost {lost}")?;
    if totals.balance() {
        println!(rt; "the totals balance")?;
        Ok(())
    } else {
        println!(rt; "THE TOTALS DO NOT BALANCE")?;
        Err(anyhow!("the totals do not balance"))
    }
}

fn hand_over<R: BufRead + Drop>(rt: &HostRuntime, reader: R) -> anyhow::Result<()> {
    let list = read_list(rt, reader)?;
    let Shift { answers, totals } = work_bench(rt.alloc(), list.calls.as_slice())?;
    print_lines(rt, &list, answers.as_slice())?;
    print_totals(rt, &totals)
}

// Kept: a call for each, since a file and standard input are two types of reader.
fn run(rt: &HostRuntime) -> anyhow::Result<()> {
    let mut args = env::args(rt)?.skip(1);
    match args.next() {
        Some(path) => {
            let file = fs::open(rt, path.as_str())?;
            hand_over(rt, BufReader::new(rt.alloc(), file)?)
        }
        None => hand_over(rt, BufReader::new(rt.alloc(), rt.stdin())?),
    }
}

fn main(rt: HostRuntime) -> anyhow::Result<()> {
    run(&rt)
}
