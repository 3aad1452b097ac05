// Measures the executive: its size, and with the argument `times` its longest calls.
#![tactic(auto)]

use crate::packets::{
    LOAD_LONGEST, LOAD_TWO, LONGEST, PROCESSOR_1_ON, PROCESSOR_2_ON, START_25, START_ONE, STOP_ANY,
    TRIGGER_1, TRIGGER_2, WIRE_ON,
};
use executive::executive::Executive;
use links::processor::Processor;
use links::wire::Wire;
use machine::equipment::bench;
use std::env;
use std::mem::size_of;
use std::time::{Duration, Instant};
use watches::bench::BenchWatch;

mod packets;

type Bench = Executive<Wire, Processor, Processor, BenchWatch>;

/// How often each call is made.
const ROUNDS: u32 = 20_000;

fn make() -> Bench {
    Executive::new(bench())
}

/// Hands out all that waits.
fn drain(executive: &mut Bench) {
    for _ in 0..432u32 {
        if executive.collect().outcome.is_none() {
            return;
        }
    }
}

fn nanoseconds_each(spent: Duration) -> u128 {
    spent.as_nanos() / u128::from(ROUNDS)
}

/// The time of a call over all rounds; what leads to it and what ends it is not timed.
fn time<B, C, A>(
    rt: &HostRuntime,
    executive: &mut Bench,
    before: B,
    call: C,
    after: A,
) -> anyhow::Result<Duration>
where
    B: Fn(&mut Bench) + Drop,
    C: Fn(&mut Bench) + Drop,
    A: Fn(&mut Bench) + Drop,
    requires leads_to_it { B.IsAlwaysCallable before }
    requires timed { C.IsAlwaysCallable call }
    requires ends_it { A.IsAlwaysCallable after }
{
    let mut spent = Duration::ZERO;
    for _ in 0..ROUNDS {
        before(executive);
        let begin = Instant::now(rt)?;
        call(executive);
        spent = spent.saturating_add(begin.elapsed(rt)?);
        after(executive);
        drain(executive);
    }
    Ok(spent)
}

/// A tick with three replies and a step, on its own.
fn time_tick(rt: &HostRuntime, executive: &mut Bench) -> anyhow::Result<Duration> {
    time(
        rt,
        executive,
        |executive| {
            let _ = executive.submit(&START_ONE);
            executive.tick();
            let _ = executive.submit(&TRIGGER_1);
            let _ = executive.submit(&TRIGGER_2);
            let _ = executive.deliver(0, &[0x00, 0x84]);
        },
        |executive| {
            executive.tick();
        },
        |_| {},
    )
}

/// A submit of one packet.
fn time_submit(rt: &HostRuntime, executive: &mut Bench, packet: &[u8]) -> anyhow::Result<Duration> {
    time(
        rt,
        executive,
        |_| {},
        |executive| {
            let _ = executive.submit(packet);
        },
        |executive| {
            let _ = executive.submit(&STOP_ANY);
        },
    )
}

fn print_times(rt: &HostRuntime) -> anyhow::Result<()> {
    let mut executive = make();
    let _ = executive.submit(&WIRE_ON);
    let _ = executive.submit(&PROCESSOR_1_ON);
    let _ = executive.submit(&PROCESSOR_2_ON);
    let _ = executive.submit(&LOAD_TWO);
    drain(&mut executive);
    let tick = nanoseconds_each(time_tick(rt, &mut executive)?);
    let longest = nanoseconds_each(time_submit(rt, &mut executive, &LONGEST)?);
    let load = nanoseconds_each(time_submit(rt, &mut executive, &LOAD_LONGEST)?);
    let start = nanoseconds_each(time_submit(rt, &mut executive, &START_25)?);
    println!(rt; "tick with three replies and a step: {tick} ns")?;
    println!(rt; "submit of 248 bytes, refused: {longest} ns")?;
    println!(rt; "load of 28 steps: {load} ns")?;
    println!(rt; "start with 25 parameters: {start} ns")?;
    Ok(())
}

fn run(rt: &HostRuntime) -> anyhow::Result<()> {
    let size = size_of::<Bench>();
    println!(rt; "executive: {size} bytes")?;
    match env::args(rt)?.nth(1) {
        Some(_) => print_times(rt),
        None => Ok(()),
    }
}

fn main(rt: HostRuntime) -> anyhow::Result<()> {
    run(&rt)
}
