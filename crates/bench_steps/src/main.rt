//! How long each step of the shared table takes, beside the plain atomic operation.
//!
//! Usage: bench_steps [NAME COUNT [SEATS]]. With no words it makes each step some times and prints how many kinds there
//! are. With two it prints the nanoseconds of one step and of its plain operations, over at least so many; `beside` is
//! two seats, each in a thread, at locks that lie side by side. With three, so many seats, each in a thread, take and
//! give one lock so many times each.
//!
//! A file for each state in which a seat repeats a call: `step.rt`, `steps.rt` (it holds nothing), `own.rt` (it runs a
//! task), `placing.rt` (it has a new task's lock), `starts.rt` (once a task). `plain.rt` has the plain operations,
//! `crowd.rt` threads at one lock, and side by side; `table.rt`, `measure.rt`.
#![tactic(auto)]

mod crowd;
mod measure;
mod own;
mod placing;
mod plain;
mod starts;
mod step;
mod steps;
mod table;

use crate::crowd::{beside, crowd};
use crate::measure::{kinds, pick};
use std::env;
use std::process::ExitCode;
use std::rt::Runtime;
use std::sync::Wait;
use std::thread::Threads;

fn main(rt: HostRuntime) -> ExitCode {
    match run(&rt) {
        Some(()) => ExitCode::SUCCESS,
        None => ExitCode::FAILURE,
    }
}

fn run<R: Runtime + AllocGlobal + Threads + Wait + Sync>(rt: &R) -> Option<()> {
    let mut words = env::args(rt).ok()?.skip(1);
    let Some(name) = words.next() else {
        crowd(rt, 2, 3)?;
        beside(rt, 3)?;
        return kinds(rt);
    };
    let count = words.next()?.parse::<u32>().ok()?;
    if let Some(seats) = words.next() {
        let took = crowd(rt, seats.parse::<u32>().ok()?, count)?;
        println!(rt; "{name}: {took:.1} ns").ok()?;
        return Some(());
    }
    if name.as_str() == "beside" {
        let took = beside(rt, count)?;
        println!(rt; "{name}: {took:.1} ns").ok()?;
        return Some(());
    }
    let took = pick(rt, name.as_str(), count)?;
    println!(rt; "{name}: {:.3} ns, plain {:.3} ns", took.step, took.plain).ok()?;
    Some(())
}
