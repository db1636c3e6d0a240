//! How long a switch takes, and a sleep, beside the plain atomic operations that each makes.
//!
//! Usage: bench_switch [NAME COUNT]. With no words it switches some times in each way and prints how many ways there
//! are. With two it prints the nanoseconds of one switch and of its plain operations, over at least so many.
//!
//! `switches.rt` has switches to whatever is next, `sleeps.rt` rounds of sleeps, `plain.rt` the plain operations,
//! `table.rt` the table, `took.rt` times, `measure.rt` all by name.
#![tactic(auto)]

mod measure;
mod plain;
mod sleeps;
mod switches;
mod table;
mod took;

use crate::measure::{kinds, pick};
use std::env;
use std::process::ExitCode;
use std::rt::Runtime;
use std::sync::Wait;

fn main(rt: HostRuntime) -> ExitCode {
    match run(&rt) {
        Some(()) => ExitCode::SUCCESS,
        None => ExitCode::FAILURE,
    }
}

fn run<R: Runtime + AllocGlobal + Wait>(rt: &R) -> Option<()> {
    let mut words = env::args(rt).ok()?.skip(1);
    let Some(name) = words.next() else {
        return kinds(rt);
    };
    let count = words.next()?.parse::<u32>().ok()?;
    let took = pick(rt, name.as_str(), count)?;
    println!(rt; "{name}: {:.3} ns, plain {:.3} ns", took.own, took.plain).ok()?;
    Some(())
}
