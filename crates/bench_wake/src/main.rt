//! How long a wake-up takes, and a walk along a wait queue, beside the plain atomic operations that each makes.
//!
//! Usage: bench_wake [NAME COUNT]. With no words it wakes some tasks in each way and prints how many ways there are.
//! With two it prints the nanoseconds of one wake-up or walk and of its plain operations, over at least so many.
//!
//! `queued.rt`, `walks.rt`, `runnable.rt` and `refused.rt` are what is done in a round, `rounds.rt` rounds, of which
//! the wakes alone are measured; `calls.rt` has starts, wake-ups and walks by a seat that runs no task, `plain.rt` the
//! plain operations, `took.rt` times, `measure.rt` all by name; `table.rt`.
#![tactic(auto)]

mod calls;
mod measure;
mod plain;
mod queued;
mod refused;
mod rounds;
mod runnable;
mod table;
mod took;
mod walks;

use crate::measure::{kinds, pick};
use std::env;
use std::process::ExitCode;
use std::rt::Runtime;
use std::sync::Wait;

fn main(rt: HostRuntime) -> ExitCode {
    match run(&rt) {
        Some(()) => ExitCode::SUCCESS,
        None => ExitCode::FAILURE,
    }
}

fn run<R: Runtime + AllocGlobal + Wait>(rt: &R) -> Option<()> {
    let mut words = env::args(rt).ok()?.skip(1);
    let Some(name) = words.next() else {
        return kinds(rt);
    };
    let count = words.next()?.parse::<u32>().ok()?;
    let took = pick(rt, name.as_str(), count)?;
    println!(rt; "{name}: {:.3} ns, plain {:.3} ns", took.wake, took.plain).ok()?;
    Some(())
}
