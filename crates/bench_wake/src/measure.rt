//! The ways in which tasks are woken.
ghost use Rattle.std.specs.Prelude.{◌≡◌};

use crate::plain;
use crate::queued::Queued;
use crate::refused::refused;
use crate::rounds::{CONDS, TASKS, rounds};
use crate::runnable::runnable;
use crate::took::Took;
use crate::walks::{Empty, Single, Ten};
use std::rt::Runtime;
use std::sync::Wait;

const NAMES: [&str; 6] = [
    "queued", "runnable", "refused", "walk_0", "walk_1", "walk_10",
];

/// Wakes some tasks in each way, and prints how many ways there are.
pub fn kinds<R: Runtime + AllocGlobal + Wait>(rt: &R) -> Option<()> {
    for name in NAMES {
        pick(rt, name, 3)?;
    }
    println!(rt; "{} ways to wake", NAMES.len()).ok()?;
    Some(())
}

/// Wakes tasks in the way of this name, at least so many times.
pub fn pick<R: Runtime + AllocGlobal + Wait>(rt: &R, name: &str, count: u32) -> Option<Took> {
    match name {
        "queued" => rounds::<Queued, plain::Queued, R>(rt, count, TASKS),
        "runnable" => runnable(rt, count),
        "refused" => refused(rt, count),
        "walk_0" => rounds::<Empty, plain::EmptyWalk, R>(rt, count, CONDS),
        "walk_1" => rounds::<Single, plain::SingleWalk, R>(rt, count, CONDS),
        "walk_10" => rounds::<Ten, plain::TenWalk, R>(rt, count, CONDS),
        _ => None,
    }
}
