//! The ways in which a processor switches.
ghost use Rattle.std.specs.Prelude.{◌≡◌};

use crate::plain;
use crate::sleeps::sleeps;
use crate::switches::switches;
use crate::took::Took;
use std::rt::Runtime;
use std::sync::Wait;

const NAMES: [&str; 4] = ["another", "same", "idle", "sleep"];

/// Switches some times in each way, and prints how many ways there are.
pub fn kinds<R: Runtime + AllocGlobal + Wait>(rt: &R) -> Option<()> {
    for name in NAMES {
        pick(rt, name, 3)?;
    }
    println!(rt; "{} ways to switch", NAMES.len()).ok()?;
    Some(())
}

/// Switches in the way of this name, at least so many times.
pub fn pick<R: Runtime + AllocGlobal + Wait>(rt: &R, name: &str, count: u32) -> Option<Took> {
    match name {
        "another" => switches::<plain::Another, R>(rt, 2, count),
        "same" => switches::<plain::Same, R>(rt, 1, count),
        "idle" => switches::<plain::Idle, R>(rt, 0, count),
        "sleep" => sleeps(rt, count),
        _ => None,
    }
}
