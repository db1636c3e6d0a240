//! Wake-ups of a task whose state doesn't match.
ghost use Rattle.std.specs.Prelude.{◌≡◌, ◌<◌};
ghost use Rattle.bench_wake.specs.Ready.{IsReady};
ghost use Rattle.task_words.specs.Seats.{IsBetween};
ghost use Rattle.task_words.specs.Views.{IsOf, IsOneSeat};

use crate::calls::wake_one;
use crate::plain;
use crate::table::lone_table;
use crate::took::Took;
use std::rt::Runtime;
use std::sync::Wait;
use std::time::Instant;
use task_words::{Pass, Wk};
use ttwu_core::Wake;
use uses_words::plain::{each, time_plain};

/// A new task is woken so many times.
pub fn refused<R: Runtime + AllocGlobal + Wait>(rt: &R, count: u32) -> Option<Took> {
    let (wk, mut pass) = lone_table(rt.alloc(), 1, 0)?;
    let begun = Instant::now(rt).ok()?;
    let done = repeat(rt, &wk, &mut pass, count);
    let wake = each(begun.elapsed(rt).ok()?, count);
    let plain = time_plain::<plain::Refused, R>(rt, count)?;
    if done {
        Some(Took { wake, plain })
    } else {
        None
    }
}

// Whether each was refused.
fn repeat<R: Wait>(rt: &R, wk: &Wk<()>, pass: &mut Pass, count: u32) -> bool
    requires of { IsOf wk.now pass.old }
    requires task { 0 < wk.now.shape.tasks }
    requires between { IsBetween pass.old }
    ensures same { IsOneSeat pass.old pass.new }
{
    for _ in 0..count {
        match wake_one(rt, wk, pass, 0) {
            Wake::NoMatch { .. } => {}
            Wake::Woke { .. } => return false,
        }
    }
    true
}
