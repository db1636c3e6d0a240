//! Tasks that are picked and sleep.
ghost use Rattle.std.specs.Prelude.{◌≡◌, ◌<◌, true, IfSome};
ghost use Rattle.bench_switch.specs.Ready.{IsUnused};

use crate::plain;
use crate::switches::start_all;
use crate::table::lone_table;
use crate::took::{Took, each, time_clock, time_plain};
use handoff_data::CondNo;
use sched_switch::{Next, Slept, Switch, schedule, sleep_on};
use std::rt::Runtime;
use std::sync::Wait;
use std::time::Instant;
use task_words::{Pass, Wk};
use uses_switch::Turns;
use wait_queue::wake_all;

// How many tasks there are, and a condition for each, so that no wait queue is long. Their words and slots stay in the
// first cache, and a round with all is long beside a look at the clock.
const TASKS: u32 = 60;

/// Rounds, in each of which each task is picked and sleeps, which alone is measured, and is woken again, with at least
/// `count` of them. The time of the looks at the clock is taken off.
pub fn sleeps<R: Runtime + AllocGlobal + Wait>(rt: &R, count: u32) -> Option<Took> {
    let (wk, mut pass) = lone_table(rt.alloc(), TASKS, TASKS)?;
    if !start_all(rt, &wk, &mut pass, TASKS) {
        return None;
    }
    let rounds = (count / TASKS).saturating_add(1);
    let clock = time_clock(rt)?;
    let took = repeat(rt, &wk, &mut pass, rounds)? - clock * f64::from(rounds);
    let plain = time_plain::<plain::Sleep, R>(rt, count)?;
    Some(Took {
        own: took / (f64::from(rounds) * f64::from(TASKS)),
        plain,
    })
}

// Nanoseconds of the sleeps of so many rounds; none where a task didn't sleep.
fn repeat<R: Runtime + Wait>(rt: &R, wk: &Wk<Turns>, pass: &mut Pass, rounds: u32) -> Option<f64>
    requires unused { IsUnused wk.now pass.old }
    requires conds { wk.now.shape.conds ≡ 60 }
{
    let mut all = 0.0;
    for _ in 0..rounds {
        match time_round(rt, wk, pass) {
            Some(took) => all += took,
            None => return None,
        }
    }
    Some(all)
}

fn time_round<R: Runtime + Wait>(rt: &R, wk: &Wk<Turns>, pass: &mut Pass) -> Option<f64>
    requires unused { IsUnused wk.now pass.old }
    requires conds { wk.now.shape.conds ≡ 60 }
    ensures unused { IfSome result (λ took. IsUnused wk.now pass.new) }
{
    let begun = Instant::now(rt).ok()?;
    let slept = sleep_all(rt, wk, pass);
    let took = each(begun.elapsed(rt).ok()?, 1);
    if !slept || !wake_each(rt, wk, pass) {
        return None;
    }
    Some(took)
}

// Whether a task was picked, and sleeps at this condition.
fn sleep_one<R: Wait>(rt: &R, wk: &Wk<Turns>, pass: &mut Pass, k: CondNo) -> bool
    requires unused { IsUnused wk.now pass.old }
    requires condition { k < wk.now.shape.conds }
    ensures unused { result ≡ true → IsUnused wk.now pass.new }
{
    pass.clear_turn();
    let Switch::Running(_) = schedule(rt, wk, pass, Next::Task) else {
        return false;
    };
    pass.clear_turn();
    match sleep_on(rt, wk, pass, k, 0) {
        Slept::Slept { m: _ } => true,
        _ => false,
    }
}

fn sleep_all<R: Wait>(rt: &R, wk: &Wk<Turns>, pass: &mut Pass) -> bool
    requires unused { IsUnused wk.now pass.old }
    requires conds { wk.now.shape.conds ≡ 60 }
    ensures unused { result ≡ true → IsUnused wk.now pass.new }
{
    for k in 0..TASKS {
        if !sleep_one(rt, wk, pass, k) {
            return false;
        }
    }
    true
}

// Whether one task slept at this condition, and is woken.
fn wake_one<R: Wait>(rt: &R, wk: &Wk<Turns>, pass: &mut Pass, k: CondNo) -> bool
    requires unused { IsUnused wk.now pass.old }
    requires condition { k < wk.now.shape.conds }
    ensures unused { IsUnused wk.now pass.new }
{
    pass.clear_turn();
    wake_all(rt, wk, pass, k) == 1
}

fn wake_each<R: Wait>(rt: &R, wk: &Wk<Turns>, pass: &mut Pass) -> bool
    requires unused { IsUnused wk.now pass.old }
    requires conds { wk.now.shape.conds ≡ 60 }
    ensures unused { IsUnused wk.now pass.new }
{
    for k in 0..TASKS {
        if !wake_one(rt, wk, pass, k) {
            return false;
        }
    }
    true
}
