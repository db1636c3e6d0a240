//! Switches to whatever task is next.
ghost use Rattle.std.specs.Prelude.{◌≡◌, ◌<◌, ◌≤◌};
ghost use Rattle.bench_switch.specs.Ready.{IsReady, IsUnused};

use crate::plain::Plain;
use crate::table::lone_table;
use crate::took::{Took, each, time_plain};
use handoff_data::TaskNo;
use run_queue::{Start, start};
use sched_switch::{Next, Switch, schedule};
use std::rt::Runtime;
use std::sync::Wait;
use std::time::Instant;
use task_words::{Pass, Wk};
use uses_switch::Turns;

/// So many switches on a processor with so many tasks, which all run.
pub fn switches<P: Plain, R: Runtime + AllocGlobal + Wait>(
    rt: &R,
    tasks: u32,
    count: u32,
) -> Option<Took>
    requires tasks { tasks ≤ 200 }
{
    let (wk, mut pass) = lone_table(rt.alloc(), tasks, 0)?;
    if !start_all(rt, &wk, &mut pass, tasks) {
        return None;
    }
    switch(rt, &wk, &mut pass);
    let begun = Instant::now(rt).ok()?;
    let done = repeat(rt, &wk, &mut pass, count, tasks > 0);
    let own = each(begun.elapsed(rt).ok()?, count);
    let plain = time_plain::<P, R>(rt, count)?;
    if done {
        Some(Took { own, plain })
    } else {
        None
    }
}

fn start_one<R: Wait>(rt: &R, wk: &Wk<Turns>, pass: &mut Pass, t: TaskNo) -> bool
    requires unused { IsUnused wk.now pass.old }
    requires task { t < wk.now.shape.tasks }
    ensures unused { IsUnused wk.now pass.new }
{
    pass.clear_turn();
    let c = pass.seat();
    match start(rt, wk, pass, t, c) {
        Start::Started { .. } => true,
        Start::NotNew { .. } => false,
    }
}

/// Whether all tasks were new.
pub fn start_all<R: Wait>(rt: &R, wk: &Wk<Turns>, pass: &mut Pass, tasks: u32) -> bool
    requires unused { IsUnused wk.now pass.old }
    requires tasks { tasks ≡ wk.now.shape.tasks }
    ensures unused { IsUnused wk.now pass.new }
{
    for t in 0..tasks {
        if !start_one(rt, wk, pass, t) {
            return false;
        }
    }
    true
}

// Whether a task runs after a switch.
fn switch<R: Wait>(rt: &R, wk: &Wk<Turns>, pass: &mut Pass) -> bool
    requires ready { IsReady wk.now pass.old }
    ensures ready { IsReady wk.now pass.new }
{
    pass.clear_turn();
    match schedule(rt, wk, pass, Next::Task) {
        Switch::Running(_) => true,
        _ => false,
    }
}

// Whether a task ran, or none, after each of so many switches.
fn repeat<R: Wait>(rt: &R, wk: &Wk<Turns>, pass: &mut Pass, count: u32, runs: bool) -> bool
    requires ready { IsReady wk.now pass.old }
{
    for _ in 0..count {
        if switch(rt, wk, pass) != runs {
            return false;
        }
    }
    true
}
