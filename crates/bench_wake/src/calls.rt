//! Starts, wake-ups and walks by a seat that runs no task.
ghost use Rattle.std.specs.Prelude.{◌≡◌, ◌<◌};
ghost use Rattle.task_words.specs.Seats.{IsBetween};
ghost use Rattle.task_words.specs.Views.{IsOf, IsOneSeat};

use handoff_data::{CondNo, CpuNo, State, TaskNo};
use run_queue::{Start, start};
use std::sync::Wait;
use task_words::{Pass, Wk};
use ttwu_core::{Wake, wake};
use wait_queue::wake_all;

/// Starts a new task on a processor; whether it was new.
pub fn start_one<R: Wait>(rt: &R, wk: &Wk<()>, pass: &mut Pass, t: TaskNo, c: CpuNo) -> bool
    requires of { IsOf wk.now pass.old }
    requires task { t < wk.now.shape.tasks }
    requires processor { c < wk.now.shape.cpus }
    requires between { IsBetween pass.old }
    ensures same { IsOneSeat pass.old pass.new }
    ensures between { IsBetween pass.new }
{
    pass.clear_turn();
    match start(rt, wk, pass, t, c) {
        Start::Started { .. } => true,
        Start::NotNew { .. } => false,
    }
}

/// Wakes a task by the mask TASK_NORMAL.
pub fn wake_one<R: Wait>(rt: &R, wk: &Wk<()>, pass: &mut Pass, t: TaskNo) -> Wake
    requires of { IsOf wk.now pass.old }
    requires task { t < wk.now.shape.tasks }
    requires between { IsBetween pass.old }
    ensures same { IsOneSeat pass.old pass.new }
    ensures between { IsBetween pass.new }
{
    pass.clear_turn();
    wake(rt, wk, pass, t, State::TASK_NORMAL)
}

/// Walks along the wait queue of a condition, and wakes each task there; how many it woke.
#[tactic(auto, using(crate::proofs::Settled::settles_between, crate::proofs::Settled::between_free))]
pub fn walk_one<R: Wait>(rt: &R, wk: &Wk<()>, pass: &mut Pass, k: CondNo) -> u32
    requires of { IsOf wk.now pass.old }
    requires condition { k < wk.now.shape.conds }
    requires between { IsBetween pass.old }
    ensures same { IsOneSeat pass.old pass.new }
    ensures between { IsBetween pass.new }
{
    pass.clear_turn();
    wake_all(rt, wk, pass, k)
}
