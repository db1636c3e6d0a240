//! Calls of a seat whose current task is on its queue.
ghost use Rattle.std.specs.Prelude.{◌<◌, ◌≤◌};
ghost use Rattle.task_words.specs.Needs.{need_call, need_walk};
ghost use Rattle.task_words.specs.Seats.{IsRunning};
ghost use Rattle.task_words.specs.Views.{IsOf, IsSame, IsSameSeat};

use handoff_data::{CondNo, State, TaskNo};
use std::sync::Wait;
use task_words::{Kept, Pass, Wk};
use ttwu_core::Wake;

/// Wakes the current task itself.
pub fn wake_own<B: Kept>(wk: &Wk<B>, pass: &mut Pass, t: TaskNo) -> Wake
    requires of { IsOf wk.now pass.old }
    requires running { IsRunning t pass.old }
    requires spare { need_call ≤ pass.old.turn.spare }
    ensures same { IsSameSeat pass.old pass.new }
    ensures running { IsRunning t pass.new }
{
    ttwu_core::wake_own(wk, pass, State::TASK_NORMAL)
}

/// Wakes each task with an entry at a condition, the current one too; how many it woke.
pub fn wake_all<B: Kept, R: Wait>(rt: &R, wk: &Wk<B>, pass: &mut Pass, t: TaskNo, k: CondNo) -> u32
    requires of { IsOf wk.now pass.old }
    requires condition { k < wk.now.shape.conds }
    requires running { IsRunning t pass.old }
    requires spare { need_walk wk.now.shape.tasks ≤ pass.old.turn.spare }
    ensures same { IsSameSeat pass.old pass.new }
    ensures running { IsRunning t pass.new }
{
    wait_queue::wake_all(rt, wk, pass, k)
}

/// Raises a condition, and wakes each task with an entry there, the current one too; how many it woke.
pub fn bump_and_wake<B: Kept, R: Wait>(
    rt: &R,
    wk: &Wk<B>,
    pass: &mut Pass,
    t: TaskNo,
    k: CondNo,
) -> u32
    requires of { IsOf wk.now pass.old }
    requires condition { k < wk.now.shape.conds }
    requires running { IsRunning t pass.old }
    requires spare { need_walk wk.now.shape.tasks ≤ pass.old.turn.spare }
    ensures same { IsSameSeat pass.old pass.new }
    ensures running { IsRunning t pass.new }
{
    wait_queue::bump_and_wake(rt, wk, pass, k)
}

/// Puts an entry of the current task into the wait queue of a condition, and stores TASK_INTERRUPTIBLE.
pub fn prepare<B: Kept, R: Wait>(
    rt: &R,
    wk: &Wk<B>,
    pass: &mut Pass,
    t: TaskNo,
    k: CondNo,
    exclusive: bool,
)
    requires of { IsOf wk.now pass.old }
    requires condition { k < wk.now.shape.conds }
    requires running { IsRunning t pass.old }
    ensures same { IsSame pass.old pass.new }
    ensures running { IsRunning t pass.new }
{
    wait_queue::prepare(rt, wk, pass, k, exclusive, State::TASK_INTERRUPTIBLE);
}

/// Stores TASK_RUNNING, and takes the entry of the current task out of the wait queue of a condition.
pub fn finish<B: Kept, R: Wait>(rt: &R, wk: &Wk<B>, pass: &mut Pass, t: TaskNo, k: CondNo)
    requires of { IsOf wk.now pass.old }
    requires condition { k < wk.now.shape.conds }
    requires running { IsRunning t pass.old }
    ensures same { IsSame pass.old pass.new }
    ensures running { IsRunning t pass.new }
{
    wait_queue::finish(rt, wk, pass, k);
}
