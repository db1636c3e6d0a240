//! Calls of a seat with no current task.
ghost use Rattle.std.specs.Prelude.{◌<◌, ◌≤◌};
ghost use Rattle.task_words.specs.Needs.{need_wake, need_walk};
ghost use Rattle.task_words.specs.Seats.{IsBetween};
ghost use Rattle.task_words.specs.States.{IsWakeMask};
ghost use Rattle.task_words.specs.Steps.{normal};
ghost use Rattle.task_words.specs.Views.{IsOf, IsSameSeat};
ghost use Rattle.ttwu_core.specs.Wakes.{DidWake};

use handoff_data::{CondNo, State, TaskNo};
use std::sync::Wait;
use task_words::{Kept, Pass, Wk};
use ttwu_core::Wake;

/// Wakes a task that sleeps as TASK_NORMAL says.
pub fn wake<B: Kept, R: Wait>(rt: &R, wk: &Wk<B>, pass: &mut Pass, t: TaskNo) -> Wake
    requires of { IsOf wk.now pass.old }
    requires task { t < wk.now.shape.tasks }
    requires between { IsBetween pass.old }
    requires spare { need_wake ≤ pass.old.turn.spare }
    ensures same { IsSameSeat pass.old pass.new }
    ensures did { DidWake t normal wk.now.shape pass.old pass.new result }
    ensures between { IsBetween pass.new }
{
    wake_by(rt, wk, pass, t, State::TASK_NORMAL)
}

/// Wakes a task that sleeps as a mask says.
pub fn wake_by<B: Kept, R: Wait>(
    rt: &R,
    wk: &Wk<B>,
    pass: &mut Pass,
    t: TaskNo,
    mask: State,
) -> Wake
    requires of { IsOf wk.now pass.old }
    requires task { t < wk.now.shape.tasks }
    requires mask { IsWakeMask mask }
    requires between { IsBetween pass.old }
    requires spare { need_wake ≤ pass.old.turn.spare }
    ensures same { IsSameSeat pass.old pass.new }
    ensures did { DidWake t mask wk.now.shape pass.old pass.new result }
    ensures between { IsBetween pass.new }
{
    ttwu_core::wake(rt, wk, pass, t, mask)
}

/// Wakes each task with an entry at a condition; how many it woke.
pub fn wake_all<B: Kept, R: Wait>(rt: &R, wk: &Wk<B>, pass: &mut Pass, k: CondNo) -> u32
    requires of { IsOf wk.now pass.old }
    requires condition { k < wk.now.shape.conds }
    requires between { IsBetween pass.old }
    requires spare { need_walk wk.now.shape.tasks ≤ pass.old.turn.spare }
    ensures same { IsSameSeat pass.old pass.new }
    ensures between { IsBetween pass.new }
{
    wait_queue::wake_all(rt, wk, pass, k)
}

/// Wakes tasks with an entry at a condition, up to so many with an exclusive one; how many it woke.
pub fn wake_some<B: Kept, R: Wait>(
    rt: &R,
    wk: &Wk<B>,
    pass: &mut Pass,
    k: CondNo,
    exclusive: u32,
) -> u32
    requires of { IsOf wk.now pass.old }
    requires condition { k < wk.now.shape.conds }
    requires some { 0 < exclusive }
    requires between { IsBetween pass.old }
    requires spare { need_walk wk.now.shape.tasks ≤ pass.old.turn.spare }
    ensures same { IsSameSeat pass.old pass.new }
    ensures between { IsBetween pass.new }
{
    wait_queue::wake_some(rt, wk, pass, k, exclusive)
}

/// Raises a condition, and wakes each task with an entry there; how many it woke.
pub fn bump_and_wake<B: Kept, R: Wait>(rt: &R, wk: &Wk<B>, pass: &mut Pass, k: CondNo) -> u32
    requires of { IsOf wk.now pass.old }
    requires condition { k < wk.now.shape.conds }
    requires between { IsBetween pass.old }
    requires spare { need_walk wk.now.shape.tasks ≤ pass.old.turn.spare }
    ensures same { IsSameSeat pass.old pass.new }
    ensures between { IsBetween pass.new }
{
    wait_queue::bump_and_wake(rt, wk, pass, k)
}
