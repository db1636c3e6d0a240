//! Walks along the wait queue of a condition.
ghost use Rattle.std.specs.Prelude.{◌≡◌, ◌<◌, ◌≤◌, ◌+◌, ◌*◌, false, None, Some, IfSome};
ghost use Rattle.task_words.specs.Folds.{owes_walk, wait_held};
ghost use Rattle.task_words.specs.Needs.{need_walk};
ghost use Rattle.task_words.specs.Views.{IsOf, IsSameSeat};
ghost use Rattle.wait_queue.specs.Settles.{IsFree, Settles};
ghost use Rattle.wait_queue.specs.Walks.{IsWalked, IsRaisedAndWalked};

use crate::meeting::walk_entries;
use handoff_data::CondNo;
use std::sync::Wait;
use task_words::{Kept, Pass, Wk, bump_cond, lock_wait};

// Walks along the wait queue of a condition, under its lock.
fn walk<B: Kept, R: Wait>(rt: &R, wk: &Wk<B>, pass: &mut Pass, k: CondNo, limit: Option<u32>) -> u32
    requires of { IsOf wk.now pass.old }
    requires condition { k < wk.now.shape.conds }
    requires limit { IfSome limit (λ n. 0 < n) }
    requires free_wait { wait_held pass.old.trace k ≡ None }
    requires free { IsFree pass.old.seat pass.old.trace }
    requires spare { need_walk wk.now.shape.tasks ≤ pass.old.turn.spare }
    ensures same { IsSameSeat pass.old pass.new }
    ensures did { IsWalked wk.now.shape k limit pass.old pass.new result }
    ensures settles { Settles pass.old.seat pass.old.trace pass.new.trace }
    ensures spare { pass.old.turn.spare ≤ pass.new.turn.spare + 2 * wk.now.shape.tasks }
    ensures paid { limit ≡ None → owes_walk pass.new.trace k ≡ false }
{
    let mut wait = lock_wait(rt, wk, pass, k);
    // Each entry is met before the lock goes back; where a limit ends the walk, the seat still owes the condition one
    // (the walk that ends too soon).
    let woken = walk_entries(rt, wk, pass, wait.val_mut(wk), limit);
    wait.give(wk, pass);
    woken
}

/// Wakes each task with an entry at a condition, as Linux's `wake_up_all` (`include/linux/wait.h`) with TASK_NORMAL;
/// how many it woke. Their entries leave. After it the pass owes the condition no walk.
pub fn wake_all<B: Kept, R: Wait>(rt: &R, wk: &Wk<B>, pass: &mut Pass, k: CondNo) -> u32
    requires of { IsOf wk.now pass.old }
    requires condition { k < wk.now.shape.conds }
    requires free_wait { wait_held pass.old.trace k ≡ None }
    requires free { IsFree pass.old.seat pass.old.trace }
    requires spare { need_walk wk.now.shape.tasks ≤ pass.old.turn.spare }
    ensures same { IsSameSeat pass.old pass.new }
    ensures did { IsWalked wk.now.shape k None pass.old pass.new result }
    ensures settles { Settles pass.old.seat pass.old.trace pass.new.trace }
    ensures spare { pass.old.turn.spare ≤ pass.new.turn.spare + 2 * wk.now.shape.tasks }
    ensures paid { owes_walk pass.new.trace k ≡ false }
{
    walk(rt, wk, pass, k, None)
}

/// Wakes tasks with an entry at a condition from the head on, until `exclusive` of them have an exclusive entry or none
/// is left, as Linux's `wake_up_nr` (`include/linux/wait.h`) with TASK_NORMAL; how many it woke. Their entries leave.
/// `exclusive` is above 0.
pub fn wake_some<B: Kept, R: Wait>(
    rt: &R,
    wk: &Wk<B>,
    pass: &mut Pass,
    k: CondNo,
    exclusive: u32,
) -> u32
    requires of { IsOf wk.now pass.old }
    requires condition { k < wk.now.shape.conds }
    requires some { 0 < exclusive }
    requires free_wait { wait_held pass.old.trace k ≡ None }
    requires free { IsFree pass.old.seat pass.old.trace }
    requires spare { need_walk wk.now.shape.tasks ≤ pass.old.turn.spare }
    ensures same { IsSameSeat pass.old pass.new }
    ensures did { IsWalked wk.now.shape k (Some exclusive) pass.old pass.new result }
    ensures settles { Settles pass.old.seat pass.old.trace pass.new.trace }
    ensures spare { pass.old.turn.spare ≤ pass.new.turn.spare + 2 * wk.now.shape.tasks }
{
    walk(rt, wk, pass, k, Some(exclusive))
}

/// Raises a condition by one, modulo 2^64, and wakes each task with an entry there; how many it woke. After it the pass
/// owes the condition no walk.
pub fn bump_and_wake<B: Kept, R: Wait>(rt: &R, wk: &Wk<B>, pass: &mut Pass, k: CondNo) -> u32
    requires of { IsOf wk.now pass.old }
    requires condition { k < wk.now.shape.conds }
    requires free_wait { wait_held pass.old.trace k ≡ None }
    requires free { IsFree pass.old.seat pass.old.trace }
    requires spare { need_walk wk.now.shape.tasks ≤ pass.old.turn.spare }
    ensures same { IsSameSeat pass.old pass.new }
    ensures did { IsRaisedAndWalked wk.now.shape k pass.old pass.new result }
    ensures settles { Settles pass.old.seat pass.old.trace pass.new.trace }
    ensures spare { pass.old.turn.spare ≤ pass.new.turn.spare + 2 * wk.now.shape.tasks }
    ensures paid { owes_walk pass.new.trace k ≡ false }
{
    // The raise before the lock: a sleeper whose entry comes in after the walk stores its state later still, and then
    // reads the raised condition (the walk before the raise).
    bump_cond(wk, pass, k);
    wake_all(rt, wk, pass, k)
}
