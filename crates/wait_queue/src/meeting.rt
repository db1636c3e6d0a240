//! A walk meets entries of a wait queue that it has out.
ghost use Rattle.std.specs.Prelude.{◌≡◌, ◌≢◌, ℕ, ◌<◌, ◌≤◌, ◌+◌, ◌*◌, ◌∷◌, [], true, false, Some, IfSome, length};
ghost use Rattle.std.specs.Prelude.{slice_get};
ghost use Rattle.task_words.specs.Folds.{has_passed};
ghost use Rattle.task_words.specs.Needs.{need_wake, need_walk};
ghost use Rattle.task_words.specs.Told.{TakenWait};
ghost use Rattle.task_words.specs.Views.{IsOf, IsSameSeat};
ghost use Rattle.ttwu_core.specs.Rests.{Rests};
ghost use Rattle.wait_queue.specs.Meets.{DidWakeTask, HasMetOne};
ghost use Rattle.wait_queue.specs.Settles.{IsFree};
ghost use Rattle.wait_queue.specs.Walks.{HasWalked, IsTurned, IsTurnedOnce};

use handoff_data::{State, TaskNo};
use std::sync::Wait;
use task_words::{Kept, Pass, Wk};
use ttwu_core::{Wake, wake, wake_own};
use word_steps::WaitQueue;

/// What the wakes of a walk have come to.
#[derive(Clone, Copy, Debug, PartialEq, Eq)]
pub struct Tally {
    /// How many tasks this walk woke.
    pub woken: u32,
    /// How many of them have an exclusive entry.
    pub exclusive: u32,
}

// A shape has at most 200 tasks.
fn few_tasks<B: Kept>(wk: &Wk<B>)
    ensures { wk.now.shape.tasks ≤ 200 }
{
    // The clause of `shape` says it.
    let _shape = wk.shape();
}

// Whether so many are asked for.
fn is_asked(limit: Option<u32>, count: u32) -> bool
    ensures asked { result ≡ true → limit ≡ Some count }
    ensures not { result ≡ false → limit ≢ Some count }
{
    limit == Some(count)
}

// Wakes a task with TASK_NORMAL, the pass's own current one without a lock.
#[tactic(auto, using(crate::proofs::Settling::none_to_clear))]
fn wake_task<B: Kept, R: Wait>(rt: &R, wk: &Wk<B>, pass: &mut Pass, t: TaskNo) -> Wake
    requires of { IsOf wk.now pass.old }
    requires task { t < wk.now.shape.tasks }
    requires free { IsFree pass.old.seat pass.old.trace }
    requires spare { need_wake ≤ pass.old.turn.spare }
    ensures same { IsSameSeat pass.old pass.new }
    ensures did { DidWakeTask t wk.now.shape pass.old pass.new result }
    ensures rests { Rests pass.old.seat pass.old.trace pass.new.trace }
    ensures passed { (k : ℕ) → has_passed pass.new.trace k t ≡ true }
    ensures spare { pass.old.turn.spare ≤ pass.new.turn.spare + 2 }
{
    if pass.current() == Some(t) {
        wake_own(wk, pass, State::TASK_NORMAL)
    } else {
        wake(rt, wk, pass, t, State::TASK_NORMAL)
    }
}

// Meets the entry at the head, and answers what came of it.
fn meet<B: Kept, R: Wait>(rt: &R, wk: &Wk<B>, pass: &mut Pass, entries: &mut WaitQueue) -> Tally
    requires of { IsOf wk.now pass.old }
    requires some { entries.old ≢ [] }
    requires few { length entries.old ≤ 200 }
    requires tasks { IfSome (slice_get entries.old 0) (λ x. x.t < wk.now.shape.tasks) }
    requires free { IsFree pass.old.seat pass.old.trace }
    requires spare { need_wake ≤ pass.old.turn.spare }
    ensures same { IsSameSeat pass.old pass.new }
    ensures did { HasMetOne wk.now.shape entries.new entries.old pass.old pass.new result.woken result.exclusive }
    ensures rests { Rests pass.old.seat pass.old.trace pass.new.trace }
    ensures spare { pass.old.turn.spare ≤ pass.new.turn.spare + 2 }
{
    let Some(entry) = entries.pop_front() else {
        unreachable!()
    };
    // The wake-up is made with the wait queue's lock held, and an entry that wakes nobody goes back: its task may be
    // about to sleep on it (the entry that vanishes).
    match wake_task(rt, wk, pass, entry.t) {
        Wake::Woke { .. } => Tally {
            woken: 1,
            exclusive: entry.exclusive as u32,
        },
        Wake::NoMatch { .. } => {
            entries.push_back(entry);
            Tally {
                woken: 0,
                exclusive: 0,
            }
        }
    }
}

// Puts the entry at the head to the tail.
fn turn(entries: &mut WaitQueue)
    requires some { entries.old ≢ [] }
    requires few { length entries.old ≤ 200 }
    ensures turned { IsTurnedOnce entries.old entries.new }
{
    let Some(entry) = entries.pop_front() else {
        unreachable!()
    };
    entries.push_back(entry);
}

// Puts so many entries from the head to the tail.
fn rotate(entries: &mut WaitQueue, count: usize)
    requires few { length entries.old ≤ 200 }
    requires count { count ≤ length entries.old }
    ensures turned { IsTurned count entries.old entries.new }
{
    for _ in 0..count {
        turn(entries);
    }
}

/// Meets the entries of a wait queue from the head on, until as many true exclusive wakes are made as `limit` says, or
/// none is left, as Linux's `__wake_up_common` (`kernel/sched/wait.c`); how many tasks it woke. Those woken leave, the
/// others keep their order.
pub fn walk_entries<B: Kept, R: Wait>(
    rt: &R,
    wk: &Wk<B>,
    pass: &mut Pass,
    entries: &mut WaitQueue,
    limit: Option<u32>,
) -> u32
    requires of { IsOf wk.now pass.old }
    requires taken { TakenWait wk.now.shape entries.old }
    requires limit { IfSome limit (λ n. 0 < n) }
    requires free { IsFree pass.old.seat pass.old.trace }
    requires spare { need_walk wk.now.shape.tasks ≤ pass.old.turn.spare }
    ensures same { IsSameSeat pass.old pass.new }
    ensures did { HasWalked wk.now.shape limit entries.new entries.old pass.old pass.new result }
    ensures rests { Rests pass.old.seat pass.old.trace pass.new.trace }
    ensures spare { pass.old.turn.spare ≤ pass.new.turn.spare + 2 * wk.now.shape.tasks }
{
    few_tasks(wk);
    let all = entries.len();
    let mut tally = Tally {
        woken: 0,
        exclusive: 0,
    };
    for met in 0..all {
        let one = meet(rt, wk, pass, entries);
        tally.woken += one.woken;
        tally.exclusive += one.exclusive;
        if is_asked(limit, tally.exclusive) {
            rotate(entries, all - met - 1);
            return tally.woken;
        }
    }
    tally.woken
}
