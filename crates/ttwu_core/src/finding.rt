//! Where a waker finds a task whose state matches.
ghost use Rattle.std.specs.Prelude.{◌≡◌, ◌≢◌, ℕ, ◌<◌, ◌∷◌, true, false, None, Some, IsSome};
ghost use Rattle.std.specs.List.{All};
ghost use Rattle.task_words.specs.Folds.{is_claimed, is_moving, task_held, queue_held, has_matched, is_unstored};
ghost use Rattle.task_words.specs.Folds.{current_task};
ghost use Rattle.task_words.specs.Rq.{Rq};
ghost use Rattle.task_words.specs.Views.{IsOf, IsSame};
ghost use Rattle.ttwu_core.specs.Finds.{DidFind, IsAwaited};
ghost use Rattle.ttwu_core.specs.Keeps.{Keeps};

use crossbeam_utils::Backoff;
use handoff_data::TaskNo;
use std::sync::Wait;
use task_words::{Kept, Pass, Wk, load_cpu, load_rq, lock_queue, make_runnable, rest_on_rq};

/// Where it is.
#[derive(Clone, Copy, Debug, PartialEq, Eq)]
pub enum Found {
    /// Off every queue, after `m` changes; `m` isn't 0.
    Off { m: u64 },
    /// Queued, and TASK_RUNNING is stored.
    Runnable,
}

// Reads the queue word of a task until it says that the task is off every queue. It answers the number of changes.
fn await_off<B: Kept, R: Wait>(rt: &R, wk: &Wk<B>, pass: &mut Pass, t: TaskNo) -> u64
    requires of { IsOf wk.now pass.old }
    requires task { t < wk.now.shape.tasks }
    requires locked { IsSome (task_held pass.old.trace t) }
    requires matched { has_matched pass.old.trace t ≡ true }
    ensures same { IsSame pass.old pass.new }
    ensures did { IsAwaited t result pass.old.trace pass.new.trace }
    ensures changed { result ≢ 0 }
{
    let backoff = Backoff::new();
    for _ in rt.forever() {
        let seen = load_rq(wk, pass, t);
        if seen.on == 0 {
            return seen.m;
        }
        rest_on_rq(rt, wk, &backoff, t, seen);
    }
    unreachable!()
}

/// Looks where a task is, whose state matched under its lock, as Linux's `try_to_wake_up` tries `ttwu_runnable`
/// (`kernel/sched/core.c`): where it is still queued under the lock of its queue, TASK_RUNNING is stored there.
pub fn find<B: Kept, R: Wait>(rt: &R, wk: &Wk<B>, pass: &mut Pass, t: TaskNo) -> Found
    requires of { IsOf wk.now pass.old }
    requires task { t < wk.now.shape.tasks }
    requires locked { IsSome (task_held pass.old.trace t) }
    requires matched { has_matched pass.old.trace t ≡ true }
    requires unstored { is_unstored pass.old.trace t ≡ true }
    requires free { (c : ℕ) → queue_held pass.old.trace c ≡ None }
    requires other { current_task pass.old.seat pass.old.trace ≢ Some t }
    ensures same { IsSame pass.old pass.new }
    ensures did { DidFind t pass.old.trace pass.new.trace result }
    ensures keeps { Keeps pass.old.seat pass.old.trace pass.new.trace }
    ensures claimed { is_claimed pass.new.trace ≡ is_claimed pass.old.trace }
    ensures moving { is_moving pass.new.trace ≡ is_moving pass.old.trace }
{
    // A 0 under T's lock, read after its state, stays 0: only who has T's lock queues it
    // (the queue word before the lock).
    let first = load_rq(wk, pass, t);
    if first.on == 0 {
        return Found::Off { m: first.m };
    }
    // T's processor is stored under T's lock alone, which this seat has: so the queue locked next is still T's
    // (the wrong queue).
    let c = load_cpu(wk, pass, t);
    let queue = lock_queue(rt, wk, pass, c);
    // The same word again, now under the lock of T's queue: without it T may be leaving by a sleep state that its seat
    // has read already, and TASK_RUNNING would stand on a task off every queue (a bare TASK_RUNNING).
    if load_rq(wk, pass, t).on == 1 {
        make_runnable(wk, pass, t);
        queue.give(wk, pass);
        return Found::Runnable;
    }
    queue.give(wk, pass);
    // T has left its queue in between, and stays off: only who has T's lock queues it. The word is read once more for
    // its number of changes.
    let m = await_off(rt, wk, pass, t);
    Found::Off { m }
}
