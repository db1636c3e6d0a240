//! The wake-up of the waker's own current task.
ghost use Rattle.std.specs.Prelude.{◌≡◌, ℕ, ◌+◌, ◌<◌, ◌≤◌, Some, IsSome, true};
ghost use Rattle.run_queue.specs.Rests.{Rests};
ghost use Rattle.task_words.specs.Folds.{current_task, stays_queued, has_passed};
ghost use Rattle.task_words.specs.Needs.{need_call};
ghost use Rattle.task_words.specs.States.{IsWakeMask};
ghost use Rattle.task_words.specs.Steps.{normal};
ghost use Rattle.task_words.specs.Views.{IsOf, IsSameSeat};
ghost use Rattle.ttwu_core.specs.Own.{DidWakeOwn};

use crate::answers::{How, Wake};
use handoff_data::{State, matches};
use task_words::{Kept, Pass, Wk, match_state, set_running};

/// Wakes the pass's own current task, which is queued, as the branch of Linux's `try_to_wake_up`
/// (`kernel/sched/core.c`) for `current`: it takes no lock and waits for nobody.
pub fn wake_own<B: Kept>(wk: &Wk<B>, pass: &mut Pass, mask: State) -> Wake
    requires of { IsOf wk.now pass.old }
    requires current { IsSome (current_task pass.old.seat pass.old.trace) }
    requires queued { stays_queued pass.old.trace ≡ true }
    requires mask { IsWakeMask mask }
    requires spare { need_call ≤ pass.old.turn.spare }
    ensures same { IsSameSeat pass.old pass.new }
    ensures did { DidWakeOwn mask pass.old pass.new result }
    ensures rests { Rests pass.old.seat pass.old.trace pass.new.trace }
    ensures passed { mask ≡ normal → (k t : ℕ) → current_task pass.old.seat pass.old.trace ≡ Some t
        → has_passed pass.new.trace k t ≡ true }
    ensures spare { pass.old.turn.spare ≤ pass.new.turn.spare + 1 }
{
    let Some(t) = pass.current() else {
        unreachable!()
    };
    // No lock: no other seat can queue T or take it off while it is the current task here, and a waker that stores its
    // state meanwhile stores TASK_RUNNING too (two wakers).
    let seen = match_state(wk, pass, t, mask);
    if !matches(seen, mask) {
        return Wake::NoMatch { seen };
    }
    set_running(wk, pass);
    Wake::Woke { how: How::Own }
}
