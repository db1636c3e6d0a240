//! The current task sleeps on a condition.
ghost use Rattle.std.specs.Prelude.{◌≡◌, ℕ, ◌<◌, ◌≤◌, ◌+◌, false, IsSome};
ghost use Rattle.sched_switch.specs.Currents.{current_slept};
ghost use Rattle.sched_switch.specs.Sleeps.{DidSleep};
ghost use Rattle.sched_switch.specs.Standing.{IsSteady};
ghost use Rattle.task_words.specs.Needs.{need_call};
ghost use Rattle.task_words.specs.Views.{IsOf, IsSameSeat};
ghost use Rattle.word_steps.specs.Folds.{current_task, owes_walk};

use crate::answer::{Next, Out, Slept};
use crate::switching::switch_out;
use handoff_data::{CondNo, State};
use std::sync::Wait;
use task_words::{Kept, Pass, Wk, load_cond};
use wait_queue::{finish, prepare};

/// Puts the current task to sleep at a condition, unless that reads as another value than `v`, as `wait_event` of
/// Linux's `include/linux/wait.h`: it enters the wait queue as TASK_INTERRUPTIBLE, not exclusive, then the condition is
/// read, and then it leaves its processor as by `schedule` with `Nobody`. `Changed` comes exactly where another value
/// was read: its entry is taken out again, and it is still current, as TASK_RUNNING. `Woken` comes exactly where it was
/// read as TASK_RUNNING under its queue's lock: it stands at the back of its queue. Its entry stays in on `Slept` and
/// on `Woken`, as far as no waker took it out. Its body is home. It adds at most two entries to the turn, and takes no
/// memory.
pub fn sleep_on<B: Kept, R: Wait>(rt: &R, wk: &Wk<B>, pass: &mut Pass, k: CondNo, v: u64) -> Slept
    requires of { IsOf wk.now pass.old }
    requires processor { pass.old.seat < wk.now.shape.cpus }
    requires condition { k < wk.now.shape.conds }
    requires steady { IsSteady pass.old }
    requires current { IsSome (current_task pass.old.seat pass.old.trace) }
    requires spare { need_call ≤ pass.old.turn.spare }
    ensures same { IsSameSeat pass.old pass.new }
    ensures steady { IsSteady pass.new }
    ensures current { current_task pass.new.seat pass.new.trace ≡ current_slept
        (current_task pass.old.seat pass.old.trace) result }
    ensures did { DidSleep k v pass.old pass.new result }
    ensures owes { (c : ℕ) → owes_walk pass.old.trace c ≡ false → owes_walk pass.new.trace c ≡ false }
    ensures spare { pass.old.turn.spare ≤ pass.new.turn.spare + 2 }
{
    let Some(t) = pass.current() else {
        unreachable!()
    };
    // The state is stored before the condition is read: who raises the condition after the read walks the wait queue
    // later still, and finds the entry and a state that matches. (Bars: the test before the store.)
    prepare(rt, wk, pass, k, false, State::TASK_INTERRUPTIBLE);
    let now = load_cond(wk, pass, k);
    if now != v {
        finish(rt, wk, pass, k);
        return Slept::Changed { now };
    }
    // The state is read again under the queue's lock: a wake since the store was a TASK_RUNNING, by which the task is
    // put back. (Bars: a wake between test and sleep.)
    match switch_out(rt, wk, pass, t, Next::Nobody) {
        Out::Gone { m } => Slept::Slept { m },
        Out::Back => Slept::Woken,
        Out::Stays => unreachable!(),
    }
}
