//! A task that is off every queue is claimed by its waker, placed, and queued.
ghost use Rattle.std.specs.Prelude.{◌≡◌, ◌≢◌, ℕ, ◌<◌, ◌≤◌, ◌∷◌, true, false, None, Some, IsSome};
ghost use Rattle.task_words.specs.Folds.{task_held, queue_held, saw_off, saw_clear, is_claimed, is_moving, number_read};
ghost use Rattle.task_words.specs.Folds.{last_reads, current_task};
ghost use Rattle.task_words.specs.Needs.{need_step};
ghost use Rattle.task_words.specs.Views.{IsOf, IsSame, IsSameSeat};
ghost use Rattle.ttwu_core.specs.Claims.{IsAwaitedClear, IsTaken, IsChosen, IsPointer, IsQueuedWoken};
ghost use Rattle.ttwu_core.specs.Keeps.{Keeps};

use core_data::{Rq, TaskVal};
use crossbeam_utils::Backoff;
use handoff_data::{CpuMask, CpuNo, TaskNo};
use place_pick::fallback;
use std::sync::Wait;
use task_words::{
    Kept, Pass, Wk, claim_task, load_busy, lock_queue, make_runnable, queue_task, rest_on_busy,
};

// Reads the busy word of a task again and again until it is clear. It answers the number of its changes.
#[cold]
fn await_again<B: Kept, R: Wait>(rt: &R, wk: &Wk<B>, pass: &mut Pass, t: TaskNo) -> u64
    requires of { IsOf wk.now pass.old }
    requires task { t < wk.now.shape.tasks }
    ensures same { IsSame pass.old pass.new }
    ensures did { IsAwaitedClear t result pass.old.trace pass.new.trace }
{
    let backoff = Backoff::new();
    for _ in rt.forever() {
        let seen = load_busy(wk, pass, t);
        if !seen.on {
            return seen.n;
        }
        rest_on_busy(rt, wk, &backoff, t, seen);
    }
    unreachable!()
}

// Reads the busy word of a task until it is clear, as it is as a rule at once. It answers the number of its changes.
fn await_clear<B: Kept, R: Wait>(rt: &R, wk: &Wk<B>, pass: &mut Pass, t: TaskNo) -> u64
    requires of { IsOf wk.now pass.old }
    requires task { t < wk.now.shape.tasks }
    ensures same { IsSame pass.old pass.new }
    ensures did { IsAwaitedClear t result pass.old.trace pass.new.trace }
{
    let seen = load_busy(wk, pass, t);
    if !seen.on {
        return seen.n;
    }
    await_again(rt, wk, pass, t)
}

/// Claims a task that is off every queue after `m` changes, and waits until no processor is busy with it, as Linux's
/// `try_to_wake_up` stores TASK_WAKING and then waits for `p->on_cpu` to be clear (`kernel/sched/core.c`).
pub fn claim<B: Kept, R: Wait>(rt: &R, wk: &Wk<B>, pass: &mut Pass, t: TaskNo, m: u64)
    requires of { IsOf wk.now pass.old }
    requires task { t < wk.now.shape.tasks }
    requires locked { IsSome (task_held pass.old.trace t) }
    requires off { saw_off pass.old.trace t ≡ true }
    requires number { number_read pass.old.trace t ≡ Some m }
    requires spare { need_step ≤ pass.old.turn.spare }
    ensures same { IsSameSeat pass.old pass.new }
    ensures did { IsTaken t m pass.old pass.new }
    ensures keeps { Keeps pass.old.seat pass.old.trace pass.new.trace }
    ensures others { (u : ℕ) → u ≢ t → is_claimed pass.new.trace u ≡ is_claimed pass.old.trace u }
    ensures moving { is_moving pass.new.trace ≡ is_moving pass.old.trace }
    ensures numbers { number_read pass.new.trace ≡ number_read pass.old.trace }
{
    // The busy word counts only where it is read after TASK_WAKING: what was read before may be older than T's last run
    // (busy before `on_rq`). While it is set, T's last processor is still switching away from T (queued while busy).
    claim_task(wk, pass, t, m);
    await_clear(rt, wk, pass, t);
}

// The allowed pointer of a task. No processor has a number from 16 on.
fn pointer_of(val: &TaskVal) -> CpuMask
    ensures { IsPointer val.now result }
{
    match val.narrowed {
        None => val.mask,
        Some(c) if c < 16 => CpuMask::of(c),
        Some(_) => CpuMask::none(),
    }
}

/// The processor that a woken task is put on, as Linux's `select_task_rq` (`kernel/sched/core.c`), with every processor
/// active.
pub fn choose<B: Kept>(wk: &Wk<B>, val: &TaskVal) -> CpuNo
    ensures chosen { IsChosen val.now wk.now.shape result }
    ensures processor { result < wk.now.shape.cpus }
{
    let all = CpuMask::all(wk.shape().cpus);
    fallback(val.wake_cpu, &pointer_of(val), false, &all, &all, &all).0
}

/// Puts a claimed task at the back of its processor's queue, as Linux's `ttwu_queue` and `ttwu_do_activate`
/// (`kernel/sched/core.c`).
pub fn queue_woken<B: Kept, R: Wait>(
    rt: &R,
    wk: &Wk<B>,
    pass: &mut Pass,
    t: TaskNo,
    c: CpuNo,
    m: u64,
)
    requires of { IsOf wk.now pass.old }
    requires task { t < wk.now.shape.tasks }
    requires processor { c < wk.now.shape.cpus }
    requires locked { IsSome (task_held pass.old.trace t) }
    requires claimed { is_claimed pass.old.trace t ≡ true }
    requires clear { saw_clear pass.old.trace t ≡ true }
    requires number { number_read pass.old.trace t ≡ Some m }
    requires unmoved { is_moving pass.old.trace t ≡ false }
    requires here { (last_reads pass.old.trace t).cpu ≡ Some c }
    requires free { queue_held pass.old.trace c ≡ None }
    requires other { current_task pass.old.seat pass.old.trace ≢ Some t }
    requires queued_before { m ≢ 0 }
    requires spare { need_step ≤ pass.old.turn.spare }
    ensures same { IsSameSeat pass.old pass.new }
    ensures did { IsQueuedWoken t c m pass.old pass.new }
    ensures keeps { Keeps pass.old.seat pass.old.trace pass.new.trace }
{
    let mut queue = lock_queue(rt, wk, pass, c);
    // The queue word under the lock of the queue that T goes into, and T's processor is that queue's: who reads 1 and
    // takes this lock finds T there (the wrong queue).
    queue_task(rt, wk, pass, &queue, t, Rq { on: 0, m });
    queue.push(wk, pass, t);
    // TASK_RUNNING before the queue's lock goes back: else T is picked at TASK_WAKING, stores a sleep state, and this
    // store would wipe it out (picked while waking).
    make_runnable(wk, pass, t);
    queue.give_woken(wk, pass);
}
