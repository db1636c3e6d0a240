//! What a give of a queue may do with the tasks that run and were switched out.

ghost use Rattle.std.specs.Prelude.{◌≡◌, ◌≢◌, ℕ, ◌<◌, ◌⊎◌, ◌↔◌, IsTrue, IsSome, Some, None};
ghost use Rattle.core_data.specs.Queue.{Queue};
ghost use Rattle.core_data.specs.Columns.{Columns, columns};
ghost use Rattle.core_gives.specs.Queues.{IsSwitch, MayGiveUp};

use core_data::{Core, QueueVal};
use handoff_data::{CpuNo, SeatNo, TaskNo};
use step_stores::{current, queue_out, task_words, tasks, to_clear};

/// Whether seat s may give task t up: its body is home, and the seat has the task's lock or the task isn't
/// migration-disabled.
fn may_give_up(core: &Core, s: SeatNo, t: TaskNo) -> bool
    ensures { IsTrue result ↔ MayGiveUp (columns core.now) s t }
{
    if (t as usize) >= tasks(core) {
        return false;
    }
    let words = task_words(core, t);
    words.body && (words.lock == Some(s) || words.count == 0)
}

/// Whether two queues have the same `cur` and `left`.
fn is_same_run(taken: &QueueVal, given: &QueueVal) -> bool
    ensures { IsTrue result ↔ ((given.now.cur ≡ taken.now.cur) × (given.now.left ≡ taken.now.left)) }
{
    given.cur == taken.cur && given.left == taken.left
}

/// Whether the seat has the queue out, and leaves `cur` and `left` of another processor's queue as they were taken.
fn leaves_run(core: &Core, s: SeatNo, c: CpuNo, queue: &QueueVal) -> bool
    requires { s < (columns core.now).seats }
    ensures { IsTrue result ↔ (IsSome ((columns core.now).queue_held s c)
        × (s ≢ c → (taken : Queue) → (columns core.now).queue_held s c ≡ Some taken →
        (queue.now.cur ≡ taken.cur) × (queue.now.left ≡ taken.left))) }
{
    match queue_out(core, s, c) {
        Some(taken) => s == c || is_same_run(taken, queue),
        None => false,
    }
}

/// Whether the queue gives task t up, and the seat may do so.
fn is_given_up(core: &Core, s: SeatNo, queue: &QueueVal, t: TaskNo) -> bool
    ensures { IsTrue result ↔ ((queue.now.cur ≡ None) × (queue.now.left ≡ Some t) × MayGiveUp (columns core.now) s t) }
{
    queue.cur.is_none() && queue.left == Some(t) && may_give_up(core, s, t)
}

/// Whether the seat's current task, if it has one, goes on or is given up.
fn keeps_or_gives_up(core: &Core, s: SeatNo, queue: &QueueVal) -> bool
    requires { s < (columns core.now).seats }
    ensures { IsTrue result ↔ ((t : ℕ) → (columns core.now).current_task s ≡ Some t →
        (queue.now.cur ≡ Some t)
        ⊎ ((queue.now.cur ≡ None) × (queue.now.left ≡ Some t) × MayGiveUp (columns core.now) s t)) }
{
    match current(core, s) {
        Some(t) => queue.cur == Some(t) || is_given_up(core, s, queue, t),
        None => true,
    }
}

/// Whether `left` stays where its busy word is still to be cleared.
fn keeps_left(core: &Core, s: SeatNo, queue: &QueueVal) -> bool
    requires { s < (columns core.now).seats }
    ensures { IsTrue result ↔ ((t : ℕ) → (columns core.now).task_to_clear s ≡ Some t → queue.now.left ≡ Some t) }
{
    match to_clear(core, s) {
        Some(t) => queue.left == Some(t),
        None => true,
    }
}

/// Whether seat s has the queue of processor c out, and may give it with this `cur` and `left`.
pub fn may_switch(core: &Core, s: SeatNo, c: CpuNo, queue: &QueueVal) -> bool
    requires { s < (columns core.now).seats }
    ensures { IsTrue result ↔ (IsSome ((columns core.now).queue_held s c) × IsSwitch (columns core.now) s c queue.now) }
{
    if !leaves_run(core, s, c, queue) {
        return false;
    }
    s != c || (keeps_or_gives_up(core, s, queue) && keeps_left(core, s, queue))
}
