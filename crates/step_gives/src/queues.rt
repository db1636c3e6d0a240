//! Giving a queue: the condition that it says what the words say, and the switch of the seat's current task.

ghost use Rattle.std.specs.Prelude.{◌≡◌, ◌≢◌, ℕ, ◌<◌, ◌⊎◌, ◌↔◌, IsTrue, Some, slice_get};
ghost use Rattle.std.specs.List.{list_any};
ghost use Rattle.core_data.specs.Queue.{Queue, times_in};
ghost use Rattle.core_data.specs.declared.seat.SeatCore.{SeatCore};
ghost use Rattle.core_data.specs.Columns.{Columns, columns};
ghost use Rattle.core_gives.specs.Queues.{MayGiveQueue, give_queue, give_up_if, gives_up, is_some_of};
ghost use Rattle.core_kinds.specs.Steps.{IsRunnable};

use crate::fits::is_queue_of;
use crate::switch::may_switch;
use core_data::{Core, QueueVal, SeatCore};
use handoff_data::{CpuNo, SeatNo, State, TaskNo};
use step_kinds::unsee;
use step_stores::{
    cpus, current, put_current, put_queue, put_queue_lock, put_to_clear, queue_lock, release_queue,
    seats, task_words, tasks, to_clear,
};

/// Whether task t may run: its state is TASK_RUNNING or TASK_NEW.
fn is_runnable(core: &Core, t: TaskNo) -> bool
    ensures { IsTrue result ↔ IsRunnable ((columns core.now).state t) }
{
    if (t as usize) >= tasks(core) {
        return true;
    }
    let state = task_words(core, t).state;
    state.0 == State::TASK_RUNNING.0 || state.0 == State::TASK_NEW.0
}

/// Whether the task at this place of those that wait may run.
fn is_runnable_at(core: &Core, queue: &QueueVal, i: usize) -> bool
    ensures { IsTrue result ↔ ((t : ℕ) → slice_get queue.now.waiting i ≡ Some t
        → IsRunnable ((columns core.now).state t)) }
{
    match queue.get(i) {
        Some(t) => is_runnable(core, t),
        None => true,
    }
}

/// Whether each task that waits may run.
fn are_runnable(core: &Core, queue: &QueueVal) -> bool
    ensures { IsTrue result ↔ ((t : ℕ) → times_in queue.now.waiting t ≢ 0 → IsRunnable ((columns core.now).state t)) }
{
    for i in 0..queue.len() as usize {
        if !is_runnable_at(core, queue, i) {
            return false;
        }
    }
    true
}

/// Whether this seat has the task as its current one.
fn has_current(seat: &SeatCore, t: TaskNo) -> bool
    ensures { result ≡ is_some_of seat.now.current t }
{
    match seat.current {
        Some(current) => current == t,
        None => false,
    }
}

/// Whether one of these seats has the task as its current one.
fn are_current(seats: &[SeatCore], t: TaskNo) -> bool
    ensures { result ≡ list_any (λ (seat : SeatCore). is_some_of seat.current t) seats.now }
{
    seats.iter().any(|seat| has_current(seat, t))
}

/// Whether some seat has the task as its current one.
fn is_current(core: &Core, t: TaskNo) -> bool
    ensures { IsTrue result ↔ ((s : ℕ) × ((columns core.now).current_task s ≡ Some t)) }
{
    are_current(&core.seats, t)
}

/// Whether the task in `cur` may run, or runs.
fn is_cur_runnable(core: &Core, queue: &QueueVal) -> bool
    ensures { IsTrue result ↔ ((t : ℕ) → queue.now.cur ≡ Some t →
        IsRunnable ((columns core.now).state t) ⊎ ((s : ℕ) × ((columns core.now).current_task s ≡ Some t))) }
{
    match queue.cur {
        Some(t) => is_runnable(core, t) || is_current(core, t),
        None => true,
    }
}

/// Whether `left` is a task of the core.
fn is_left_of(core: &Core, queue: &QueueVal) -> bool
    ensures { IsTrue result ↔ ((t : ℕ) → queue.now.left ≡ Some t → t < (columns core.now).tasks) }
{
    match queue.left {
        Some(t) => (t as usize) < tasks(core),
        None => true,
    }
}

/// Whether seat s has the lock of the queue of processor c.
fn has_lock(core: &Core, s: SeatNo, c: CpuNo) -> bool
    ensures { IsTrue result ↔
        ((s < (columns core.now).seats) × (c < (columns core.now).cpus) × ((columns core.now).queue_lock c ≡ Some s)) }
{
    (s as usize) < seats(core) && (c as usize) < cpus(core) && queue_lock(core, c) == Some(s)
}

/// Whether seat s may give the lock of the queue of processor c with this queue: it has the lock, the queue says what
/// the words say, all that waits may run, and the seat does with `cur` and `left` no more than it may.
pub fn may_give_queue(core: &Core, s: SeatNo, c: CpuNo, queue: &QueueVal) -> bool
    ensures { IsTrue result ↔ MayGiveQueue (columns core.now) s c queue.now }
{
    if !has_lock(core, s, c) {
        return false;
    }
    is_queue_of(core, c, queue)
        && are_runnable(core, queue)
        && is_cur_runnable(core, queue)
        && may_switch(core, s, c, queue)
        && is_left_of(core, queue)
}

/// Gives the current task up.
fn give_up_if(core: &mut Core, s: SeatNo, on: bool)
    requires { s < (columns core.old).seats }
    ensures { columns core.new ≡ give_up_if on (columns core.old) s }
{
    if on {
        let task = current(core, s);
        let left = if task.is_some() {
            task
        } else {
            to_clear(core, s)
        };
        put_current(core, s, None);
        put_to_clear(core, s, left);
    }
}

fn gives_up(s: SeatNo, c: CpuNo, queue: &QueueVal) -> bool
    ensures { result ≡ gives_up s c queue.now }
{
    s == c && queue.cur.is_none()
}

/// Gives the lock of the queue of processor c, and puts the queue home.
pub fn give_queue(core: &mut Core, s: SeatNo, c: CpuNo, queue: QueueVal)
    requires { (s < (columns core.old).seats) × (c < (columns core.old).cpus) }
    ensures { columns core.new ≡ give_queue (columns core.old) s c queue }
{
    let gives = gives_up(s, c, &queue);
    put_queue_lock(core, c, None);
    put_queue(core, c, queue);
    release_queue(core, s, c);
    give_up_if(core, s, gives);
    unsee(core, s, c);
}
