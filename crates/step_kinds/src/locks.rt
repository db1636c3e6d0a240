//! Locks: each is taken with the value under it, and given with the value that is put home.

ghost use Rattle.std.specs.Prelude.{◌≡◌, ◌≢◌, ◌<◌, ◌⊎◌, ◌↔◌, IsTrue, IsSome, Some, None, OnOk};
ghost use Rattle.core_data.specs.Found.{no_reads};
ghost use Rattle.core_data.specs.Noted.{noted};
ghost use Rattle.core_data.specs.Columns.{Columns, columns, put, put_at};
ghost use Rattle.core_data.specs.declared.act.Act.TheVariants.{TookTask, Renewed};
ghost use Rattle.core_data.specs.declared.values.TaskVal.{TaskVal};
ghost use Rattle.core_kinds.specs.Steps.{fresh, waking};
ghost use Rattle.core_kinds.specs.Locks.{MayTakeTask, take_task, MayGiveTask, give_task, MayTakeQueue, take_queue};
ghost use Rattle.core_kinds.specs.Locks.{unseen, MayTakeWorks, take_works, MayGiveWorks, give_works, MayTakeWait};
ghost use Rattle.core_kinds.specs.Locks.{take_wait, IsKept, IsSettled};

use crate::common::is_of_shape;
use core_data::{Act, Core, TaskReads, TaskVal, TaskWords, WorksVal};
use handoff_data::{CondNo, CpuNo, NoMemory, SeatNo, State, TaskNo};
use step_stores::{
    conds, cpus, has_queue, has_wait, has_works, hold_queue, hold_task, hold_wait, hold_works,
    note, put_lock, put_queue_lock, put_seen, put_val, put_wait_lock, put_works, put_works_lock,
    queue_lock, release_task, release_works, seats, set_reads, take_queue as take_queue_val,
    take_wait as take_wait_val, take_works as take_works_val, task_out, task_words, wait_lock,
    works_lock,
};

/// Whether seat s may take the lock of task t: the lock is free.
pub fn may_take_task(core: &Core, s: SeatNo, t: TaskNo) -> bool
    ensures { IsTrue result ↔ MayTakeTask (columns core.now) s t }
{
    if !is_of_shape(core, s, t) {
        return false;
    }
    let words = task_words(core, t);
    words.lock.is_none() && words.val.is_some()
}

/// Moves the value of the lock of task t to the seat.
fn move_val_out(core: &mut Core, s: SeatNo, t: TaskNo) -> Result<(), NoMemory>
    requires { MayTakeTask (columns core.old) s t }
    ensures { OnOk result (columns core.new ≡ record (columns core.old) {
      lock = put (columns core.old).lock t (Some s);
      val = put (columns core.old).val t None;
      task_held = put_at (columns core.old).task_held s t ((columns core.old).val t);
    }) }
{
    let val = task_words(core, t).val.unwrap();
    put_lock(core, t, Some(s));
    put_val(core, t, None);
    hold_task(core, s, t, val)?;
    Ok(())
}

/// Begins to read task t anew.
fn begin_reads(core: &mut Core, s: SeatNo, t: TaskNo) -> Result<(), NoMemory>
    requires { s < (columns core.old).seats }
    ensures { OnOk result
        (columns core.new
        ≡ noted
        (noted (record (columns core.old) { last_reads = put_at (columns core.old).last_reads s t (no_reads t) }) s
        (TookTask t)) s (Renewed t)) }
{
    let nothing = TaskReads {
        t,
        state: None,
        rq: None,
        busy: None,
        number: None,
        cpu: None,
    };
    set_reads(core, s, nothing)?;
    note(core, s, Act::TookTask { t })?;
    note(core, s, Act::Renewed { t })?;
    Ok(())
}

/// Takes the lock of task t, with its value. Answers `NoMemory` where memory runs out.
pub fn take_task(core: &mut Core, s: SeatNo, t: TaskNo) -> Result<(), NoMemory>
    requires { MayTakeTask (columns core.old) s t }
    ensures { OnOk result (columns core.new ≡ take_task (columns core.old) s t) }
{
    move_val_out(core, s, t)?;
    begin_reads(core, s, t)?;
    Ok(())
}

/// Whether seat s may give the lock of task t with this value.
pub fn may_give_task(
    core: &Core,
    s: SeatNo,
    t: TaskNo,
    val: TaskVal,
    stood: bool,
    done: bool,
) -> bool
    ensures { IsTrue result ↔ MayGiveTask (columns core.now) s t val stood done }
{
    if !is_of_shape(core, s, t) || stood || done {
        return false;
    }
    let words = task_words(core, t);
    words.lock == Some(s)
        && is_settled(words)
        && is_fresh_if_new(words)
        && is_given_as_taken(core, s, t, val)
        && (val.wake_cpu as usize) < cpus(core)
        && (val.dest as usize) < cpus(core)
}

/// Whether a task isn't half way to a queue.
fn is_settled(words: TaskWords) -> bool
    ensures { IsTrue result ↔ ((words.on_rq ≢ 2) × ((words.on_rq ≢ 0) ⊎ (words.state ≢ waking))) }
{
    words.on_rq != 2 && (words.on_rq != 0 || words.state != State::TASK_WAKING)
}

/// Whether a task that was never started has the state TASK_NEW.
fn is_fresh_if_new(words: TaskWords) -> bool
    ensures { IsTrue result ↔ (words.changes ≡ 0 → words.state ≡ fresh) }
{
    words.changes != 0 || words.state == State::TASK_NEW
}

/// Whether the seat has the value out, and gives it as it was taken but for the processors that it names.
fn is_given_as_taken(core: &Core, s: SeatNo, t: TaskNo, val: TaskVal) -> bool
    requires { s < (columns core.now).seats }
    ensures { IsTrue result ↔ (((taken : TaskVal) → (columns core.now).task_held s t ≡ Some taken → IsKept taken val)
        × IsSome ((columns core.now).task_held s t)) }
{
    match task_out(core, s, t) {
        Some(taken) => is_kept(taken, val),
        None => false,
    }
}

/// Gives the lock of task t, and puts its value home.
pub fn give_task(core: &mut Core, s: SeatNo, t: TaskNo, val: TaskVal)
    requires { (s < (columns core.old).seats) × (t < (columns core.old).tasks) }
    ensures { columns core.new ≡ give_task (columns core.old) s t val }
{
    put_lock(core, t, None);
    put_val(core, t, Some(val));
    release_task(core, s, t);
}

/// Gives the lock of the works of processor c, and puts the works home.
pub fn give_works(core: &mut Core, s: SeatNo, c: CpuNo, val: WorksVal)
    requires { (s < (columns core.old).seats) × (c < (columns core.old).cpus) }
    ensures { columns core.new ≡ give_works (columns core.old) s c val }
{
    put_works_lock(core, c, None);
    put_works(core, c, val);
    release_works(core, s, c);
}

/// Whether a value leaves as they were taken the mask, its number, the narrowing, the pending record and the
/// flag of a stop work.
fn is_kept(taken: TaskVal, given: TaskVal) -> bool
    ensures { IsTrue result ↔ IsKept taken given }
{
    given.mask == taken.mask
        && given.r == taken.r
        && given.narrowed == taken.narrowed
        && given.pending == taken.pending
        && given.stop_queued == taken.stop_queued
}

/// Whether seat s may take the lock of the queue of processor c: the lock is free.
pub fn may_take_queue(core: &Core, s: SeatNo, c: CpuNo) -> bool
    ensures { IsTrue result ↔ MayTakeQueue (columns core.now) s c }
{
    if (s as usize) >= seats(core) || (c as usize) >= cpus(core) {
        return false;
    }
    queue_lock(core, c).is_none() && has_queue(core, c)
}

/// Whether seat s may take the lock of the works of processor c: the lock is free.
pub fn may_take_works(core: &Core, s: SeatNo, c: CpuNo) -> bool
    ensures { IsTrue result ↔ MayTakeWorks (columns core.now) s c }
{
    if (s as usize) >= seats(core) || (c as usize) >= cpus(core) {
        return false;
    }
    works_lock(core, c).is_none() && has_works(core, c)
}

/// Whether seat s may take the lock of the wait queue of condition k: the lock is free.
pub fn may_take_wait(core: &Core, s: SeatNo, k: CondNo) -> bool
    ensures { IsTrue result ↔ MayTakeWait (columns core.now) s k }
{
    if (s as usize) >= seats(core) || (k as usize) >= conds(core) {
        return false;
    }
    wait_lock(core, k).is_none() && has_wait(core, k)
}

/// Forgets the state that was read under the lock of the own queue.
pub fn unsee(core: &mut Core, s: SeatNo, c: CpuNo)
    requires { s < (columns core.old).seats }
    ensures { columns core.new ≡ unseen (columns core.old) s c }
{
    if s == c {
        put_seen(core, s, None);
    }
}

/// Takes the lock of the queue of processor c, with the queue. Answers `NoMemory` where memory runs out.
pub fn take_queue(core: &mut Core, s: SeatNo, c: CpuNo) -> Result<(), NoMemory>
    requires { MayTakeQueue (columns core.old) s c }
    ensures { OnOk result (columns core.new ≡ take_queue (columns core.old) s c) }
{
    put_queue_lock(core, c, Some(s));
    let val = take_queue_val(core, c).unwrap();
    hold_queue(core, s, c, val)?;
    unsee(core, s, c);
    note(core, s, Act::TookQueue { c })?;
    Ok(())
}

/// Takes the lock of the works of processor c, with the works. Answers `NoMemory` where memory runs out.
pub fn take_works(core: &mut Core, s: SeatNo, c: CpuNo) -> Result<(), NoMemory>
    requires { MayTakeWorks (columns core.old) s c }
    ensures { OnOk result (columns core.new ≡ take_works (columns core.old) s c) }
{
    put_works_lock(core, c, Some(s));
    let val = take_works_val(core, c).unwrap();
    hold_works(core, s, c, val)?;
    Ok(())
}

/// Takes the lock of the wait queue of condition k, with its entries. Answers `NoMemory` where memory runs out.
pub fn take_wait(core: &mut Core, s: SeatNo, k: CondNo) -> Result<(), NoMemory>
    requires { MayTakeWait (columns core.old) s k }
    ensures { OnOk result (columns core.new ≡ take_wait (columns core.old) s k) }
{
    put_wait_lock(core, k, Some(s));
    let val = take_wait_val(core, k).unwrap();
    hold_wait(core, s, k, val)?;
    note(core, s, Act::TookWait { k })?;
    Ok(())
}
