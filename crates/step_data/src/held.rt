//! The lock values and the body that a seat has out: how they are read, added and dropped.

ghost use Rattle.std.specs.Prelude.{◌≡◌, ◌++◌, ◌∷◌, [], OnOk};
ghost use Rattle.std.specs.List.{filter};
ghost use Rattle.core_data.specs.Holding.{Holding, is_other_task, is_other_queue, is_other_works, is_other_wait};

use core_data::{
    Held, HeldQueue, HeldTask, HeldWait, HeldWorks, QueueVal, TaskVal, WaitVal, WorksVal,
};
use handoff_data::{CondNo, CpuNo, NoMemory, TaskNo};

/// The values of task locks.
pub fn tasks(held: &Held) -> &[HeldTask]
    ensures { result.now ≡ held.now.tasks }
{
    held.tasks.as_slice()
}

/// The values of queue locks.
pub fn queues(held: &Held) -> &[HeldQueue]
    ensures { result.now ≡ held.now.queues }
{
    held.queues.as_slice()
}

/// The values of works locks.
pub fn works(held: &Held) -> &[HeldWorks]
    ensures { result.now ≡ held.now.works }
{
    held.works.as_slice()
}

/// The values of wait locks.
pub fn waits(held: &Held) -> &[HeldWait]
    ensures { result.now ≡ held.now.waits }
{
    held.waits.as_slice()
}

/// The task whose body is out.
pub fn body(held: &Held) -> Option<TaskNo>
    ensures { result ≡ held.now.body }
{
    held.body
}

/// Sets the task whose body is out.
pub fn set_body(held: &mut Held, t: Option<TaskNo>)
    ensures { held.new ≡ record held.old { body = t } }
{
    held.body = t;
}

/// Adds the value of the lock of task `t`, as it was taken. Answers `NoMemory` where memory runs out.
pub fn hold_task(held: &mut Held, t: TaskNo, val: TaskVal) -> Result<(), NoMemory>
    ensures { OnOk result (held.new ≡ record held.old { tasks = held.old.tasks ++ record { t = t; val = val } ∷ [] }) }
{
    held.tasks.push(HeldTask { t, val })?;
    Ok(())
}

/// Drops the values of the lock of task `t`.
pub fn release_task(held: &mut Held, t: TaskNo)
    ensures { held.new ≡ record held.old { tasks = filter (is_other_task t) held.old.tasks } }
{
    without_task(&mut held.tasks, t);
}

/// Adds the value of the queue's lock of processor `c`, as it was taken. Answers `NoMemory` where memory runs out.
pub fn hold_queue(held: &mut Held, c: CpuNo, val: QueueVal) -> Result<(), NoMemory>
    ensures { OnOk result (held.new ≡ record held.old {
      queues = held.old.queues ++ record { c = c; val = val }
          ∷ [];
    }) }
{
    held.queues.push(HeldQueue { c, val })?;
    Ok(())
}

/// Drops the values of the queue's lock of processor `c`.
pub fn release_queue(held: &mut Held, c: CpuNo)
    ensures { held.new ≡ record held.old { queues = filter (is_other_queue c) held.old.queues } }
{
    without_queue(&mut held.queues, c);
}

/// Adds the value of the works' lock of processor `c`, as it was taken. Answers `NoMemory` where memory runs out.
pub fn hold_works(held: &mut Held, c: CpuNo, val: WorksVal) -> Result<(), NoMemory>
    ensures { OnOk result (held.new ≡ record held.old { works = held.old.works ++ record { c = c; val = val } ∷ [] }) }
{
    held.works.push(HeldWorks { c, val })?;
    Ok(())
}

/// Drops the values of the works' lock of processor `c`.
pub fn release_works(held: &mut Held, c: CpuNo)
    ensures { held.new ≡ record held.old { works = filter (is_other_works c) held.old.works } }
{
    without_works(&mut held.works, c);
}

/// Adds the value of the wait queue's lock of condition `k`, as it was taken. Answers `NoMemory` where memory runs out.
pub fn hold_wait(held: &mut Held, k: CondNo, val: WaitVal) -> Result<(), NoMemory>
    ensures { OnOk result (held.new ≡ record held.old { waits = held.old.waits ++ record { k = k; val = val } ∷ [] }) }
{
    held.waits.push(HeldWait { k, val })?;
    Ok(())
}

/// Drops the values of the wait queue's lock of condition `k`.
pub fn release_wait(held: &mut Held, k: CondNo)
    ensures { held.new ≡ record held.old { waits = filter (is_other_wait k) held.old.waits } }
{
    without_wait(&mut held.waits, k);
}

fn without_task(held: &mut Vec<HeldTask>, t: TaskNo)
    ensures { held.new.items ≡ filter (is_other_task t) held.old.items }
{
    held.retain(|h| h.t != t);
}

fn without_queue(held: &mut Vec<HeldQueue>, c: CpuNo)
    ensures { held.new.items ≡ filter (is_other_queue c) held.old.items }
{
    held.retain(|h| h.c != c);
}

fn without_works(held: &mut Vec<HeldWorks>, c: CpuNo)
    ensures { held.new.items ≡ filter (is_other_works c) held.old.items }
{
    held.retain(|h| h.c != c);
}

fn without_wait(held: &mut Vec<HeldWait>, k: CondNo)
    ensures { held.new.items ≡ filter (is_other_wait k) held.old.items }
{
    held.retain(|h| h.k != k);
}
