//! The locks of a processor and the values under them, read and stored one at a time.

#![tactic(auto, unfolding(core_data::specs::Columns::columns))]

ghost use Rattle.std.specs.Prelude.{◌≡◌, ◌<◌, Some, None, is_some};
ghost use Rattle.core_data.specs.Columns.{Columns, columns, put};

use core_data::{Core, QueueVal, WorksVal};
use handoff_data::{CpuNo, SeatNo};

/// Stores the lock word of the queue of processor c.
pub fn put_queue_lock(core: &mut Core, c: CpuNo, lock: Option<SeatNo>)
    requires { c < (columns core.old).cpus }
    ensures { columns core.new ≡ record (columns core.old) { queue_lock = put (columns core.old).queue_lock c lock } }
{
    let row = &mut core.cpus[c as usize];
    row.queue_lock = lock;
}

/// Puts the queue of processor c home.
pub fn put_queue(core: &mut Core, c: CpuNo, val: QueueVal)
    requires { c < (columns core.old).cpus }
    ensures { columns core.new ≡ record (columns core.old) { queue = put (columns core.old).queue c (Some val) } }
{
    let row = &mut core.cpus[c as usize];
    row.queue = Some(val);
}

/// Stores the lock word of the works of processor c.
pub fn put_works_lock(core: &mut Core, c: CpuNo, lock: Option<SeatNo>)
    requires { c < (columns core.old).cpus }
    ensures { columns core.new ≡ record (columns core.old) { works_lock = put (columns core.old).works_lock c lock } }
{
    let row = &mut core.cpus[c as usize];
    row.works_lock = lock;
}

/// Puts the works of processor c home.
pub fn put_works(core: &mut Core, c: CpuNo, val: WorksVal)
    requires { c < (columns core.old).cpus }
    ensures { columns core.new ≡ record (columns core.old) { works = put (columns core.old).works c (Some val) } }
{
    let row = &mut core.cpus[c as usize];
    row.works = Some(val);
}

/// Takes the queue of processor c out, if it is home.
pub fn take_queue(core: &mut Core, c: CpuNo) -> Option<QueueVal>
    requires { c < (columns core.old).cpus }
    ensures value { result ≡ (columns core.old).queue c }
    ensures after { columns core.new ≡ record (columns core.old) { queue = put (columns core.old).queue c None } }
{
    let row = &mut core.cpus[c as usize];
    row.queue.take()
}

/// Whether the queue of processor c is home.
pub fn has_queue(core: &Core, c: CpuNo) -> bool
    requires { c < (columns core.now).cpus }
    ensures { result ≡ is_some ((columns core.now).queue c) }
{
    let row = &core.cpus[c as usize];
    row.queue.is_some()
}

/// Takes the works of processor c out, if it is home.
pub fn take_works(core: &mut Core, c: CpuNo) -> Option<WorksVal>
    requires { c < (columns core.old).cpus }
    ensures value { result ≡ (columns core.old).works c }
    ensures after { columns core.new ≡ record (columns core.old) { works = put (columns core.old).works c None } }
{
    let row = &mut core.cpus[c as usize];
    row.works.take()
}

/// Whether the works of processor c is home.
pub fn has_works(core: &Core, c: CpuNo) -> bool
    requires { c < (columns core.now).cpus }
    ensures { result ≡ is_some ((columns core.now).works c) }
{
    let row = &core.cpus[c as usize];
    row.works.is_some()
}

/// The lock word of the queue of processor c.
pub fn queue_lock(core: &Core, c: CpuNo) -> Option<SeatNo>
    requires { c < (columns core.now).cpus }
    ensures { result ≡ (columns core.now).queue_lock c }
{
    let row = &core.cpus[c as usize];
    row.queue_lock
}

/// The lock word of the works of processor c.
pub fn works_lock(core: &Core, c: CpuNo) -> Option<SeatNo>
    requires { c < (columns core.now).cpus }
    ensures { result ≡ (columns core.now).works_lock c }
{
    let row = &core.cpus[c as usize];
    row.works_lock
}
