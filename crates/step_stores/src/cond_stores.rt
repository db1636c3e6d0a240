//! The counter of a condition, the lock of its wait queue, and the value under it.

#![tactic(auto, unfolding(core_data::specs::Columns::columns))]

ghost use Rattle.std.specs.Prelude.{◌≡◌, ◌<◌, Some, None, is_some};
ghost use Rattle.core_data.specs.Columns.{Columns, columns, put};

use core_data::{Core, WaitVal};
use handoff_data::{CondNo, SeatNo};

/// Stores the counter of condition k.
pub fn put_cond(core: &mut Core, k: CondNo, cond: u64)
    requires { k < (columns core.old).conds }
    ensures { columns core.new ≡ record (columns core.old) { cond = put (columns core.old).cond k cond } }
{
    let row = &mut core.conds[k as usize];
    row.cond = cond;
}

/// Stores the lock word of the wait queue of condition k.
pub fn put_wait_lock(core: &mut Core, k: CondNo, lock: Option<SeatNo>)
    requires { k < (columns core.old).conds }
    ensures { columns core.new ≡ record (columns core.old) { wait_lock = put (columns core.old).wait_lock k lock } }
{
    let row = &mut core.conds[k as usize];
    row.wait_lock = lock;
}

/// Puts the wait queue of condition k home.
pub fn put_wait(core: &mut Core, k: CondNo, val: WaitVal)
    requires { k < (columns core.old).conds }
    ensures { columns core.new ≡ record (columns core.old) { wait = put (columns core.old).wait k (Some val) } }
{
    let row = &mut core.conds[k as usize];
    row.wait = Some(val);
}

/// Takes the wait queue of condition k out, if it is home.
pub fn take_wait(core: &mut Core, k: CondNo) -> Option<WaitVal>
    requires { k < (columns core.old).conds }
    ensures value { result ≡ (columns core.old).wait k }
    ensures after { columns core.new ≡ record (columns core.old) { wait = put (columns core.old).wait k None } }
{
    let row = &mut core.conds[k as usize];
    row.wait.take()
}

/// Whether the wait queue of condition k is home.
pub fn has_wait(core: &Core, k: CondNo) -> bool
    requires { k < (columns core.now).conds }
    ensures { result ≡ is_some ((columns core.now).wait k) }
{
    let row = &core.conds[k as usize];
    row.wait.is_some()
}

/// The counter of condition k.
pub fn cond(core: &Core, k: CondNo) -> u64
    requires { k < (columns core.now).conds }
    ensures { result ≡ (columns core.now).cond k }
{
    let row = &core.conds[k as usize];
    row.cond
}

/// The lock word of the wait queue of condition k.
pub fn wait_lock(core: &Core, k: CondNo) -> Option<SeatNo>
    requires { k < (columns core.now).conds }
    ensures { result ≡ (columns core.now).wait_lock k }
{
    let row = &core.conds[k as usize];
    row.wait_lock
}
