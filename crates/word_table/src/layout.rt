//! Where words and slots lie: word n of column c is word `STRIDE` n + c, slot n of column k is slot `SLOTS` n + k.
ghost use Rattle.std.specs.Prelude.{◌≡◌};
ghost use Rattle.handoff_data.specs.Shape.{IsShape};
ghost use Rattle.word_table.specs.Layout.{rows_of};

use handoff_data::Shape;

pub(crate) const STRIDE: usize = 64;

pub(crate) const SLOTS: usize = 6;
/// The column of a body's slot.
pub(crate) const BODY_SLOT: usize = 1;

/// The column of a task's lock.
pub(crate) const LOCK: usize = 8;
/// The column of a task's body.
pub(crate) const BODY: usize = 9;
/// The column of a task's state.
pub const STATE: usize = 10;
/// The column of a task's queue word, `on_rq`.
pub const RQ: usize = 11;
/// The column of a task's busy word, `on_cpu`.
pub const BUSY: usize = 12;
/// The column of a task's processor.
pub const CPU: usize = 13;
/// The column of a task's migrate-disable level.
pub const COUNT: usize = 14;
/// The column of the lock of a processor's queue.
pub(crate) const QUEUE_LOCK: usize = 24;
/// The column of the lock of a processor's works.
pub(crate) const WORKS_LOCK: usize = 25;
/// The column of a processor's epoch, which is odd while it is active.
pub(crate) const ACTIVE: usize = 30;
/// The column of the lock of a condition's wait queue.
pub(crate) const WAIT_LOCK: usize = 40;
/// The column of a condition.
pub const COND: usize = 41;

/// How many numbers have words and slots: as many as there are tasks, conditions or seats.
pub(crate) fn rows_of(shape: &Shape) -> u32
    requires { IsShape shape.now }
    ensures { result ≡ rows_of shape.now }
{
    let most = shape.tasks.max(shape.conds);
    most.max(shape.cpus + shape.agents)
}
