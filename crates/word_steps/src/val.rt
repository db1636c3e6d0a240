//! The values that locks guard, in one type.
ghost use Rattle.std.specs.Prelude.{◌≡◌};
ghost use Rattle.std.specs.Borrow.{sem};
ghost use Rattle.word_steps.specs.Lending.{LendsTask, LendsQueue, LendsWorks, LendsWait, IsTask, IsQueue, IsWorks};
ghost use Rattle.word_steps.specs.Lending.{IsWait};
ghost use Rattle.word_steps.specs.declared.val.Val.TheVariants as val;

use crate::boxes::{QueueBox, TaskBox};
use crate::wait::WaitQueue;
use crate::works::WorksBox;

/// The value that a lock guards; its kind is the lock's kind. A slot of the shared table and a record of a trace have
/// such a value.
#[derive(Drop)]
pub enum Val {
    /// What a task's lock guards.
    Task(TaskBox),
    /// What the lock of a processor's queue guards.
    Queue(QueueBox),
    /// What the lock of a processor's works guards.
    Works(WorksBox),
    /// What the lock of a condition's wait queue guards.
    Wait(WaitQueue),
}

impl Val {
    /// What a task's lock guards, where this is that.
    pub fn task_mut(&mut self) -> &mut TaskBox
        requires task { IsTask self.old }
        ensures* writes_back { sem 𝓛 (LendsTask self.entry result) }
        ensures value { self.old ≡ val.Task result.now }
    {
        match self {
            Val::Task(task) => task,
            _ => unreachable!(),
        }
    }

    /// What the lock of a processor's queue guards, where this is that.
    pub fn queue_mut(&mut self) -> &mut QueueBox
        requires queue { IsQueue self.old }
        ensures* writes_back { sem 𝓛 (LendsQueue self.entry result) }
        ensures value { self.old ≡ val.Queue result.now }
    {
        match self {
            Val::Queue(queue) => queue,
            _ => unreachable!(),
        }
    }

    /// What the lock of a processor's works guards, where this is that.
    pub fn works_mut(&mut self) -> &mut WorksBox
        requires works { IsWorks self.old }
        ensures* writes_back { sem 𝓛 (LendsWorks self.entry result) }
        ensures value { self.old ≡ val.Works result.now }
    {
        match self {
            Val::Works(works) => works,
            _ => unreachable!(),
        }
    }

    /// What the lock of a condition's wait queue guards, where this is that.
    pub fn wait_mut(&mut self) -> &mut WaitQueue
        requires wait { IsWait self.old }
        ensures* writes_back { sem 𝓛 (LendsWait self.entry result) }
        ensures value { self.old ≡ val.Wait result.now }
    {
        match self {
            Val::Wait(wait) => wait,
            _ => unreachable!(),
        }
    }
}
