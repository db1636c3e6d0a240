//! What locks guard, while they are held: it is lent where it lies.
//!
//! | Token | Made by | Ended by | So that nobody forgets to |
//! |---|---|---|---|
//! | `TaskGuard` | `lock_task` | `give`, `give_queued` | give the lock, with T settled |
//! | `QueueGuard` | `lock_queue` | `give`, `give_woken` and its like | give the lock, with a queue that fits |
//! | `WorksGuard` | `lock_works` | `give` | give the lock, with the works as they were |
//! | `WaitGuard` | `lock_wait` | `give`, `give_entered` | give the lock, with the entries as they now are |
//!
//! None has a `Drop`: one that is let go is refused where it is let go.
ghost use Rattle.std.specs.Prelude.{◌≡◌};
ghost use Rattle.std.specs.Borrow.{sem};

use crate::wk::Wk;
use handoff_data::{CondNo, CpuNo, TaskNo};
use std::marker::Model;
use word_steps::{QueueBox, TaskBox, WaitQueue, WorksBox};
use word_table::{Kept, Taken};

/// What a task's lock guards, while the lock is held. It has no `Drop`, so it ends in `give`. Contracts see its table,
/// the task, and the value under the lock.
pub struct TaskGuard<B> {
    pub(crate) taken: Taken<B>,
    pub(crate) task: TaskNo,
}

impl<B> Model for TaskGuard<B> {
    ghost use Rattle.task_words.specs.Guards.{TaskGuardView};

    ghost Value = { TaskGuardView };

    ghost use Rattle.task_words.specs.Guards.{task_guard_view, IsTaskGuard};

    ghost view = { λ g. task_guard_view g.taken g.task };

    ghost invariant = { λ g. IsTaskGuard g.taken g.task };
}

impl<B: Kept> TaskGuard<B> {
    ghost use Rattle.task_words.specs.Lending.{LendsTask};

    /// The task.
    pub fn task(&self) -> TaskNo
        ensures { result ≡ self.now.task }
    {
        self.task
    }

    /// The value under the lock.
    pub fn val_mut<'a>(&'a mut self, wk: &'a Wk<B>) -> &'a mut TaskBox
        requires table { self.old.of ≡ wk.now.name }
        ensures* writes_back { sem 𝓛 (LendsTask B.row self.entry result) }
        ensures value { result.now ≡ self.old.val }
    {
        let taken = &mut self.taken;
        taken.task_mut(&wk.words)
    }

    /// Changes the processor that a wake-up tries first.
    pub fn set_wake_cpu(&mut self, wk: &Wk<B>, c: CpuNo)
        requires table { self.old.of ≡ wk.now.name }
        ensures table { self.new.of ≡ self.old.of }
        ensures task { self.new.task ≡ self.old.task }
        ensures value { self.new.val ≡ record self.old.val { wake_cpu = c } }
    {
        self.val_mut(wk).set_wake_cpu(c);
    }
}

/// What the lock of a processor's queue guards, while it is held; it ends in `give`.
pub struct QueueGuard<B> {
    pub(crate) taken: Taken<B>,
    pub(crate) cpu: CpuNo,
}

impl<B> Model for QueueGuard<B> {
    ghost use Rattle.task_words.specs.Guards.{QueueGuardView};

    ghost Value = { QueueGuardView };

    ghost use Rattle.task_words.specs.Guards.{queue_guard_view, IsQueueGuard};

    ghost view = { λ g. queue_guard_view g.taken g.cpu };

    ghost invariant = { λ g. IsQueueGuard g.taken g.cpu };
}

impl<B: Kept> QueueGuard<B> {
    ghost use Rattle.task_words.specs.Lending.{LendsQueue};

    /// The processor.
    pub fn cpu(&self) -> CpuNo
        ensures { result ≡ self.now.cpu }
    {
        self.cpu
    }

    /// The queue under the lock.
    pub fn val_mut<'a>(&'a mut self, wk: &'a Wk<B>) -> &'a mut QueueBox
        requires table { self.old.of ≡ wk.now.name }
        ensures* writes_back { sem 𝓛 (LendsQueue B.row self.entry result) }
        ensures value { result.now ≡ self.old.val }
    {
        let taken = &mut self.taken;
        taken.queue_mut(&wk.words)
    }
}

/// What the lock of a processor's works guards, while it is held; it ends in `give`.
pub struct WorksGuard<B> {
    pub(crate) taken: Taken<B>,
    pub(crate) cpu: CpuNo,
}

impl<B> Model for WorksGuard<B> {
    ghost use Rattle.task_words.specs.Guards.{WorksGuardView};

    ghost Value = { WorksGuardView };

    ghost use Rattle.task_words.specs.Guards.{works_guard_view, IsWorksGuard};

    ghost view = { λ g. works_guard_view g.taken g.cpu };

    ghost invariant = { λ g. IsWorksGuard g.taken g.cpu };
}

impl<B: Kept> WorksGuard<B> {
    ghost use Rattle.task_words.specs.Lending.{LendsWorks};

    /// The processor.
    pub fn cpu(&self) -> CpuNo
        ensures { result ≡ self.now.cpu }
    {
        self.cpu
    }

    /// The works under the lock.
    pub fn val_mut<'a>(&'a mut self, wk: &'a Wk<B>) -> &'a mut WorksBox
        requires table { self.old.of ≡ wk.now.name }
        ensures* writes_back { sem 𝓛 (LendsWorks B.row self.entry result) }
        ensures value { result.now ≡ self.old.val }
    {
        let taken = &mut self.taken;
        taken.works_mut(&wk.words)
    }
}

/// What the lock of a condition's wait queue guards, while it is held; it ends in `give`.
pub struct WaitGuard<B> {
    pub(crate) taken: Taken<B>,
    pub(crate) cond: CondNo,
}

impl<B> Model for WaitGuard<B> {
    ghost use Rattle.task_words.specs.Guards.{WaitGuardView};

    ghost Value = { WaitGuardView };

    ghost use Rattle.task_words.specs.Guards.{wait_guard_view, IsWaitGuard};

    ghost view = { λ g. wait_guard_view g.taken g.cond };

    ghost invariant = { λ g. IsWaitGuard g.taken g.cond };
}

impl<B: Kept> WaitGuard<B> {
    ghost use Rattle.task_words.specs.Lending.{LendsWait};

    /// The condition.
    pub fn cond(&self) -> CondNo
        ensures { result ≡ self.now.cond }
    {
        self.cond
    }

    /// The entries under the lock.
    pub fn val_mut<'a>(&'a mut self, wk: &'a Wk<B>) -> &'a mut WaitQueue
        requires table { self.old.of ≡ wk.now.name }
        ensures* writes_back { sem 𝓛 (LendsWait B.row self.entry result) }
        ensures value { result.now ≡ self.old.val }
    {
        let taken = &mut self.taken;
        taken.wait_mut(&wk.words)
    }
}
