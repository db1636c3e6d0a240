//! What the locks of tasks and queues guard, each in a box of its own: a lock that is taken, or given, moves no more
//! than its address.
ghost use Rattle.std.specs.Prelude.{◌≡◌};

use core_data::{QueueVal, TaskVal};
use handoff_data::{CpuNo, NoMemory, TaskNo};
use std::alloc::Global;
use std::marker::Model;

/// What a task's lock guards on the shared table. Contracts see the value itself.
#[derive(Drop)]
pub struct TaskBox {
    inner: Box<TaskVal>,
}

impl Model for TaskBox {
    ghost use Rattle.core_data.specs.declared.values.TaskVal.{TaskVal};

    ghost Value = { TaskVal };

    ghost view = { λ t. t.inner.value };
}

impl TaskBox {
    ghost use Rattle.std.specs.Prelude.{◌≡◌, IfOk};

    /// The value in a box. Answers `NoMemory` where memory runs out.
    pub fn new(alloc: Global, value: TaskVal) -> Result<TaskBox, NoMemory>
        ensures { IfOk result (λ t. t ≡ value) }
    {
        let inner = Box::new(alloc, value)?;
        Ok(TaskBox { inner })
    }

    /// The value.
    pub fn get(&self) -> &TaskVal
        ensures { result.now ≡ self.now }
    {
        &*self.inner
    }

    /// Changes the processor that a wake-up tries first.
    pub fn set_wake_cpu(&mut self, c: CpuNo)
        ensures { self.new ≡ record self.old { wake_cpu = c } }
    {
        self.inner.wake_cpu = c;
    }
}

/// What the lock of a processor's queue guards on the shared table. Contracts see the `Queue`.
#[derive(Drop)]
pub struct QueueBox {
    inner: Box<QueueVal>,
}

impl Model for QueueBox {
    ghost use Rattle.core_data.specs.Queue.{Queue};

    ghost Value = { Queue };

    ghost view = { λ q. q.inner.value };
}

impl QueueBox {
    ghost use Rattle.std.specs.Prelude.{◌≡◌, ◌<◌, ◌++◌, ◌∷◌, [], ◌↔◌, None, length, IsTrue, IfOk, MatchOption};
    ghost use Rattle.std.specs.List.{filter};
    ghost use Rattle.core_data.specs.Queue.{times_in, is_other};

    /// An empty queue in a box. Answers `NoMemory` where memory runs out.
    pub fn new(alloc: Global) -> Result<QueueBox, NoMemory>
        ensures { IfOk result (λ q. q ≡ record { waiting = []; cur = None; left = None }) }
    {
        let queue = QueueVal::new(alloc)?;
        let inner = Box::new(alloc, queue)?;
        Ok(QueueBox { inner })
    }

    /// The queue.
    pub fn get(&self) -> &QueueVal
        ensures { result.now ≡ self.now }
    {
        &*self.inner
    }

    /// Puts a task at the back. It isn't waiting there yet.
    pub fn push(&mut self, t: TaskNo)
        requires absent { times_in self.old.waiting t ≡ 0 }
        requires room { length self.old.waiting < 200 }
        ensures { self.new ≡ record self.old { waiting = self.old.waiting ++ t ∷ [] } }
    {
        self.inner.push(t);
    }

    /// Takes the task at the front out, if there is one.
    pub fn pop(&mut self) -> Option<TaskNo>
        ensures { MatchOption result ((self.old.waiting ≡ []) × (self.new ≡ self.old))
            (λ t. (self.old.waiting ≡ t ∷ self.new.waiting)
            × (self.new ≡ record self.old { waiting = self.new.waiting })) }
    {
        self.inner.pop()
    }

    /// Takes a task out of those that wait, wherever it stands; whether it was there.
    pub fn remove(&mut self, t: TaskNo) -> bool
        ensures found { IsTrue result ↔ (times_in self.old.waiting t ≡ 1) }
        ensures rest { self.new ≡ record self.old { waiting = filter (is_other t) self.old.waiting } }
    {
        self.inner.remove(t)
    }

    /// Changes the task that runs.
    pub fn set_cur(&mut self, cur: Option<TaskNo>)
        ensures { self.new ≡ record self.old { cur = cur } }
    {
        self.inner.cur = cur;
    }

    /// Changes the task that was switched out last.
    pub fn set_left(&mut self, left: Option<TaskNo>)
        ensures { self.new ≡ record self.old { left = left } }
    {
        self.inner.left = left;
    }
}
