//! The words that a core has for each task, processor and condition, and what their locks guard.
//!
//! word                  value                                         stored by, under
//! state                 the bits of the task's state                  its seat; others under its lock or its queue's
//! on_rq, changes        0 off, 1 queued, 2 moving; number of changes  the holder of the queue's lock
//! on_cpu, runs          whether the task runs; number of changes      the seat of its processor
//! cpu                   the task's processor                          the holder of the task's lock
//! count                 its migrate-disable level                     its own seat
//! hint                  number of runnable tasks                      the holder of the queue's lock
//! pinned                number of migration-disabled tasks            the processor's seat
//! phase, active, epoch  where the processor stands in an outage       the outage's agent, the processor's seat
//! cond                  the condition's counter, which wraps          any seat
//!
//! A lock word is the seat that holds the lock. In the shared table `on_rq` and `changes`, `on_cpu` and `runs`,
//! `active` and `epoch` are one word each.

use crate::queue::QueueVal;
use crate::values::{ListVal, TaskVal, WaitVal, WorksVal};
use handoff_data::{CpuNo, SeatNo, State};

/// The words of a task, after Linux's `struct task_struct` (`include/linux/sched.h`), its lock, the value under it, and
/// its body.
#[derive(Clone, Copy)]
pub struct TaskWords {
    pub state: State,
    /// 0 off its queue, 1 queued, 2 on its way to another queue.
    pub on_rq: u8,
    /// How often `on_rq` was stored.
    pub changes: u64,
    /// The busy word: whether the task runs, or was given up and isn't switched out yet.
    pub on_cpu: bool,
    /// How often `on_cpu` was stored.
    pub runs: u64,
    pub cpu: CpuNo,
    /// The migrate-disable level.
    pub count: u32,
    pub lock: Option<SeatNo>,
    /// None while the value is out.
    pub val: Option<TaskVal>,
    /// Whether the body is home.
    pub body: bool,
    /// Whether the body had ended as it was last put home.
    pub ended: bool,
}

/// Where a processor stands in an outage, after the states of Linux 6.6 `kernel/cpu.c`.
#[derive(Clone, Copy)]
pub enum Phase {
    Live,
    Leaving,
    Swept,
    Dead,
    Rising,
}

/// The words of a processor, after Linux's `struct rq` (`kernel/sched/sched.h`), its locks, and the values under them.
#[derive(Drop)]
pub struct CpuWords {
    pub hint: u32,
    pub pinned: u32,
    pub phase: Phase,
    pub active: bool,
    pub epoch: u64,
    pub queue_lock: Option<SeatNo>,
    pub queue: Option<QueueVal>,
    pub list_lock: Option<SeatNo>,
    pub list: Option<ListVal>,
    pub works_lock: Option<SeatNo>,
    pub works: Option<WorksVal>,
}

/// The counter of a condition, the lock of its wait queue, and the value under it.
#[derive(Drop)]
pub struct CondWords {
    pub cond: u64,
    pub wait_lock: Option<SeatNo>,
    pub wait: Option<WaitVal>,
}
