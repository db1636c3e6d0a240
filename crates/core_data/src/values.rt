//! What each lock guards. The value of a queue's lock stands in a file of its own.

use handoff_data::{CpuMask, CpuNo, SeatNo, TaskNo};
use std::marker::Model;

/// What a task's lock guards, after the fields of Linux's `struct task_struct` (`include/linux/sched.h`) that
/// `p->pi_lock` and the affinity code guard.
#[derive(Clone, Copy)]
pub struct TaskVal {
    /// The affinity mask in force.
    pub mask: CpuMask,
    /// The number of that mask, from 0 for the opening one.
    pub r: u64,
    /// The one processor to which a migration-disabled task is narrowed while it is switched out.
    pub narrowed: Option<CpuNo>,
    /// The processor that a wake-up tries first.
    pub wake_cpu: CpuNo,
    /// The seat whose record the pending affinity request has.
    pub pending: Option<SeatNo>,
    /// Whether a stop work of the task is on its way.
    pub stop_queued: bool,
    /// The processor to which the pending request moves the task.
    pub dest: CpuNo,
}

/// One sleeper in a wait queue, after Linux's `struct wait_queue_entry` (`include/linux/wait.h`).
#[derive(Clone, Copy)]
pub struct WaitEntry {
    pub t: TaskNo,
    /// Whether a walk may stop behind it once its task is woken, as Linux's WQ_FLAG_EXCLUSIVE (`include/linux/wait.h`)
    /// says.
    pub exclusive: bool,
}

/// What a wait queue's lock guards: its entries, the head first. Contracts see that list.
#[derive(Drop)]
pub struct WaitVal {
    pub entries: Vec<WaitEntry>,
}

impl Model for WaitVal {
    ghost use Rattle.std.specs.Prelude.{List};
    ghost use Rattle.core_data.specs.declared.values.WaitEntry.{WaitEntry};

    ghost Value = { List WaitEntry };

    ghost view = { λ w. w.entries.items };
}

/// A stop work: the task to be moved, and the seat whose affinity record asks for it.
#[derive(Clone, Copy, PartialEq, Eq)]
pub struct WorkItem {
    pub t: TaskNo,
    pub rec: SeatNo,
}

/// What a stopper's lock guards: its works, the oldest first. Contracts see that list.
#[derive(Drop)]
pub struct WorksVal {
    pub items: Vec<WorkItem>,
}

impl Model for WorksVal {
    ghost use Rattle.std.specs.Prelude.{List};
    ghost use Rattle.core_data.specs.declared.values.WorkItem.{WorkItem};

    ghost Value = { List WorkItem };

    ghost view = { λ w. w.items.items };
}

/// What a remote list's lock guards: its tasks, the oldest first. Contracts see that list.
#[derive(Drop)]
pub struct ListVal {
    pub tasks: Vec<TaskNo>,
}

impl Model for ListVal {
    ghost use Rattle.std.specs.Prelude.{ℕ, List};

    ghost Value = { List ℕ };

    ghost view = { λ l. l.tasks.items };
}
