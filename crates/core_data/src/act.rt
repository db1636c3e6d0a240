use handoff_data::{CondNo, CpuNo, TaskNo};

/// A step of a seat that a later condition may look back at. A seat keeps the latest of each, oldest first;
/// what it may rely on is that one of them came after another: a task was passed since a wait queue's lock
/// was taken, or nothing was stored since a state was read.
#[derive(Clone, Copy, PartialEq, Eq)]
pub enum Act {
    /// It took the task's lock.
    TookTask { t: TaskNo },
    /// It took the task's lock or stored a word of the task: what it has read of the task holds no more.
    Renewed { t: TaskNo },
    /// It stored a word of the task.
    StoredWord { t: TaskNo },
    /// It read a state of the task with a mask that the state matches.
    Matched { t: TaskNo },
    /// After such a read, with nothing stored between, it read `on_rq` of the task as 0.
    SawOff { t: TaskNo },
    /// It stored TASK_WAKING as the task's state.
    Claimed { t: TaskNo },
    /// It read the task's busy word as clear.
    SawClear { t: TaskNo },
    /// It read a state of the task that isn't TASK_WAKING.
    SawRest { t: TaskNo },
    /// After that, with nothing stored between, it read `on_rq` as 0.
    SawRestOff { t: TaskNo },
    /// After that, with nothing stored between, it read the busy word as clear.
    SawRestIdle { t: TaskNo },
    /// It took the lock of the processor's queue.
    TookQueue { c: CpuNo },
    /// It stored 1 in `on_rq` of the task.
    Queued { t: TaskNo },
    /// It stored 0 or 2 in `on_rq` of the task.
    Dequeued { t: TaskNo },
    /// It set the task's busy word.
    Picked { t: TaskNo },
    /// It took the lock of the condition's wait queue.
    TookWait { k: CondNo },
    /// It stored the state of the task as its current task.
    OwnStored { t: TaskNo },
    /// It stored a sleep state so.
    Slept { t: TaskNo },
    /// It passed the task: it read a state that TASK_NORMAL doesn't match, or stored TASK_RUNNING or TASK_WAKING.
    Passed { t: TaskNo },
    /// It raised the condition.
    Bumped { k: CondNo },
    /// It gave the lock of the condition's wait queue after it had passed every entry taken.
    Walked { k: CondNo },
}
