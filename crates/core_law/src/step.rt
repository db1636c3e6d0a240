use core_data::{QueueVal, TaskVal, WaitVal, WorksVal};
use handoff_data::{CondNo, CpuNo, SeatNo, State, TaskNo};

/// One atomic step, with the arguments of its call. A guard among them is carried as its lock and the value that
/// it has at that step. What a load reads is no part of it: that is what the core has. Taking and giving a lock
/// is a kind for each sort of lock, a store of `on_rq` one for each value, and a store of another task's state
/// one for each of its two values.
#[derive(Drop)]
pub enum StepKind {
    /// Takes the lock of a task, with its value.
    TakeTask {
        t: TaskNo,
    },
    /// Gives the lock of a task with this value, and says whether the give makes Stood and Done.
    GiveTask {
        t: TaskNo,
        val: TaskVal,
        stood: bool,
        done: bool,
    },
    /// Takes the lock of a processor's queue, with the queue.
    TakeQueue {
        c: CpuNo,
    },
    /// Gives that lock with this queue. With no task in `cur` the processor's seat gives its current task up.
    GiveQueue {
        c: CpuNo,
        val: QueueVal,
    },
    /// Takes the lock of a condition's wait queue, with its entries.
    TakeWait {
        k: CondNo,
    },
    /// Gives that lock with these entries.
    GiveWait {
        k: CondNo,
        val: WaitVal,
    },
    /// Takes the lock of a stopper's works, with the works.
    TakeWorks {
        c: CpuNo,
    },
    /// Gives that lock with these works.
    GiveWorks {
        c: CpuNo,
        val: WorksVal,
    },
    /// Takes the body of the current task out.
    BodyOut {
        t: TaskNo,
    },
    /// Puts the body of the current task home, which has ended or not.
    BodyHome {
        t: TaskNo,
        ended: bool,
    },
    /// Stores 1 in `on_rq`: a new task, one that was woken, or one that was moved is put on a queue.
    QueueTask {
        c: CpuNo,
        t: TaskNo,
    },
    /// Stores 0 in `on_rq`: the current task sleeps or dies.
    DequeueTask {
        c: CpuNo,
        t: TaskNo,
    },
    /// Stores 2 in `on_rq`: a waiting task of this queue is taken out, to be moved.
    MoveTask {
        c: CpuNo,
        t: TaskNo,
        val: QueueVal,
    },
    /// Sets the busy word of the task that this queue has as its next.
    SetBusy {
        c: CpuNo,
        t: TaskNo,
        val: QueueVal,
    },
    /// Clears the busy word of a task that was given up.
    ClearBusy {
        t: TaskNo,
    },
    /// Stores the state of the current task.
    SetState {
        t: TaskNo,
        state: State,
    },
    /// Stores TASK_WAKING as the state of a task that is off its queue.
    ClaimTask {
        t: TaskNo,
    },
    /// Stores TASK_RUNNING as the state of a task.
    MakeRunnable {
        t: TaskNo,
    },
    /// Loads the state of a task, with the mask of a wake-up or with none.
    LoadState {
        t: TaskNo,
        mask: Option<State>,
    },
    /// Loads `on_rq` of a task.
    LoadRq {
        t: TaskNo,
    },
    /// Loads the busy word of a task.
    LoadBusy {
        t: TaskNo,
    },
    /// Loads the processor of a task.
    LoadCpu {
        t: TaskNo,
    },
    /// Loads the migrate-disable level of a task.
    LoadCount {
        t: TaskNo,
    },
    /// Stores the processor of a task.
    StoreCpu {
        t: TaskNo,
        c: CpuNo,
    },
    /// Raises the counter of a condition.
    Bump {
        k: CondNo,
    },
    /// Loads the counter of a condition.
    LoadCond {
        k: CondNo,
    },
}
