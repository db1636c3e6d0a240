//! What switches are asked for, and what they answer.
use handoff_data::TaskNo;

/// What is to run next on a processor.
#[derive(Clone, Copy, Debug, PartialEq, Eq)]
pub enum Next {
    /// The task at the front of its queue.
    Task,
    /// No task.
    Nobody,
}

/// What came of a switch.
#[derive(Clone, Copy, Debug, PartialEq, Eq)]
pub enum Switch {
    /// This task is current.
    Running(TaskNo),
    /// A task was asked for, and none was in the queue.
    Idle,
    /// Nobody was asked for.
    Nobody,
}

/// What came of a sleep.
#[derive(Clone, Copy, Debug, PartialEq, Eq)]
pub enum Slept {
    /// The task sleeps, by its change of number `m`.
    Slept { m: u64 },
    /// A wake came first, and the task stands at the back of its queue.
    Woken,
    /// The condition read as another value than the one slept for: the task is still current.
    Changed { now: u64 },
}

/// What became of the current task.
#[derive(Clone, Copy, Debug, PartialEq, Eq)]
pub enum Out {
    /// It is picked again at once.
    Stays,
    /// It stands at the back of its queue.
    Back,
    /// It sleeps or is dead, by its change of number `m`.
    Gone { m: u64 },
}
