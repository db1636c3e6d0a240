//! What a wake-up answers.
use handoff_data::{CpuNo, State};

/// How a task was woken.
#[derive(Clone, Copy, Debug, PartialEq, Eq)]
pub enum How {
    /// It is the waker's own current task.
    Own,
    /// It was still queued.
    Runnable,
    /// It was off every queue, and stands now at the back of this processor's.
    Queued(CpuNo),
}

/// What came of a wake-up.
#[derive(Clone, Copy, Debug, PartialEq, Eq)]
pub enum Wake {
    /// The task was woken.
    Woke { how: How },
    /// The task's state, `seen`, has no bit of the mask.
    NoMatch { seen: State },
}
