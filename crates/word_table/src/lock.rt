//! The four sorts of lock, each as a type.
ghost use Rattle.std.specs.Prelude.{◌≡◌};
ghost use Rattle.word_rule.specs.Sorts.{Sort, lock_of};
ghost use Rattle.word_table.specs.Layout.{slot_of};

use crate::layout;

/// A sort of lock.
pub trait Lock {
    ghost sort: { Sort };

    /// The column of its word.
    fn column() -> usize
        ensures { result ≡ lock_of sort };

    /// The column of its slot.
    fn slot() -> usize
        ensures { result ≡ slot_of sort };
}

/// The lock of a task.
pub struct TaskLock;

impl Lock for TaskLock {
    ghost use Rattle.word_rule.specs.Sorts.{OfTask};

    ghost sort = { OfTask };

    fn column() -> usize {
        layout::LOCK
    }

    fn slot() -> usize {
        0
    }
}

/// The lock of a processor's queue.
pub struct QueueLock;

impl Lock for QueueLock {
    ghost use Rattle.word_rule.specs.Sorts.{OfQueue};

    ghost sort = { OfQueue };

    fn column() -> usize {
        layout::QUEUE_LOCK
    }

    fn slot() -> usize {
        2
    }
}

/// The lock of a processor's works.
pub struct WorksLock;

impl Lock for WorksLock {
    ghost use Rattle.word_rule.specs.Sorts.{OfWorks};

    ghost sort = { OfWorks };

    fn column() -> usize {
        layout::WORKS_LOCK
    }

    fn slot() -> usize {
        3
    }
}

/// The lock of a condition's wait queue.
pub struct WaitLock;

impl Lock for WaitLock {
    ghost use Rattle.word_rule.specs.Sorts.{OfWait};

    ghost sort = { OfWait };

    fn column() -> usize {
        layout::WAIT_LOCK
    }

    fn slot() -> usize {
        5
    }
}
