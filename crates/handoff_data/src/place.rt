//! Where a task is.

use crate::numbers::{CpuNo, SeatNo};

/// Where a task is queued, as its words tell.
#[derive(Clone, Copy, Debug, PartialEq, Eq, PartialOrd, Ord)]
pub enum Q {
    /// Not yet started.
    New,
    /// Off its queue, asleep.
    Off,
    /// On the run queue of a processor.
    On(CpuNo),
    /// Taken off its queue by a seat that moves it to another.
    Moving(SeatNo),
    /// Claimed by a seat that wakes it.
    Waking(SeatNo),
    /// On the remote list of a processor, or in that processor's hand.
    Listed(CpuNo),
    /// Ended for good.
    Dead,
}

/// Where a task is: where it is queued, and the processor on which it is busy, if any.
#[derive(Clone, Copy, Debug, PartialEq, Eq, PartialOrd, Ord)]
pub struct Place {
    pub q: Q,
    pub b: Option<CpuNo>,
}
