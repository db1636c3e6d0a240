//! What calls on run queues answer.
use handoff_data::State;

/// What came of a start.
#[derive(Clone, Copy, Debug, PartialEq, Eq)]
pub enum Start {
    /// The task is queued, by its change of number `m`.
    Started { m: u64 },
    /// The task isn't new, or was started before; `seen` is its state.
    NotNew { seen: State },
}
