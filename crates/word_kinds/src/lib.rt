//! The kinds of step on one word, each as a type with its record, its condition and its laws; and the same laws of the
//! steps that take values and bodies out and bring them home.
//!
//! `loads.rt`, `masks.rt` (loads against a mask, a type each), `stores.rt`, `runs.rt` (queue words, busy words);
//! `laws.rt` says that takes and gives are events. A kind may change without the others.
#![tactic(auto)]

mod laws;
mod loads;
mod masks;
mod runs;
mod stores;

pub use laws::{bodies_make_events, locks_make_events};
pub use loads::{LoadBusy, LoadCond, LoadCount, LoadCpu, LoadRq, LoadState};
pub use masks::{
    Interruptible, InterruptibleKill, Killable, Mask, MatchState, NoBits, Normal, NormalKill,
    Uninterruptible, WakeKill,
};
pub use runs::{ClearBusy, DequeueTask, MoveTask, QueueTask, SetBusy};
pub use stores::{BumpCond, ClaimTask, MakeRunnable, SetState, StoreCpu};
