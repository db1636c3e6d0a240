//! Run queues: a task is placed on a processor, and a new task is started.
//!
//! `starting.rt` starts a new task, `placing.rt` places one. `specs/`: `Starts` (what a start did, by its answer),
//! `Queueing`, `Rests` (what a call leaves as it was).
//!
//! In comments T is the task, and what stands in brackets is the race of `docs/PROTOCOLS.md` that the order bars.
#![tactic(auto)]

mod answer;
mod placing;
mod starting;

pub use answer::Start;
pub use placing::place;
pub use starting::start;
