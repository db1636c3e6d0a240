//! The wake-up of a task, after Linux's `try_to_wake_up` (`kernel/sched/core.c`).
//!
//! `waking.rt` is the wake-up of another task, `finding.rt` its runnable path, `claiming.rt` claim, placement and
//! queueing, `own.rt` the wake-up of the waker's own task, `law.rt` the law. `specs/`: `Wakes` and `Own` (what a
//! wake-up did, by its answer), `Finds` and `Claims` (its parts), `Keeps`, `Orders`.
//!
//! In comments T is the task, and what stands in brackets is the race of `docs/PROTOCOLS.md` that the order bars.
#![tactic(auto)]

mod answers;
mod claiming;
mod finding;
mod law;
mod own;
mod waking;

pub use answers::{How, Wake};
pub use law::law_woken;
pub use own::wake_own;
pub use waking::wake;
