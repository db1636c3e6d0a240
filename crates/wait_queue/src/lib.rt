//! Wait queues and their walks, after Linux's `kernel/sched/wait.c`.
//!
//! `entering.rt` has `prepare` and `finish`, `meeting.rt` entries met one after the other, `walking.rt` the walks under
//! the lock, `law.rt` the laws. `specs/`: `Entering` and `Walks` (what a call did), `Meets` (its meetings), `Settles`
//! (what it asks and leaves), `Laws`.
//!
//! In comments T is the task, and what stands in brackets is the race of `docs/PROTOCOLS.md` that the order bars.
#![tactic(auto)]

mod entering;
mod law;
mod meeting;
mod walking;

pub use entering::{finish, prepare};
pub use law::{law_prepared, law_walked};
pub use walking::{bump_and_wake, wake_all, wake_some};
