//! The verdict on journals: whether they are one legal history, or else their first fault.
//!
//! `breaks.rt` has the eleven rules in their order, `judge.rt` what is known of the journals that are judged, `walk.rt`
//! goes over all entries and then all tasks, `verdict.rt` is the type, `law.rt` the law. `tests.rt` has short journals
//! for each rule.
#![tactic(auto)]

mod breaks;
mod judge;
mod law;
mod verdict;
mod walk;

pub use handoff_data::{Entry, Journal, Journals, NoMemory, SeatNo, TaskNo};
pub use law::one_verdict;
pub use verdict::Verdict;
pub use walk::legal;

#[cfg(test)]
mod tests;
