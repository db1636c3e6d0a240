//! Callers of wake-ups and wait queues, each from a seat that stands between two calls or has a current task.
#![tactic(auto)]

#[cfg(test)]
mod close_tests;
mod idle;
#[cfg(test)]
mod journal_tests;
#[cfg(test)]
mod mask_tests;
#[cfg(test)]
mod ping_pong_tests;
#[cfg(test)]
mod random_tests;
#[cfg(test)]
mod run_tests;
mod running;
mod threads;
#[cfg(test)]
mod wait_tests;
#[cfg(test)]
mod wake_tests;

pub use idle::{bump_and_wake, wake, wake_all, wake_by, wake_some};
pub use threads::both;
