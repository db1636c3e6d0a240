//! Callers of switches and sleeps, each from a seat that stands between two calls.
//!
//! `life.rt` has the whole life of a task, `bodies.rt` a body that ends, `opening.rt` a table that begins, `seats.rt`
//! small ones for tests. Tests: `row_tests.rt` (answers and entries), `next_tests.rt` (a task that stands as the next
//! without being current), `woken_tests.rt` (a wake between test and sleep), `ping_pong_tests.rt`, `thread_tests.rt`
//! (random turns). `specs/`: `Seated` (a seat between two calls, with a task or with none), `Looks`.
#![tactic(auto)]

mod bodies;
mod life;
#[cfg(test)]
mod next_tests;
mod opening;
#[cfg(test)]
mod ping_pong_tests;
#[cfg(test)]
mod row_tests;
#[cfg(test)]
mod seats;
#[cfg(test)]
mod thread_tests;
#[cfg(test)]
mod woken_tests;

pub use bodies::{Turns, run_turn};
pub use life::{die, live, resume, run_new, sleep_new};
pub use opening::begin;
