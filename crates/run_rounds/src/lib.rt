//! Rounds of workers, each of which drives the seats of some processors, until every task has died.
//!
//! `seat.rt` has seats and workers, and what a worker does in a round; `rounds.rt` the rounds, and when a run is over;
//! `shared.rt` and `shift.rt` how a worker ends its round, and how one without work rests.
//!
//! `specs/Seats`: what a run keeps of its seats. `proofs/Keeping`: what turns leave of them.
#![tactic(auto)]

mod rounds;
mod seat;
mod shared;
mod shift;

pub use rounds::run_rounds;
pub use seat::{Seat, Worker};
pub use shared::Shared;

#[cfg(test)]
mod tests;
