//! Callers of the shared words: each shows the conditions of its calls by what its pass has done.
#![tactic(auto)]

mod bodies;
mod closing;
#[cfg(test)]
mod death_tests;
mod deaths;
#[cfg(test)]
mod each_step_tests;
mod locks;
mod moves;
mod opening;
pub mod plain;
mod runs;
#[cfg(test)]
mod single_steps;
mod switching;
mod telling;

pub use bodies::{Turns, run_turn};
pub use closing::{close_both, close_one};
pub use deaths::die;
pub use locks::{copy_wake_cpu, count_works, swap_wake_cpus};
pub use moves::move_to;
pub use opening::{begin, one_seat, two_seats};
pub use runs::{pick, put_back, run, start, start_new};
pub use switching::switch_out;
pub use telling::tell;
