//! Turns of processors: the next task is picked, its body has a turn, and what comes of that is told to a gate.
#![tactic(auto)]

mod bodies;
mod law;
mod loads;
mod told;
mod turn;

pub use law::{law_turn, law_went_on};
pub use loads::Values;
pub use told::{die_told, raise_told, sleep_told, start_told, switch_told};
pub use turn::{Turned, cpu_turn};

#[cfg(test)]
mod tests;
