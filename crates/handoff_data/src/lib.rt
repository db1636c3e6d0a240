//! Plain data that every other crate speaks of: numbers of tasks, processors, seats and conditions, the shape
//! of a machine, lines of text, and the one error of a call that takes memory.
//!
//! One file a type. `specs/`: `Rules` has the eleven rules of journals, `Legal` what one legal history is, `Moves` the
//! moves of tasks, over `Positions`, `Numbers` and `History`. Every crate stands on this one.
#![tactic(auto)]

mod entry;
mod kept;
mod line;
mod lines;
mod mask;
mod no_memory;
mod numbers;
mod place;
mod shape;
mod state;

pub use entry::{Entry, Journal, Journals};
pub use kept::Kept;
pub use line::{Line, is_line};
pub use lines::Lines;
pub use mask::CpuMask;
pub use no_memory::NoMemory;
pub use numbers::{CondNo, CpuNo, SeatNo, TaskNo};
pub use place::{Place, Q};
pub use shape::Shape;
pub use state::{State, matches};

#[cfg(test)]
mod tests;
