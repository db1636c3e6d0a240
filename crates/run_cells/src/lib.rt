//! What a run of tasks is made of, below its turns: the gates that are told what each seat does, the bodies of the
//! tasks as the shared table keeps them, the conditions that tell of their rings, and the end, at which the lines are
//! taken out.
#![tactic(auto)]

mod cell;
mod ending;
mod gate;
mod net_map;

pub use cell::{BodyBox, Cell, into_bodies, into_cells};
pub use ending::finish_run;
pub use gate::{Gate, ListGate, tell};
pub use net_map::{Inputs, NetMap, put_out, taken_from};

#[cfg(test)]
mod tests;
