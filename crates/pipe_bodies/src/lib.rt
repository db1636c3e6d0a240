//! Text tasks as bodies over bounded rings, a line a turn.
//!
//! `body.rt` is the body, `parts.rt` one turn of it by cases, `held.rt` the items to be put out, `custom.rt` the work
//! of a caller in a body, `dealing.rt` works by number to their tasks, `building.rt` the net, `settling.rt` what bodies
//! that have ended have kept, `running.rt` rounds and random orders, `laws.rt` the law.
//!
//! The layers above cite `specs/Nets`, `Turns`, `Bodies` and `Lastings`; `Codes` and `Inside` are the crate's own.
#![tactic(auto)]

mod body;
mod building;
mod custom;
mod dealing;
mod held;
mod item;
mod laws;
mod parts;
mod running;
mod settling;
mod verdict;

pub use body::Body;
pub use building::{Net, build_courses};
pub use custom::Custom;
pub use item::Item;
pub use laws::law_lastings;
pub use parts::Course;
pub use pipe_tasks::{Closing, NoWork, Swap, Work};
pub use running::{have_ended, run_bodies, run_shuffled};
pub use settling::settle;
pub use verdict::{Then, Verdict};

#[cfg(test)]
mod tests;
