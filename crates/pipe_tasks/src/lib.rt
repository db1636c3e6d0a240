//! Text tasks: what a plan puts out for each line that it reads, and the plain run of a forest of tasks.
//!
//! `text.rt` has the bytes of a line, `steps.rt` one item, `runs.rt` and `joins.rt` whole tasks of one and of two
//! sides, `forest.rt` the forest, `laws.rt` the law; `work.rt` has plans that a caller brings and `works.rt` two such
//! works; `copies.rt` has copies and `appending.rt` adds lines. `specs/Plans` says what a plan puts out, item by item
//! and on whole lists; `specs/Feeds` is cited by the law alone.
#![tactic(auto)]

mod appending;
mod copies;
mod forest;
mod joins;
mod laws;
mod runs;
mod steps;
mod text;
mod work;
mod works;

pub use copies::{copy_line, copy_plan};
pub use forest::run_forest;
pub use laws::feeding_gives_lines;
pub use steps::{end_plan, make_line, move_plan, said_line, step_plan, wanted_side};
pub use work::{NoWork, Work};
pub use works::{Closing, Swap};

#[cfg(test)]
mod tests;
