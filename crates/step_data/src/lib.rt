//! What makes a core run: the reads and changes of what a seat has out and knows, the opening core, and copies.
//!
//! `held.rt`, `act.rt` and `pos.rt` are functions over what a seat has out and knows, `opening.rt` is the opening core,
//! `copies.rt` has copies. Only the other `step` crates, `handoff_core` and `core_plays` stand on them.
#![tactic(auto)]

mod act;
mod copies;
pub mod held;
mod opening;
pub mod pos;

pub use copies::{copy_core, copy_wait, copy_works};
pub use opening::start_core;
pub use pos::{has_entry, is_gone};
