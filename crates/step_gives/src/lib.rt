//! The gives of queues, wait queues and works: whether a seat may give one back with a value, and what that changes.
//!
//! `fits.rt` (a queue and the words), `switch.rt` (the current task), `queues.rt`, `waits.rt`, `works.rt`.
#![tactic(auto)]

mod fits;
mod queues;
mod switch;
mod waits;
mod works;

pub use queues::{give_queue, may_give_queue};
pub use waits::{give_wait, may_give_wait};
pub use works::may_give_works;
