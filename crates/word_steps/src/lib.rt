//! The steps of the core as steps on shared words: what a seat's trace tells, which core the words, the values at home
//! and the traces show, and that each kind of step is that core's step. It knows nothing of threads.
//!
//! `val.rt` has the values of locks in one type, `boxes.rt` those of tasks and queues, each in a box, `wait.rt` and
//! `works.rt` a wait queue and a processor's works, with room reserved. `specs/`: `Records`, `Folds` (a trace), `Words`
//! (columns), `Decode` (the core that is shown), `Events`, `TraceFacts`, `Exclusives`, `Lending` (a lock's value, while
//! what is in it is lent). `proofs/`: an equation for each kind of step (`Takes`, `Gives`, `Stores`, `Runs`, `Loads`),
//! `Events` (each is one event), `Conditions`, and a file for each sentence (`MovingKept` and its like).
//! `docs/TABLE.md` tells it all.
#![tactic(auto)]

mod boxes;
mod val;
mod wait;
mod works;

pub use boxes::{QueueBox, TaskBox};
pub use val::Val;
pub use wait::WaitQueue;
pub use works::WorksBox;
