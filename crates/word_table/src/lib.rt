//! The shared table: its words, slots and seats under the rule of `word_rule`, and single steps of any kind on it. The
//! kinds of step stand in the crate above, each with its law.
//!
//! `words.rt` and `token.rt` are the types that callers have; `life.rt`, `close.rt` and `gathered.rt` beginning and
//! end; `steps.rt` has steps on a word, `carrying.rt` over `values.rt` locks and bodies, `taken.rt` what a guard holds
//! and lends, `resting.rt` waits; `kind.rt` and `lock.rt` the traits; `plays.rt` what each operation tells, `rule.rt`
//! the rule.
//!
//! `specs/`: `Layout`, `Outs` (slots that a trace has out), `Ruled` (the rule of the table), `Plays`, `Kinds`, `Parts`,
//! `Views`, `Taken`, `Lending`, `Handing` (a lock taken, and what is lent of it), `Begin`, `End`. `proofs/`: `Slotted`
//! and `Decoded` (slots and homes), `Acts` (what each act of the table leaves of the rule), `Moves` (each operation
//! keeps it), `Ways`, `Carries` and `Opened` (the same in the form of the calls), `Rows`.
#![tactic(auto)]

mod carrying;
mod close;
mod gathered;
mod kind;
mod layout;
mod life;
mod lock;
mod plays;
mod resting;
mod rule;
#[cfg(test)]
mod shape_tests;
mod slot;
mod steps;
mod taken;
#[cfg(test)]
mod thread_tests;
mod token;
mod values;
mod view;
mod words;

pub use carrying::{body_home, body_out, give, take};
pub use close::Closed;
pub use gathered::Gathered;
pub use handoff_data::Kept;
pub use kind::Kind;
pub use layout::{BUSY, COND, COUNT, CPU, RQ, STATE};
pub use lock::{Lock, QueueLock, TaskLock, WaitLock, WorksLock};
pub use resting::rest;
pub use steps::{exchange, fetch_add, load, peek, store};
pub use taken::{BodyOut, Taken};
pub use token::Token;
pub use words::Words;
