//! Switching, after Linux's `kernel/sched/core.c`: the task of a processor is put back, sleeps or dies, and the next
//! one is picked.
//!
//! `switching.rt` has `schedule` and what becomes of the current task (`switch_out`, the one place where a task leaves
//! its processor), `picking.rt` the pick of the next, `sleeping.rt` the sleep at a condition, `answer.rt` what is asked
//! and answered, `law.rt` the laws. `specs/`: `Standing` (how a pass stands between two calls), `Switches` and `Sleeps`
//! (what a call did, by its answer), `Currents` (who is current after it), `Laws`.
//!
//! In comments the race of `docs/PROTOCOLS.md` that the order bars stands behind `Bars`.
#![tactic(auto)]

mod answer;
mod law;
mod picking;
mod sleeping;
mod switching;

pub use answer::{Next, Slept, Switch};
pub use law::{law_changed, law_left, law_picked, law_slept};
pub use sleeping::sleep_on;
pub use switching::schedule;
