//! The shared words of a machine of tasks, and the single steps of its seats on them: each kind of step of the core as
//! a call of running threads.
//!
//! `wk.rt` and `pass.rt` are the types, `life.rt` and `close.rt` the beginning and the end, `laws.rt` the law between
//! any two steps. The calls: `locks.rt` over `guards.rt`, `gives.rt` (a give for each thing that a seat does with a
//! queue), `bodies.rt`, `loads.rt`, `states.rt`, `conds.rt`, `runs.rt`, `waits.rt`.
//!
//! `specs/`: `Views` (what contracts see), `Shown`, `Guards`, `Lending` (what they see of a guard), `Gives` and
//! `Queues` (what a seat did with a queue), `Needs` (room that calls ask for), `Untouched` (the frame that wake-ups,
//! starts and walks share), `Between` and `Closing` (what holds between steps, and at the end). `proofs/`: `Finer`,
//! `Read` (loads between a take and a give), `Allowed`, `Frames`, `Ends`, `Sleepers`.
//!
//! In comments T is the task, and what stands in brackets is the race of `docs/PROTOCOLS.md` that the order bars.
#![tactic(auto)]

mod bodies;
mod close;
mod conds;
mod gives;
mod guards;
mod laws;
mod life;
mod loads;
mod locks;
mod pass;
mod runs;
#[cfg(test)]
mod shape_tests;
mod states;
mod waits;
mod wk;

pub use bodies::{body_home, body_out};
pub use conds::{bump_cond, load_cond};
pub use guards::{QueueGuard, TaskGuard, WaitGuard, WorksGuard};
pub use laws::between_steps;
pub use loads::{BusyWord, load_busy, load_count, load_cpu, load_rq, load_state};
pub use locks::{lock_queue, lock_task, lock_wait, lock_works};
pub use pass::{Pass, Turn};
pub use runs::{clear_busy, dequeue_task, move_task, queue_task, set_busy};
pub use states::{claim_task, make_runnable, match_state, set_running, set_state, store_cpu};
pub use waits::{rest_on_busy, rest_on_rq, wait_clear};
pub use wk::Wk;
pub use word_table::{BodyOut, Closed, Kept};
