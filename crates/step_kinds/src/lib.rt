//! The kinds of atomic step: for each, whether a seat may make it in a core, and what it changes.
//!
//! `loads.rt`, `locks.rt`, `running.rt` and `waking.rt`, over `common.rt` and `notes.rt`. A kind may change without the
//! others.
#![tactic(auto)]

mod common;
mod loads;
mod locks;
mod notes;
mod running;
mod waking;

pub use loads::{
    bump, load_busy, load_cond, load_count, load_cpu, load_rq, load_state, may_bump, may_load,
    may_load_state,
};
pub use locks::{
    give_task, give_works, may_give_task, may_take_queue, may_take_task, may_take_wait,
    may_take_works, take_queue, take_task, take_wait, take_works, unsee,
};
pub use running::{
    body_home, body_out, clear_busy, dequeue_task, may_body_home, may_body_out, may_clear_busy,
    may_dequeue, may_move, may_queue, may_set_busy, move_task, queue_task, set_busy,
};
pub use waking::{
    claim, make_runnable, may_claim, may_make_runnable, may_set_state, may_store_cpu, set_state,
    store_cpu,
};
