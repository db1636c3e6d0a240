//! The single stores of which each atomic step of a core is made, and the reads of its words.
//!
//! Each store says what it changes of the table of columns, and that nothing else does.
//!
//! A file for the words of each sort (`task_stores.rt`, `cpu_stores.rt`, `cond_stores.rt`, `seat_stores.rt`), `outs.rt`
//! for what a seat has out, `facts.rt` for the facts that a step reads.
#![tactic(auto)]

mod cond_stores;
mod cpu_stores;
mod facts;
mod outs;
mod seat_stores;
mod task_stores;

pub use cond_stores::{cond, has_wait, put_cond, put_wait, put_wait_lock, take_wait, wait_lock};
pub use cpu_stores::{
    has_queue, has_works, put_queue, put_queue_lock, put_works, put_works_lock, queue_lock,
    take_queue, take_works, works_lock,
};
pub use facts::{
    added, claimed, clear, idle, matched, owes, own_stored, passed, rest_off, rest_state, retaken,
    saw_off, slept, slept_in, unstored,
};
pub use outs::{
    body_out, level_known, queue_out, reads, seen, task_out, to_clear, wait_out, works_out,
};
pub use seat_stores::{
    current, forget_sleep, give_asleep, hold_queue, hold_task, hold_wait, hold_works, log, note,
    put_body_out, put_current, put_level_known, put_seen, put_to_clear, release_queue,
    release_task, release_wait, release_works, set_reads, set_test,
};
pub use task_stores::{
    conds, cpus, put_body, put_busy, put_cpu, put_lock, put_rq, put_state, put_val, seats,
    take_body, task_words, tasks,
};
