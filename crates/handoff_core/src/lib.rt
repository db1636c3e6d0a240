//! The core of the hand-off: a machine of shared words, lock values and seats, in which each atomic step of a seat
//! is one event. `step_core` says what an event leads to, `law_run` what a list of events leads to.
//!
//! A core begins as `start_core` makes it. Which events are possible, and what they change, is said by `May` and
//! `after` of `core_law/specs/Steps.antt`, one line a kind of step.
//!
//! `run.rt` has one step and runs, `laws.rt` the laws over all cores, `step_laws.rt` those over all steps.
#![tactic(auto)]

mod laws;
mod run;
mod step_laws;

pub use core_data::{
    Act, ActiveRead, Asleep, Completing, CondWords, Core, CountRead, CpuWords, Due, Held, HeldList,
    HeldQueue, HeldTask, HeldWait, HeldWorks, ListVal, MarkRead, Phase, PhaseRead, PhaseTurns, Pos,
    QueueVal, Rq, SeatCore, Served, TaskReads, TaskVal, TaskWords, Test, Ticket, WaitEntry,
    WaitVal, WorkItem, WorksVal,
};
pub use core_law::{Event, StepKind};
pub use laws::{
    a_sleeper_can_be_owed, each_step_keeps_the_invariant, no_lost_wake, one_run_at_a_time,
    opening_core_holds, sleepers_wait, sleeps_on_its_processor, stands_once,
    wakes_queue_at_most_once,
};
pub use run::{CoreRun, law_run, step_core};
pub use step_data::start_core;
pub use step_laws::{
    each_seat_stores_its_states, each_store_ends_reads, each_test_stays, gives_keep, loads_tell,
    no_step_wakes_the_dead, passes_are_kept, refusals_are_told, sleeps_are_kept, steps_ask,
    words_mean,
};
