//! The data of the core: what every lock guards, the words of tasks, processors, conditions and seats, what a
//! seat has out and what it knows by its own steps. The values of locks have their functions here, since the shared
//! table runs them; those that only make `step_core` run stand in `step_data`.
//!
//! Contracts see a core as a table of columns (`specs/Columns.antt`): for each word its value at each number.
//!
//! `values.rt` and `queue.rt` are the values of locks, `words.rt` the words, `held.rt`, `act.rt` and `pos.rt` what a
//! seat has out and knows, `seat.rt` and `machine.rt` the whole. `specs/`: `Columns`, `Opening` (a core that begins),
//! `Noted` and `Acts` (what a seat knows), `Rows`.
#![tactic(auto)]

mod act;
mod held;
mod machine;
mod pos;
mod queue;
mod seat;
mod values;
mod words;

pub use act::Act;
pub use held::{Held, HeldList, HeldQueue, HeldTask, HeldWait, HeldWorks};
pub use machine::Core;
pub use pos::{
    ActiveRead, Asleep, Completing, CountRead, Due, MarkRead, PhaseRead, PhaseTurns, Pos, Rq,
    Served, TaskReads, Test, Ticket,
};
pub use queue::QueueVal;
pub use seat::SeatCore;
pub use values::{ListVal, TaskVal, WaitEntry, WaitVal, WorkItem, WorksVal};
pub use words::{CondWords, CpuWords, Phase, TaskWords};
