//! The run of a script from its bytes to its report and what is told of it, its spelling, the check of journals, and
//! the ends that bytes come from and go to.
//!
//! `top.rt` is the top call, `command.rt` the command `run` and `report.rt` its report, `plan.rt` the command `plan`,
//! `scripts.rt` reads the script of both, `check.rt` is the command `check`, `status.rt` and `journal_fault.rt` the
//! answers. `ends.rt` has the traits of the ends, on whose clauses the loops of `transfer.rt` rest; `memory.rt` and
//! `standard.rt` are ends.
#![tactic(auto)]

mod check;
mod command;
mod ends;
mod journal_fault;
mod memory;
mod plan;
mod report;
mod scripts;
mod standard;
mod status;
mod top;
mod transfer;

pub use ends::{Failed, Sink, Source};
pub use journal_fault::JournalFault;
pub use memory::{MemSink, MemSource};
pub use pipe_bodies::{Closing, NoWork, Swap, Work};
pub use run_cells::{Gate, ListGate};
pub use standard::{StdSink, StdSource};
pub use status::Status;
pub use top::{wakerun, wakerun_with};

#[cfg(test)]
mod calls;
#[cfg(test)]
mod check_tests;
#[cfg(test)]
mod custom_tests;
#[cfg(test)]
mod gate_tests;
#[cfg(test)]
mod option_tests;
#[cfg(test)]
mod run_tests;
#[cfg(test)]
mod tests;
