//! The run of a script on the scheduler: its bodies and their table, the starts, the seats and who drives them, and the
//! end.
//!
//! `whole.rt` is the run of a script, `seats.rt` its seats with the gates that go there and come back, `dealing.rt`
//! deals seats to workers and takes them back, `starts.rt` starts the tasks.
#![tactic(auto)]

mod dealing;
mod seats;
mod starts;
mod whole;

pub use whole::run_script;

#[cfg(test)]
mod tests;
