//! The run of a script that keeps its journals, whatever gates its caller gave.
//!
//! `run.rt` is the run, `wrapping.rt` puts a list beside each gate before it and takes them apart after it, and
//! `kept.rt` is a gate with such a list.
#![tactic(auto)]

mod kept;
mod run;
mod wrapping;

pub use run::run_traced;

#[cfg(test)]
mod tests;
