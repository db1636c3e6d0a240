//! The kinds of atomic step: for each, when a seat may make it in a core, and what it changes (`specs/`).
//!
//! `specs/Locks`, `Running` and `Waking` have a record of conditions and an effect for each kind of step, over `Steps`.
#![tactic(auto)]
