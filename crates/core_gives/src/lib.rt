//! The gives of queues, wait queues and works: when a seat may give one back with a value, and what that changes
//! (`specs/`), with lemmas on lists that others cite.
//!
//! `specs/Queues` and `Waits` have each condition of a give as a record of named facts, and its effect.
#![tactic(auto)]
