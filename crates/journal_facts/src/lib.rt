//! What entries of journals tell, as facts in their order, and questions to them, each of them one binary search.
//!
//! `fact.rt`, `telling.rt` and `members.rt` are the facts of entries, `facts.rt` the type that has them in order,
//! `searching.rt` the binary searches, `asking.rt` the questions: is a fact told, before an index, earlier, from a
//! number on; the last one; the highest.
#![tactic(auto)]

mod asking;
mod fact;
mod facts;
mod members;
mod searching;
mod telling;

pub use asking::{
    facts_on, highest, is_told, is_told_before, is_told_earlier, is_told_from, is_told_on,
    last_index,
};
pub use fact::{Fact, Kind};
pub use facts::Facts;
pub use members::members_of;
pub use telling::{fact_of, facts_of};
