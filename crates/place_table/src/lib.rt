//! Where each task is, as the entries of journals tell: a table that makes an entry's move, or refuses it; and the
//! verdict on whole journals.
//!
//! `moves.rt` is the table of moves as two functions, `table.rt` the places.
#![tactic(auto)]

mod moves;
mod table;

pub use handoff_data::{Entry, Journal, Journals, Place, Q};
pub use journal_legal::{Verdict, legal, one_verdict};
pub use table::{Illegal, Table};

#[cfg(test)]
mod tests;
