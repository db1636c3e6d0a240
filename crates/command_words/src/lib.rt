//! The words of the command line: which lists of words have a reading, and which.
//!
//! `words.rt` has the readings, `forms.rt` the test whether words have one, which takes no memory, and `program.rt` the
//! parser that reads words that have one. `read.rt` joins the two.
#![tactic(auto)]

mod forms;
mod law;
mod program;
mod read;
mod words;

pub use law::reads_what_is_written;
pub use read::read_words;
pub use words::{RunOptions, Words};

#[cfg(test)]
mod tests;
