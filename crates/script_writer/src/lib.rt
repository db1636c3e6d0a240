//! Scripts, written in their one canonical spelling.
//!
//! `writing.rt` has the writer, a function for each part of a script; `law.rt` the law that what is written is read.
//! `specs/Spelling` is the definition of the spelling, which the writer gives byte for byte and of which alone the law
//! speaks.
//!
//! The law is proved bottom up in `proofs/`: `WordLaws` (the words of a line), `NumberLaws` (numbers and names as
//! words), `LineBack` (the form of each line), `NameBack` (a name's number), `TaskBack` (the tasks that the forms say),
//! `Faultless` (no line has a fault), `TextBack`.
#![tactic(auto)]

mod law;
mod writing;

pub use law::law_spelling;
pub use writing::write_script;

#[cfg(test)]
mod tests;
