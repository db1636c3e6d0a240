//! A caller of the library who brings a work: a plan of the caller's own code, which has a state that goes on from line
//! to line. What it means is a `Plan`, and the compiler proves that each call keeps to it.
#![tactic(auto)]

mod count_lines;
#[cfg(test)]
mod tests;

pub use count_lines::CountLines;
