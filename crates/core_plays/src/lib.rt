//! Lists of events, played on the core of `handoff_core`: lists that are possible from its opening, and for each
//! condition of a step a list after which it is the one that fails. They stand above the core, so that nothing
//! waits for them.
//!
//! `tests.rt` has stories; in `tests/`: `stops.rt` (for each condition a list after which it is the one that fails),
//! `sleeps.rt`, `passes.rt`, `reads.rt` (what sleepers, wakers and loads note, and what ends it), `parts.rt`;
//! `words.rt`, `looks.rt` and `play.rt` read lists in words and play them.
#![tactic(auto)]

#[cfg(test)]
mod tests;
