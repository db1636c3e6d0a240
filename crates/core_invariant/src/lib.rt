//! What holds of the core between any two steps: its definitions, a group of sentences a file of `specs/`.
//!
//! Begin at `Holds` of `specs/Invariant`. A file a group: `Shapes`, `Locks`, `Queues`, `Busy`, `Places`, `Positions`,
//! `Journals`, `Sleepers`. `docs/INVARIANT.md` has each sentence in words.
#![tactic(auto)]
