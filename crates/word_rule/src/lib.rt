//! The rule of the shared table, but for the table itself: what words, values at home and traces keep between any two
//! steps, when a seat may make each kind of step, told by its own trace alone, and that the step keeps the rule.
//!
//! Begin at `WordsHold` of `specs/`; `May` says when a seat may make a step, by its trace, `Sorts` has the four sorts
//! of lock, `Standing`, `Bodies`, `Own`, `Ways` and `Masks` sentences beside the invariant, `Told` what a taken value
//! tells. `proofs/`: `Quiet` has the one lemma on which all laws build (`words_hold_after`); `Possible`,
//! `PossibleGives` and `GiveQueue` lead from a trace to the core's condition; `LoadLaws`, `StoreLaws`, `QueueLaws`,
//! `LockLaws` and `BodyLaws` say that each step is an event and keeps the rule; the files `*Kept` have a sentence each;
//! `Taken`, `Pigeons`, and `Uses` (what callers of a queue's give show).
#![tactic(auto)]
