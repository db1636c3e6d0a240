//! Steps keep the rules of journals, and the words tied to them: lemmas.
//!
//! `proofs/Running`, `Waking`, `Locks` and `Loads` have a lemma for each kind of step; `MovingSteps` and `StayingSteps`
//! say that a step is one move or none (`OneMoveOrNone`); `Lawful`, `Legal` and `Chains` are what follows. Begin at
//! `JournalsHold` of `core_invariant`.
#![tactic(auto)]
