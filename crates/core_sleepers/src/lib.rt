//! Steps keep sleepers safe: lemmas.
//!
//! `proofs/Stores`, `Takes`, `Gives`, `Conditions` and `Passes` have a file for each kind of change; `Still` has the
//! steps that change nothing on which a sleeper rests. Begin at `IsSafeSleeper` of `core_invariant`.
#![tactic(auto)]
