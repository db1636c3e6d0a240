//! Lemmas on the columns of a core: what stands at each number after a store.
//!
//! Begin at `proofs/Columns`.
#![tactic(auto)]
