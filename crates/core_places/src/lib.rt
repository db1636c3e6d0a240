//! Steps keep what the places of tasks and the positions of seats say: lemmas.
//!
//! `proofs/Places`, `PlacesByTests`, `Positions`, `PositionsByTests` and `Loads` have a lemma for each kind of step,
//! the others one group of sentences each. Begin at `Places`, with `PlacesHold` of `core_invariant`.
#![tactic(auto)]
