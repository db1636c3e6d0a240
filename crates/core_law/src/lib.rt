//! Each kind of step keeps the invariant: the groups of sentences, put together. Then what a machine can come to: the
//! events (`Event`, `StepKind`), which of them are possible and what they change (`May` and `after` of
//! `specs/Steps.antt`, one line a kind of step), and the cores that runs of events reach (`specs/Reached.antt`).
//!
//! `specs/Laws` has the laws over cores, `StepLaws` those over steps. `proofs/`: by `Kept` each kind keeps `Holds`,
//! from the four crates below; by `Reached` so do events and runs of them; in `Laws` the laws follow from `Holds`;
//! `StepLaws`, `Stores` and `EachStep` are on what steps change and keep; `Witness` is a run to a sleeper who is owed a
//! wake.
#![tactic(auto)]

mod event;
mod step;

pub use event::Event;
pub use step::StepKind;
