//! What a slot holds, and what the table is told when it is made.
use handoff_data::{Kept, NoMemory, Shape};
use std::alloc::Global;
use std::marker::Model;
use std::snapshot::Snapshot;
use word_steps::Val;

/// A slot of the table. One whose lock is taken, and one of a body that is out, is in the hand of a seat of its own.
#[derive(Drop)]
pub enum Slot<B> {
    Empty,
    /// The value under a lock.
    Held(Val),
    /// A task's body.
    Body(B),
    /// Room for the bodies, which nobody takes before the end.
    Room(BodyRoom<B>),
}

impl<B> Slot<B> {
    ghost use Rattle.std.specs.Prelude.{◌≡◌};
    ghost use Rattle.std.specs.Borrow.{sem};
    ghost use Rattle.word_table.specs.Lending.{IsHeld, LendsHeld};
    ghost use Rattle.word_table.specs.declared.slot.Slot.TheVariants.{Held};

    /// The value under a lock, where this is that.
    pub fn held_mut(&mut self) -> &mut Val
        requires held { IsHeld self.old }
        ensures* writes_back { sem 𝓛 (LendsHeld B.row self.entry result) }
        ensures value { self.old ≡ Held result.now }
    {
        match self {
            Slot::Held(val) => val,
            _ => unreachable!(),
        }
    }
}

/// Room for the bodies that the table gives back at its end, in a box: no slot is larger for it. Contracts see the
/// vector.
#[derive(Drop)]
pub struct BodyRoom<B> {
    inner: Box<Vec<B>>,
}

impl<B> Model for BodyRoom<B> {
    ghost use Rattle.std.specs.Prelude.{Vec};
    ghost use Rattle.std.specs.Global.{Global};

    ghost Value = { Vec B Global };

    ghost view = { λ r. r.inner.value };
}

impl<B: Kept> BodyRoom<B> {
    ghost use Rattle.std.specs.Prelude.{◌≡◌, ◌≤◌, [], IfOk};
    ghost use Rattle.std.specs.Vec.{vec_capacity};

    /// Room for so many bodies, and none in it. Answers `NoMemory` where memory runs out.
    pub fn new(alloc: Global, count: usize) -> Result<BodyRoom<B>, NoMemory>
        ensures items { IfOk result (λ r. r.items ≡ []) }
        ensures capacity { IfOk result (λ r. count ≤ vec_capacity r) }
    {
        let bodies = Vec::with_capacity(alloc, count)?;
        let inner = Box::new(alloc, bodies)?;
        Ok(BodyRoom { inner })
    }

    /// The vector.
    pub fn into_vec(self) -> Vec<B>
        ensures { result ≡ self }
    {
        Box::into_inner(self.inner)
    }
}

/// What the table is told when it is made.
#[derive(Drop)]
pub struct Key<B> {
    pub shape: Shape,
    pub bodies: Snapshot<Vec<B>>,
}
