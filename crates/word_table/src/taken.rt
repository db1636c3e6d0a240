//! A lock that a seat has taken, and a body that is out. The slot is in the hand of a seat of its own, so that the
//! value is changed where it lies, and a lock moves nothing.
ghost use Rattle.std.specs.Prelude.{◌≡◌};
ghost use Rattle.std.specs.Borrow.{sem};
ghost use Rattle.word_steps.specs.Lending.{IsTask, IsQueue, IsWorks, IsWait};
ghost use Rattle.word_steps.specs.declared.val.Val.TheVariants as val;

use crate::slot::Slot;
use crate::view::View;
use crate::words::Words;
use atomic_table::Seat;
use handoff_data::Kept;
use std::marker::Model;
use word_steps::{QueueBox, TaskBox, WaitQueue, WorksBox};

/// A lock that a seat has taken. It has no `Drop`, so it ends in `give`. Contracts see its table, its slot, and the
/// value under it.
pub struct Taken<B> {
    pub(crate) seat: Seat<Slot<B>, View>,
    pub(crate) slot: usize,
}

impl<B> Model for Taken<B> {
    ghost use Rattle.word_table.specs.Taken.{TakenView};

    ghost Value = { TakenView };

    ghost use Rattle.word_table.specs.Taken.{taken_view, IsTaken};

    ghost view = { λ t. taken_view t.seat.table_id t.slot t.seat.me };

    ghost invariant = { λ t. IsTaken t.slot t.seat.me };
}

impl<B: Kept> Taken<B> {
    ghost use Rattle.word_table.specs.Handing.{LendsTask, LendsQueue, LendsWorks, LendsWait};

    /// What a task's lock guards, where this is such a lock.
    pub fn task_mut<'a>(&'a mut self, words: &'a Words<B>) -> &'a mut TaskBox
        requires of { self.old.of ≡ words.now.name }
        requires task { IsTask self.old.val }
        ensures* writes_back { sem 𝓛 (LendsTask B.row self.entry result) }
        ensures value { self.old.val ≡ val.Task result.now }
    {
        let slot = self.seat.slot_mut(&words.table.shared, self.slot);
        let held = slot.held_mut();
        held.task_mut()
    }

    /// What the lock of a processor's queue guards, where this is such a lock.
    pub fn queue_mut<'a>(&'a mut self, words: &'a Words<B>) -> &'a mut QueueBox
        requires of { self.old.of ≡ words.now.name }
        requires queue { IsQueue self.old.val }
        ensures* writes_back { sem 𝓛 (LendsQueue B.row self.entry result) }
        ensures value { self.old.val ≡ val.Queue result.now }
    {
        let slot = self.seat.slot_mut(&words.table.shared, self.slot);
        let held = slot.held_mut();
        held.queue_mut()
    }

    /// What the lock of a processor's works guards, where this is such a lock.
    pub fn works_mut<'a>(&'a mut self, words: &'a Words<B>) -> &'a mut WorksBox
        requires of { self.old.of ≡ words.now.name }
        requires works { IsWorks self.old.val }
        ensures* writes_back { sem 𝓛 (LendsWorks B.row self.entry result) }
        ensures value { self.old.val ≡ val.Works result.now }
    {
        let slot = self.seat.slot_mut(&words.table.shared, self.slot);
        let held = slot.held_mut();
        held.works_mut()
    }

    /// What the lock of a condition's wait queue guards, where this is such a lock.
    pub fn wait_mut<'a>(&'a mut self, words: &'a Words<B>) -> &'a mut WaitQueue
        requires of { self.old.of ≡ words.now.name }
        requires wait { IsWait self.old.val }
        ensures* writes_back { sem 𝓛 (LendsWait B.row self.entry result) }
        ensures value { self.old.val ≡ val.Wait result.now }
    {
        let slot = self.seat.slot_mut(&words.table.shared, self.slot);
        let held = slot.held_mut();
        held.wait_mut()
    }
}

/// A body that is out of its slot. It has no `Drop`, so it ends in `body_home`. Contracts see its table, its task, and
/// the body.
pub struct BodyOut<B> {
    pub(crate) seat: Seat<Slot<B>, View>,
    pub(crate) task: u32,
    pub(crate) body: B,
}

impl<B> Model for BodyOut<B> {
    ghost use Rattle.word_table.specs.Taken.{BodyView};

    ghost Value = { BodyView B };

    ghost use Rattle.word_table.specs.Taken.{IsOut};

    ghost view = { λ b. record { of = b.seat.table_id; task = b.task; body = b.body } };

    ghost invariant = { λ b. IsOut b.task b.seat.me };
}

impl<B> BodyOut<B> {
    ghost use Rattle.word_table.specs.Handing.{LendsBody};

    /// The body.
    pub fn body_mut(&mut self) -> &mut B
        ensures* writes_back { sem 𝓛 (LendsBody B.row self.entry result) }
        ensures value { result.now ≡ self.old.body }
    {
        &mut self.body
    }
}
