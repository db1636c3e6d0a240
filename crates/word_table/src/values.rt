//! How slots come into a seat's hand, and go home.
ghost use Rattle.std.specs.Prelude.{◌≡◌, ◌≢◌, ℕ, ◌<◌, ◌∷◌, IsSome, [], slice_index_or, unwrap_or};
ghost use Rattle.word_rule.specs.May.{MayGive, MayTakeBody, MayReturnBody};
ghost use Rattle.word_rule.specs.Sorts.{lock_of, count_of, held_of, IsOf};
ghost use Rattle.word_rule.specs.Told.{TakeTold};
ghost use Rattle.word_steps.specs.Records.{Took, Gave, OutBody, HomeBody};
ghost use Rattle.word_steps.specs.declared.val.Val.{Val};
ghost use Rattle.word_table.specs.Layout.{word_at, slot_at, slot_of, BODY_SLOT};
ghost use Rattle.word_table.specs.Plays.{IsRest, IsHolding, trace_in, push, lift, lay};
ghost use Rattle.word_table.specs.Taken.{val_in_hand};
ghost use Rattle.word_table.specs.declared.slot.Slot.TheVariants.{Empty, Held};

use crate::layout::{BODY, BODY_SLOT, SLOTS, STRIDE};
use crate::lock::Lock;
use crate::plays::{Come, Give, Leave, Take};
use crate::resting::rest;
use crate::slot::Slot;
use crate::view::View;
use crate::words::Words;
use atomic_table::Seat;
use crossbeam_utils::Backoff;
use handoff_data::Kept;
use std::sync::Wait;
use word_steps::Val;

// The word of a lock.
fn word_of<L: Lock>(n: u32) -> usize
    ensures { result ≡ word_at n (lock_of L.sort) }
{
    STRIDE * n as usize + L::column()
}

/// The slot that a lock guards.
pub(crate) fn slot_under<L: Lock>(n: u32) -> usize
    ensures { result ≡ slot_at n (slot_of L.sort) }
{
    SLOTS * n as usize + L::slot()
}

// Tries to take a lock once: one exchange. It answers the word found, which is 0 where the lock was free. The value's
// slot is in the seat's hand then.
fn attempt<B: Kept, L: Lock>(
    words: &Words<B>,
    seat: &mut Seat<Slot<B>, View>,
    number: u32,
    n: u32,
) -> u64
    requires id { seat.old.table_id ≡ words.now.name }
    requires row { n < count_of L.sort words.now.shape }
    requires rest { IsRest seat.old.me number }
    ensures id { seat.new.table_id ≡ seat.old.table_id }
    ensures took { result ≡ 0 → (v : Val) × IsOf L.sort v
        × TakeTold seat.old.me.0.known.shape number (trace_in seat.old.me.0.parts) L.sort n v
        × (seat.new.me ≡ lift (slot_at n (slot_of L.sort)) (Held v) (push (Took n v) seat.old.me)) }
    ensures missed { result ≢ 0 → seat.new.me ≡ seat.old.me }
{
    words
        .table
        .shared
        .compare_exchange::<Take<L>>(seat, word_of::<L>(n), 0, 1 + number as u64)
}

// Tries until the lock is free, which another seat had, and rests before each try: who has the lock needs its word.
#[cold]
fn contend<B: Kept, L: Lock, R: Wait>(
    rt: &R,
    words: &Words<B>,
    seat: &mut Seat<Slot<B>, View>,
    number: u32,
    n: u32,
    found: u64,
)
    requires id { seat.old.table_id ≡ words.now.name }
    requires row { n < count_of L.sort words.now.shape }
    requires rest { IsRest seat.old.me number }
    ensures id { seat.new.table_id ≡ seat.old.table_id }
    ensures took { (v : Val) × IsOf L.sort v
        × TakeTold seat.old.me.0.known.shape number (trace_in seat.old.me.0.parts) L.sort n v
        × (seat.new.me ≡ lift (slot_at n (slot_of L.sort)) (Held v) (push (Took n v) seat.old.me)) }
{
    let backoff = Backoff::new();
    let mut found = found;
    for _ in rt.forever() {
        rest(rt, words, &backoff, n, L::column(), found);
        found = words.table.shared.peek(word_of::<L>(n));
        if found == 0 {
            found = attempt::<B, L>(words, seat, number, n);
            if found == 0 {
                return;
            }
        }
    }
    unreachable!()
}

/// Takes a lock, as a rule at the first try. The value's slot is in the seat's hand.
pub(crate) fn acquire<B: Kept, L: Lock, R: Wait>(
    rt: &R,
    words: &Words<B>,
    seat: &mut Seat<Slot<B>, View>,
    number: u32,
    n: u32,
)
    requires id { seat.old.table_id ≡ words.now.name }
    requires row { n < count_of L.sort words.now.shape }
    requires rest { IsRest seat.old.me number }
    ensures id { seat.new.table_id ≡ seat.old.table_id }
    ensures took { (v : Val) × IsOf L.sort v
        × TakeTold seat.old.me.0.known.shape number (trace_in seat.old.me.0.parts) L.sort n v
        × (seat.new.me ≡ lift (slot_at n (slot_of L.sort)) (Held v) (push (Took n v) seat.old.me)) }
{
    let found = attempt::<B, L>(words, seat, number, n);
    if found != 0 {
        contend::<B, L, R>(rt, words, seat, number, n, found);
    }
}

/// Gives a lock. Its value goes home as it lies in the seat's hand.
pub(crate) fn release<B: Kept, L: Lock>(
    words: &Words<B>,
    seat: &mut Seat<Slot<B>, View>,
    number: u32,
    n: u32,
)
    requires id { seat.old.table_id ≡ words.now.name }
    requires row { n < count_of L.sort words.now.shape }
    requires hand { IsHolding seat.old.me number (slot_at n (slot_of L.sort)) (Held (val_in_hand seat.old.me.1)) }
    requires held { IsSome (held_of L.sort (trace_in seat.old.me.0.parts) n) }
    requires may { MayGive number (trace_in seat.old.me.0.parts) words.now.shape L.sort n (val_in_hand seat.old.me.1) }
    ensures id { seat.new.table_id ≡ seat.old.table_id }
    ensures seat { seat.new.me
        ≡ lay
        (push (Gave n (unwrap_or (held_of L.sort (trace_in seat.old.me.0.parts) n) (val_in_hand seat.old.me.1))
        (val_in_hand seat.old.me.1)) seat.old.me) }
{
    words
        .table
        .shared
        .store::<Give<L>>(seat, word_of::<L>(n), 0);
}

/// Takes the body of a task out. Its slot stays in the seat's hand, empty.
pub(crate) fn take_body<B: Kept>(
    words: &Words<B>,
    seat: &mut Seat<Slot<B>, View>,
    number: u32,
    t: u32,
) -> B
    requires id { seat.old.table_id ≡ words.now.name }
    requires row { t < words.now.shape.tasks }
    requires rest { IsRest seat.old.me number }
    requires may { MayTakeBody number (trace_in seat.old.me.0.parts) t }
    ensures id { seat.new.table_id ≡ seat.old.table_id }
    ensures seat { seat.new.me ≡ lift (slot_at t BODY_SLOT) Empty (push (OutBody t (B.ended result)) seat.old.me) }
    ensures lasting { B.lasting result ≡ slice_index_or seat.old.me.0.known.lasting t [] }
{
    words
        .table
        .shared
        .load::<Leave>(seat, STRIDE * t as usize + BODY);
    let slot = words
        .table
        .shared
        .exchange(seat, SLOTS * t as usize + BODY_SLOT, Slot::Empty);
    let Slot::Body(body) = slot else {
        unreachable!()
    };
    body
}

/// Puts the body of a task home, whose slot is in the seat's hand.
pub(crate) fn put_body<B: Kept>(
    words: &Words<B>,
    seat: &mut Seat<Slot<B>, View>,
    number: u32,
    t: u32,
    body: B,
)
    requires id { seat.old.table_id ≡ words.now.name }
    requires row { t < words.now.shape.tasks }
    requires hand { IsHolding seat.old.me number (slot_at t BODY_SLOT) Empty }
    requires may { MayReturnBody number (trace_in seat.old.me.0.parts) t (B.ended body) }
    requires lasting { B.lasting body ≡ slice_index_or words.now.lasting t [] }
    ensures id { seat.new.table_id ≡ seat.old.table_id }
    ensures seat { seat.new.me ≡ lay (push (HomeBody t (B.ended body)) seat.old.me) }
{
    let slot = words
        .table
        .shared
        .exchange(seat, SLOTS * t as usize + BODY_SLOT, Slot::Body(body));
    let Slot::Empty = slot else { unreachable!() };
    words
        .table
        .shared
        .load::<Come>(seat, STRIDE * t as usize + BODY);
}
