//! What each step tells.
ghost use Rattle.word_table.specs.Plays.{loaded, added, stored, tried, took, gave, left, came, entered, spent};
ghost use Rattle.word_table.specs.Ruled.{but_first, first_alone, joined, none_kept, all_given, taken_back};

use crate::kind::Kind;
use crate::lock::Lock;
use crate::slot::Slot;
use crate::view::View;
use atomic_table::{Join, Play, Split};
use handoff_data::Kept;
use std::marker::PhantomData;

pub struct Loads<K> {
    kind: PhantomData<K>,
}

impl<B, K: Kind> Play<Slot<B>, View> for Loads<K> {
    ghost then = { loaded K.col K.note K.told };
}

pub struct Adds<K> {
    kind: PhantomData<K>,
}

impl<B, K: Kind> Play<Slot<B>, View> for Adds<K> {
    ghost then = { added K.col K.note K.told };
}

pub struct Stores<K> {
    kind: PhantomData<K>,
}

impl<B, K: Kind> Play<Slot<B>, View> for Stores<K> {
    ghost then = { stored K.col K.note K.told };
}

pub struct Tries<K> {
    kind: PhantomData<K>,
}

impl<B, K: Kind> Play<Slot<B>, View> for Tries<K> {
    ghost then = { tried K.col K.note K.told };
}

pub struct Take<L> {
    lock: PhantomData<L>,
}

impl<B, L: Lock> Play<Slot<B>, View> for Take<L> {
    ghost then = { took L.sort };
}

pub struct Give<L> {
    lock: PhantomData<L>,
}

impl<B, L: Lock> Play<Slot<B>, View> for Give<L> {
    ghost then = { gave L.sort };
}

/// A body leaves its slot.
pub struct Leave;

impl<B: Kept> Play<Slot<B>, View> for Leave {
    ghost then = { left B.lasting B.ended };
}

/// A body comes home.
pub struct Come;

impl<B: Kept> Play<Slot<B>, View> for Come {
    ghost then = { came B.ended };
}

/// A seat hands its parts to a new one, and keeps the slot in its hand.
pub struct HandOver;

impl Split<View> for HandOver {
    ghost left = { none_kept };

    ghost right = { all_given };
}

/// A seat with no part takes those of another back.
pub struct TakeBack;

impl Join<View> for TakeBack {
    ghost both = { taken_back };

    ghost spent = { spent };
}

/// Splits the first part off a seat's view.
pub struct Deal;

impl Split<View> for Deal {
    ghost left = { but_first };

    ghost right = { first_alone };
}

/// Joins the parts of two seats.
pub struct Gather;

impl Join<View> for Gather {
    ghost both = { joined };

    ghost spent = { spent };
}

/// A seat with no part.
pub struct Enter;

impl<B> Play<Slot<B>, View> for Enter {
    ghost then = { entered };
}
