//! Single steps on a word.
ghost use Rattle.std.specs.Prelude.{◌≡◌, ◌≢◌, ℕ, ◌+◌, ◌%◌, ◌*◌, ◌^◌, ◌∷◌, ◌<◌};
ghost use Rattle.word_steps.specs.Words.{STRIDE};
ghost use Rattle.word_table.specs.Layout.{rows_of};
ghost use Rattle.word_table.specs.Views.{IsOf, IsSame};

use crate::kind::Kind;
use crate::layout::STRIDE;
use crate::plays::{Adds, Loads, Stores, Tries};
use crate::slot::Slot;
use crate::token::Token;
use crate::view::View;
use crate::words::Words;
use atomic_table::{Badge, Seat};
use handoff_data::Kept;
use std::mem;

/// Loads the word of `n` in the column, with no seat. It tells nothing.
pub fn peek<B: Kept>(words: &Words<B>, n: u32, column: usize) -> u64
    requires row { n < rows_of words.now.shape }
    requires column { column < STRIDE }
{
    words.table.shared.peek(STRIDE * n as usize + column)
}

/// Loads the word of `n`.
pub fn load<B: Kept, K: Kind>(words: &Words<B>, token: &mut Token, n: u32) -> u64
    requires of { IsOf words.now token.old }
    requires row { n < K.bound words.now.shape }
    requires may { (x : ℕ) → K.may words.now.shape token.old.seat token.old.trace n x x }
    ensures same { IsSame token.old token.new }
    ensures trace { token.new.trace ≡ K.note token.old.seat token.old.trace n result result ∷ token.old.trace }
    ensures told { K.told words.now.shape token.old.seat token.old.trace n result }
{
    let mut seat: Seat<Slot<B>, View> = mem::replace(&mut token.badge, Badge::blank()).into_seat();
    let found = words
        .table
        .shared
        .load::<Loads<K>>(&mut seat, STRIDE * n as usize + K::column());
    token.badge = seat.into_badge();
    found
}

/// Stores the word of `n`.
pub fn store<B: Kept, K: Kind>(words: &Words<B>, token: &mut Token, n: u32, new: u64)
    requires of { IsOf words.now token.old }
    requires row { n < K.bound words.now.shape }
    requires may { (x : ℕ) → K.may words.now.shape token.old.seat token.old.trace n x new }
    requires plain { (x : ℕ)
        → K.note token.old.seat token.old.trace n new x ≡ K.note token.old.seat token.old.trace n new new }
    ensures same { IsSame token.old token.new }
    ensures trace { token.new.trace ≡ K.note token.old.seat token.old.trace n new new ∷ token.old.trace }
{
    let mut seat: Seat<Slot<B>, View> = mem::replace(&mut token.badge, Badge::blank()).into_seat();
    words
        .table
        .shared
        .store::<Stores<K>>(&mut seat, STRIDE * n as usize + K::column(), new);
    token.badge = seat.into_badge();
}

/// One compare-exchange on the word of `n`, which becomes `new` where it is `old`. It returns the word found.
pub fn exchange<B: Kept, K: Kind>(
    words: &Words<B>,
    token: &mut Token,
    n: u32,
    old: u64,
    new: u64,
) -> u64
    requires of { IsOf words.now token.old }
    requires row { n < K.bound words.now.shape }
    requires may { K.may words.now.shape token.old.seat token.old.trace n old new }
    ensures same { IsSame token.old token.new }
    ensures hit { result ≡ old → token.new.trace ≡ K.note token.old.seat token.old.trace n new old ∷ token.old.trace }
    ensures told { result ≡ old → K.told words.now.shape token.old.seat token.old.trace n old }
    ensures miss { result ≢ old → token.new.trace ≡ token.old.trace }
{
    let mut seat: Seat<Slot<B>, View> = mem::replace(&mut token.badge, Badge::blank()).into_seat();
    let found = words
        .table
        .shared
        .compare_exchange::<Tries<K>>(&mut seat, STRIDE * n as usize + K::column(), old, new);
    token.badge = seat.into_badge();
    found
}

/// Raises the word of `n` by one, modulo 2^64. It returns the word found.
pub fn fetch_add<B: Kept, K: Kind>(words: &Words<B>, token: &mut Token, n: u32) -> u64
    requires of { IsOf words.now token.old }
    requires row { n < K.bound words.now.shape }
    requires may { (x : ℕ) → K.may words.now.shape token.old.seat token.old.trace n x ((x + 1) % 2 ^ 64) }
    ensures same { IsSame token.old token.new }
    ensures trace { token.new.trace ≡ K.note token.old.seat token.old.trace n ((result + 1) % 2 ^ 64) result
        ∷ token.old.trace }
    ensures told { K.told words.now.shape token.old.seat token.old.trace n result }
{
    let mut seat: Seat<Slot<B>, View> = mem::replace(&mut token.badge, Badge::blank()).into_seat();
    let found = words
        .table
        .shared
        .fetch_add::<Adds<K>>(&mut seat, STRIDE * n as usize + K::column(), 1);
    token.badge = seat.into_badge();
    found
}
