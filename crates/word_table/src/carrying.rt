//! Locks taken and given, and bodies that leave and come home.
ghost use Rattle.std.specs.Prelude.{◌≡◌, ◌<◌, ◌∷◌, [], IsSome, slice_index_or, unwrap_or};
ghost use Rattle.word_rule.specs.May.{MayGive, MayTakeBody, MayReturnBody};
ghost use Rattle.word_rule.specs.Sorts.{count_of, held_of};
ghost use Rattle.word_rule.specs.Sorts.{IsOf as IsOfSort};
ghost use Rattle.word_rule.specs.Told.{TakeTold};
ghost use Rattle.word_steps.specs.Records.{Took, Gave, OutBody, HomeBody};
ghost use Rattle.word_table.specs.Taken.{IsLockOf};
ghost use Rattle.word_table.specs.Views.{IsOf, IsSame};

use crate::lock::Lock;
use crate::plays::{HandOver, TakeBack};
use crate::slot::Slot;
use crate::taken::{BodyOut, Taken};
use crate::token::Token;
use crate::values::{acquire, put_body, release, slot_under, take_body};
use crate::view::View;
use crate::words::Words;
use atomic_table::{Badge, Seat};
use handoff_data::Kept;
use std::mem;
use std::sync::Wait;

/// Waits until the lock of `n` is free, and takes it.
pub fn take<B: Kept, L: Lock, R: Wait>(
    rt: &R,
    words: &Words<B>,
    token: &mut Token,
    n: u32,
) -> Taken<B>
    requires of { IsOf words.now token.old }
    requires row { n < count_of L.sort words.now.shape }
    ensures same { IsSame token.old token.new }
    ensures trace { token.new.trace ≡ Took n result.val ∷ token.old.trace }
    ensures lock { IsLockOf words.now L.sort n result }
    ensures sort { IsOfSort L.sort result.val }
    ensures told { TakeTold words.now.shape token.old.seat token.old.trace L.sort n result.val }
{
    let mut seat: Seat<Slot<B>, View> = mem::replace(&mut token.badge, Badge::blank()).into_seat();
    acquire::<B, L, R>(rt, words, &mut seat, token.seat, n);
    let own = words.table.shared.split_seat::<HandOver>(&mut seat);
    token.badge = own.into_badge();
    Taken {
        seat,
        slot: slot_under::<L>(n),
    }
}

/// Gives the lock of `n`, with the value as it now lies.
pub fn give<B: Kept, L: Lock>(words: &Words<B>, token: &mut Token, n: u32, taken: Taken<B>)
    requires of { IsOf words.now token.old }
    requires row { n < count_of L.sort words.now.shape }
    requires lock { IsLockOf words.now L.sort n taken }
    requires held { IsSome (held_of L.sort token.old.trace n) }
    requires may { MayGive token.old.seat token.old.trace words.now.shape L.sort n taken.val }
    ensures same { IsSame token.old token.new }
    ensures trace { token.new.trace ≡ Gave n (unwrap_or (held_of L.sort token.old.trace n) taken.val) taken.val
        ∷ token.old.trace }
{
    let Taken { mut seat, slot: _ } = taken;
    let own: Seat<Slot<B>, View> = mem::replace(&mut token.badge, Badge::blank()).into_seat();
    words.table.shared.join_seat::<TakeBack>(&mut seat, own);
    release::<B, L>(words, &mut seat, token.seat, n);
    token.badge = seat.into_badge();
}

/// Takes the body of the current task out.
pub fn body_out<B: Kept>(words: &Words<B>, token: &mut Token, t: u32) -> BodyOut<B>
    requires of { IsOf words.now token.old }
    requires row { t < words.now.shape.tasks }
    requires may { MayTakeBody token.old.seat token.old.trace t }
    ensures same { IsSame token.old token.new }
    ensures trace { token.new.trace ≡ OutBody t (B.ended result.body) ∷ token.old.trace }
    ensures of { result.of ≡ words.now.name }
    ensures task { result.task ≡ t }
    ensures lasting { B.lasting result.body ≡ slice_index_or token.old.lasting t [] }
{
    let mut seat: Seat<Slot<B>, View> = mem::replace(&mut token.badge, Badge::blank()).into_seat();
    let body = take_body(words, &mut seat, token.seat, t);
    let own = words.table.shared.split_seat::<HandOver>(&mut seat);
    token.badge = own.into_badge();
    BodyOut {
        seat,
        task: t,
        body,
    }
}

/// Puts the body home. One that had ended has.
pub fn body_home<B: Kept>(words: &Words<B>, token: &mut Token, out: BodyOut<B>)
    requires of { IsOf words.now token.old }
    requires out_of { out.of ≡ words.now.name }
    requires row { out.task < words.now.shape.tasks }
    requires may { MayReturnBody token.old.seat token.old.trace out.task (B.ended out.body) }
    requires lasting { B.lasting out.body ≡ slice_index_or token.old.lasting out.task [] }
    ensures same { IsSame token.old token.new }
    ensures trace { token.new.trace ≡ HomeBody out.task (B.ended out.body) ∷ token.old.trace }
{
    let BodyOut {
        mut seat,
        task,
        body,
    } = out;
    let own: Seat<Slot<B>, View> = mem::replace(&mut token.badge, Badge::blank()).into_seat();
    words.table.shared.join_seat::<TakeBack>(&mut seat, own);
    put_body(words, &mut seat, token.seat, task, body);
    token.badge = seat.into_badge();
}
