//! A seat's journal is what was told before and the entries of its turn.
ghost use Rattle.std.specs.Prelude.{◌≡◌, ◌++◌, ◌<◌, slice_get};
ghost use Rattle.task_words.specs.Folds.{journal};
ghost use Rattle.task_words.specs.Seats.{IsBetween};
ghost use Rattle.task_words.specs.Views.{IsOf, IsOneSeat};

use handoff_data::Entry;
use std::process::Abort;
use std::sync::Wait;
use std::test::Fail;
use task_words::{Kept, Pass, Wk};
use uses_words::{one_seat, start};

// Starts the task 0 with an empty turn, whose entries are then all that the journal gained; the first of them.
fn told_by_start<B: Kept, R: Wait>(rt: &R, wk: &Wk<B>, pass: &mut Pass) -> Option<Entry>
    requires of { IsOf wk.now pass.old }
    requires processor { pass.old.seat < wk.now.shape.cpus }
    requires task { 0 < wk.now.shape.tasks }
    requires between { IsBetween pass.old }
    ensures same { IsOneSeat pass.old pass.new }
    ensures between { IsBetween pass.new }
    ensures tied { journal pass.new.seat pass.new.trace ≡ pass.new.told ++ pass.new.turn.entries }
    ensures gained { journal pass.new.seat pass.new.trace ≡ journal pass.old.seat pass.old.trace
        ++ pass.new.turn.entries }
    ensures first { result ≡ slice_get pass.new.turn.entries 0 }
{
    pass.clear_turn();
    // What it answers is tested elsewhere; here the journal alone.
    let _started = start(rt, wk, pass, 0, 0);
    pass.turn().get(0)
}

// A start adds its entry to the journal, and one that finds the task started adds none.
fn adds<B: Kept, R: Wait + Abort>(rt: &R, wk: &Wk<B>, pass: &mut Pass)
    requires of { IsOf wk.now pass.old }
    requires processor { pass.old.seat < wk.now.shape.cpus }
    requires task { 0 < wk.now.shape.tasks }
    requires between { IsBetween pass.old }
{
    let entry = Entry::New { t: 0, m: 1, c: 0 };
    assert!(rt; told_by_start(rt, wk, pass) == Some(entry));
    assert!(rt; told_by_start(rt, wk, pass).is_none());
}

#[test]
fn a_start_adds_its_turn_to_the_journal(rt: HostRuntime) -> Result<(), Fail> {
    let Some((wk, mut pass)) = one_seat(rt.alloc(), 1, 0, ()) else {
        return Err(Fail::from("no table"));
    };
    adds(&rt, &wk, &mut pass);
    Ok(())
}
