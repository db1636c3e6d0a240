//! A table is closed while a task sleeps.
ghost use Rattle.std.specs.Prelude.{◌≡◌, ◌<◌, true};
ghost use Rattle.task_words.specs.Seats.{IsBetween};
ghost use Rattle.task_words.specs.Views.{IsOf, IsOneSeat};

use crate::bump_and_wake;
use crate::wait_tests::sleep_new;
use handoff_data::State;
use std::alloc::Global;
use std::sync::Wait;
use std::test::Fail;
use task_words::{Closed, Kept, Pass, Wk};
use uses_words::{close_one, one_seat};

// The condition 0 is raised, and the task 1 sleeps at the condition 1, exclusively or not; whether it does.
fn sleeps<B: Kept, R: Wait>(rt: &R, wk: &Wk<B>, pass: &mut Pass, exclusive: bool) -> bool
    requires of { IsOf wk.now pass.old }
    requires processor { pass.old.seat < wk.now.shape.cpus }
    requires task { wk.now.shape.tasks ≡ 2 }
    requires conditions { wk.now.shape.conds ≡ 2 }
    requires between { IsBetween pass.old }
    ensures same { IsOneSeat pass.old pass.new }
    ensures between { result ≡ true → IsBetween pass.new }
{
    pass.clear_turn();
    bump_and_wake(rt, wk, pass, 0);
    sleep_new(rt, wk, pass, 1, 1, exclusive)
}

// What is left of a table in which the task 1 sleeps at the condition 1, and the task 0 was never started.
fn left_asleep<R: Wait>(rt: &R, alloc: Global, exclusive: bool) -> Result<Closed<()>, Fail> {
    let Some((wk, mut pass)) = one_seat(alloc, 2, 2, ()) else {
        return Err(Fail::from("no seat"));
    };
    if !sleeps(rt, &wk, &mut pass, exclusive) {
        return Err(Fail::from("it doesn't sleep"));
    }
    Ok(close_one(alloc, wk, pass)?)
}

#[test]
fn a_sleeper_and_its_condition_are_there_at_the_end(rt: HostRuntime) -> Result<(), Fail> {
    for exclusive in [false, true] {
        let closed = left_asleep(&rt, rt.alloc(), exclusive)?;
        assert!(rt; closed.states.len() == 2 && closed.conds.len() == 2);
        assert_eq!(rt; closed.states[0], State::TASK_NEW);
        assert_eq!(rt; closed.states[1], State::TASK_INTERRUPTIBLE);
        assert_eq!(rt; closed.conds[0], 1);
        assert_eq!(rt; closed.conds[1], 0);
    }
    Ok(())
}
