//! Whom a mask wakes, and that nothing wakes a task that is dead.
ghost use Rattle.std.specs.Prelude.{◌≡◌, ◌<◌, true, Some};
ghost use Rattle.task_words.specs.Folds.{ended_known};
ghost use Rattle.task_words.specs.Seats.{IsBetween, IsRunning};
ghost use Rattle.task_words.specs.States.{IsWakeMask};
ghost use Rattle.task_words.specs.Views.{IsOf, IsSame, IsOneSeat};

use crate::wait_tests::run_new;
use crate::wake_by;
use handoff_data::{State, TaskNo};
use std::process::Abort;
use std::sync::Wait;
use std::test::Fail;
use task_words::{Kept, Pass, Wk, body_home, body_out, set_state};
use ttwu_core::{How, Wake};
use uses_words::{die, switch_out, two_seats};

// Takes the body of the current task out and home, which has ended from the start.
fn end_body(wk: &Wk<()>, pass: &mut Pass, t: TaskNo)
    requires of { IsOf wk.now pass.old }
    requires running { IsRunning t pass.old }
    ensures same { IsSame pass.old pass.new }
    ensures running { IsRunning t pass.new }
    ensures ended { ended_known pass.new.trace t ≡ Some true }
{
    let out = body_out(wk, pass);
    body_home(wk, pass, out);
}

// What another seat's wake by a mask answers.
fn answer<B: Kept, R: Wait>(rt: &R, wk: &Wk<B>, pass: &mut Pass, mask: State) -> Wake
    requires of { IsOf wk.now pass.old }
    requires task { 0 < wk.now.shape.tasks }
    requires mask { IsWakeMask mask }
    requires between { IsBetween pass.old }
    ensures same { IsOneSeat pass.old pass.new }
    ensures between { IsBetween pass.new }
{
    pass.clear_turn();
    wake_by(rt, wk, pass, 0, mask)
}

// The task 0 sleeps, still queued, in TASK_UNINTERRUPTIBLE, and then off its queue in TASK_INTERRUPTIBLE.
fn masks<B: Kept, R: Wait + Abort>(rt: &R, wk: &Wk<B>, own: &mut Pass, other: &mut Pass)
    requires of { IsOf wk.now own.old }
    requires of_other { IsOf wk.now other.old }
    requires processor { own.old.seat < wk.now.shape.cpus }
    requires task { 0 < wk.now.shape.tasks }
    requires between { IsBetween own.old }
    requires between_other { IsBetween other.old }
{
    assert!(rt; run_new(rt, wk, own, 0));
    set_state(wk, own, State::TASK_UNINTERRUPTIBLE);
    let seen = State::TASK_UNINTERRUPTIBLE;
    let interrupt = State::TASK_INTERRUPTIBLE;
    assert_eq!(rt; answer(rt, wk, other, interrupt), Wake::NoMatch { seen });
    assert_eq!(rt;
        answer(rt, wk, other, State::TASK_WAKEKILL),
        Wake::NoMatch { seen }
    );
    let how = How::Runnable;
    assert_eq!(rt;
        answer(rt, wk, other, State::TASK_KILLABLE),
        Wake::Woke { how }
    );
    set_state(wk, own, State::TASK_INTERRUPTIBLE);
    own.clear_turn();
    assert!(rt; switch_out(rt, wk, own, 0));
    let seen = State::TASK_INTERRUPTIBLE;
    assert_eq!(rt;
        answer(rt, wk, other, State::TASK_KILLABLE),
        Wake::NoMatch { seen }
    );
    let how = How::Queued(0);
    assert_eq!(rt; answer(rt, wk, other, State(0x101)), Wake::Woke { how });
}

// The task 0 dies, and is not woken by any bit.
fn dead<R: Wait + Abort>(rt: &R, wk: &Wk<()>, own: &mut Pass, other: &mut Pass)
    requires of { IsOf wk.now own.old }
    requires of_other { IsOf wk.now other.old }
    requires processor { own.old.seat < wk.now.shape.cpus }
    requires task { 0 < wk.now.shape.tasks }
    requires between { IsBetween own.old }
    requires between_other { IsBetween other.old }
{
    assert!(rt; run_new(rt, wk, own, 0));
    end_body(wk, own, 0);
    own.clear_turn();
    die(rt, wk, own, 0);
    let seen = State::TASK_DEAD;
    assert_eq!(rt;
        answer(rt, wk, other, State::TASK_NORMAL),
        Wake::NoMatch { seen }
    );
    assert_eq!(rt; answer(rt, wk, own, State(0x103)), Wake::NoMatch { seen });
}

#[test]
fn a_mask_wakes_the_states_that_it_has_a_bit_of(rt: HostRuntime) -> Result<(), Fail> {
    let Some((wk, mut own, mut other)) = two_seats(rt.alloc(), 1, 0, ()) else {
        return Err(Fail::from("no table"));
    };
    masks(&rt, &wk, &mut own, &mut other);
    Ok(())
}

#[test]
fn nothing_wakes_a_dead_task(rt: HostRuntime) -> Result<(), Fail> {
    let Some((wk, mut own, mut other)) = two_seats(rt.alloc(), 1, 0, ()) else {
        return Err(Fail::from("no table"));
    };
    dead(&rt, &wk, &mut own, &mut other);
    Ok(())
}
