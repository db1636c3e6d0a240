//! What starts and wake-ups answer.
ghost use Rattle.std.specs.Prelude.{◌<◌};
ghost use Rattle.task_words.specs.Seats.{IsBetween};
ghost use Rattle.task_words.specs.Views.{IsOf};

use crate::running::wake_own;
use crate::wake;
use handoff_data::State;
use run_queue::Start;
use std::process::Abort;
use std::sync::Wait;
use std::test::Fail;
use task_words::{Kept, Pass, Wk, set_state};
use ttwu_core::{How, Wake};
use uses_words::{one_seat, pick, start, switch_out, two_seats};

// Starts the task 0 on the processor 0, which then runs it. It is woken by its own seat, by another while it is still
// queued, and by another once it has left its queue.
fn wakes<B: Kept, R: Wait + Abort>(rt: &R, wk: &Wk<B>, own: &mut Pass, other: &mut Pass)
    requires of { IsOf wk.now own.old }
    requires of_other { IsOf wk.now other.old }
    requires processor { own.old.seat < wk.now.shape.cpus }
    requires task { 0 < wk.now.shape.tasks }
    requires between { IsBetween own.old }
    requires between_other { IsBetween other.old }
{
    own.clear_turn();
    other.clear_turn();
    assert_eq!(rt; start(rt, wk, own, 0, 0), Start::Started { m: 1 });
    assert!(rt; own.spare() >= 12);
    let Some(t) = pick(rt, wk, own) else {
        assert!(rt; false);
        return;
    };
    assert_eq!(rt; t, 0);
    set_state(wk, own, State::TASK_INTERRUPTIBLE);
    assert!(rt; own.spare() >= 8);
    assert_eq!(rt; wake_own(wk, own, t), Wake::Woke { how: How::Own });
    set_state(wk, own, State::TASK_INTERRUPTIBLE);
    assert_eq!(rt; wake(rt, wk, other, t), Wake::Woke { how: How::Runnable });
    set_state(wk, own, State::TASK_INTERRUPTIBLE);
    assert!(rt; own.spare() >= 12);
    assert!(rt; switch_out(rt, wk, own, t));
    other.clear_turn();
    assert_eq!(rt;
        wake(rt, wk, other, t),
        Wake::Woke {
            how: How::Queued(0)
        }
    );
}

// The task 0 is not woken while it is new, and started once.
fn starts<B: Kept, R: Wait + Abort>(rt: &R, wk: &Wk<B>, pass: &mut Pass)
    requires of { IsOf wk.now pass.old }
    requires processor { pass.old.seat < wk.now.shape.cpus }
    requires task { 0 < wk.now.shape.tasks }
    requires between { IsBetween pass.old }
{
    pass.clear_turn();
    let seen = State::TASK_NEW;
    assert_eq!(rt; wake(rt, wk, pass, 0), Wake::NoMatch { seen });
    pass.clear_turn();
    assert_eq!(rt; start(rt, wk, pass, 0, 0), Start::Started { m: 1 });
    pass.clear_turn();
    let seen = State(0x0);
    assert_eq!(rt; start(rt, wk, pass, 0, 0), Start::NotNew { seen });
}

#[test]
fn a_new_task_is_started_once_and_not_woken_before(rt: HostRuntime) -> Result<(), Fail> {
    let Some((wk, mut pass)) = one_seat(rt.alloc(), 1, 0, ()) else {
        return Err(Fail::from("no table"));
    };
    starts(&rt, &wk, &mut pass);
    Ok(())
}

#[test]
fn a_wake_tells_how_it_found_the_task(rt: HostRuntime) -> Result<(), Fail> {
    let Some((wk, mut own, mut other)) = two_seats(rt.alloc(), 1, 0, ()) else {
        return Err(Fail::from("no table"));
    };
    wakes(&rt, &wk, &mut own, &mut other);
    Ok(())
}
