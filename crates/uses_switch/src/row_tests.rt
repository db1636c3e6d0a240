//! What switches and sleeps answer, and which entries they make.
ghost use Rattle.std.specs.Prelude.{◌≡◌, ◌<◌};
ghost use Rattle.task_words.specs.Views.{IsOf};
ghost use Rattle.uses_switch.specs.Seated.{IsIdle};

use crate::bodies::Turns;
use crate::life::{live, run_new};
use crate::seats::{one_seat, two_seats};
use handoff_data::{Entry, State};
use run_queue::start;
use sched_switch::{Next, Slept, Switch, schedule, sleep_on};
use std::process::Abort;
use std::sync::Wait;
use std::test::Fail;
use task_words::{Kept, Pass, Turn, Wk, bump_cond, load_cond, load_state};
use ttwu_core::{Wake, wake};
use wait_queue::wake_all;

// Whether the turn has these two entries and no more.
fn has_two(turn: &Turn, first: Entry, second: Entry) -> bool {
    turn.get(0) == Some(first) && turn.get(1) == Some(second) && turn.get(2).is_none()
}

// A task that is alone stays current: it is put back and picked again at once, and makes no entry.
fn stays<B: Kept, R: Wait + Abort>(rt: &R, wk: &Wk<B>, pass: &mut Pass)
    requires of { IsOf wk.now pass.old }
    requires processor { pass.old.seat < wk.now.shape.cpus }
    requires task { 0 < wk.now.shape.tasks }
    requires idle { IsIdle pass.old }
{
    assert!(rt; run_new(rt, wk, pass, 0));
    pass.clear_turn();
    assert_eq!(rt; schedule(rt, wk, pass, Next::Task), Switch::Running(0));
    assert!(rt; pass.turn().get(0).is_none());
    // Put back for nobody, it leaves, and is picked anew.
    assert_eq!(rt; schedule(rt, wk, pass, Next::Nobody), Switch::Nobody);
    assert_eq!(rt; schedule(rt, wk, pass, Next::Task), Switch::Running(0));
    let left = Entry::Finish { t: 0, n: 2, c: 0 };
    let back = Entry::Pick { t: 0, n: 3, c: 0 };
    assert!(rt; has_two(pass.turn(), left, back));
}

// Two tasks take turns in the order in which they were started.
fn take_turns<B: Kept, R: Wait + Abort>(rt: &R, wk: &Wk<B>, pass: &mut Pass)
    requires of { IsOf wk.now pass.old }
    requires processor { pass.old.seat < wk.now.shape.cpus }
    requires tasks { wk.now.shape.tasks ≡ 2 }
    requires idle { IsIdle pass.old }
{
    pass.clear_turn();
    let c = pass.seat();
    start(rt, wk, pass, 0, c);
    pass.clear_turn();
    start(rt, wk, pass, 1, c);
    pass.clear_turn();
    assert_eq!(rt; schedule(rt, wk, pass, Next::Task), Switch::Running(0));
    pass.clear_turn();
    assert_eq!(rt; schedule(rt, wk, pass, Next::Task), Switch::Running(1));
    let left = Entry::Finish { t: 0, n: 2, c: 0 };
    let next = Entry::Pick { t: 1, n: 1, c: 0 };
    assert!(rt; has_two(pass.turn(), left, next));
    pass.clear_turn();
    assert_eq!(rt; schedule(rt, wk, pass, Next::Task), Switch::Running(0));
    let left = Entry::Finish { t: 1, n: 2, c: 0 };
    let next = Entry::Pick { t: 0, n: 3, c: 0 };
    assert!(rt; has_two(pass.turn(), left, next));
}

// Nothing is in the queue, and nobody is asked for: neither makes an entry.
fn finds_none<B: Kept, R: Wait + Abort>(rt: &R, wk: &Wk<B>, pass: &mut Pass)
    requires of { IsOf wk.now pass.old }
    requires processor { pass.old.seat < wk.now.shape.cpus }
    requires idle { IsIdle pass.old }
{
    pass.clear_turn();
    assert_eq!(rt; schedule(rt, wk, pass, Next::Task), Switch::Idle);
    assert_eq!(rt; schedule(rt, wk, pass, Next::Nobody), Switch::Nobody);
    assert!(rt; pass.turn().get(0).is_none());
}

// A sleeper finds its condition raised, and is current still, with no entry left at the condition.
fn finds_changed<B: Kept, R: Wait + Abort>(rt: &R, wk: &Wk<B>, pass: &mut Pass, other: &mut Pass)
    requires of { IsOf wk.now pass.old × IsOf wk.now other.old }
    requires processor { pass.old.seat < wk.now.shape.cpus }
    requires tasks { wk.now.shape.tasks ≡ 1 }
    requires conditions { wk.now.shape.conds ≡ 2 }
    requires idle { IsIdle pass.old × IsIdle other.old }
{
    assert!(rt; run_new(rt, wk, pass, 0));
    assert_eq!(rt; load_cond(wk, pass, 0), 0);
    bump_cond(wk, other, 0);
    pass.clear_turn();
    assert_eq!(rt; sleep_on(rt, wk, pass, 0, 0), Slept::Changed { now: 1 });
    assert_eq!(rt; pass.current(), Some(0));
    assert_eq!(rt; load_state(wk, pass, 0), State::TASK_RUNNING);
    assert!(rt; pass.turn().get(0).is_none());
    other.clear_turn();
    assert_eq!(rt; wake_all(rt, wk, other, 0), 0);
    assert!(rt; other.turn().get(0).is_none());
}

// A task sleeps at a condition that is as it was read.
fn sleeps<B: Kept, R: Wait + Abort>(rt: &R, wk: &Wk<B>, pass: &mut Pass)
    requires of { IsOf wk.now pass.old }
    requires processor { pass.old.seat < wk.now.shape.cpus }
    requires task { 0 < wk.now.shape.tasks }
    requires condition { 0 < wk.now.shape.conds }
    requires idle { IsIdle pass.old }
{
    assert!(rt; run_new(rt, wk, pass, 0));
    pass.clear_turn();
    assert_eq!(rt; sleep_on(rt, wk, pass, 0, 0), Slept::Slept { m: 2 });
    let asleep = Entry::Sleep { t: 0, m: 2, c: 0 };
    let left = Entry::Finish { t: 0, n: 2, c: 0 };
    assert!(rt; has_two(pass.turn(), asleep, left));
    pass.clear_turn();
    assert_eq!(rt; schedule(rt, wk, pass, Next::Task), Switch::Idle);
}

// A task lives and dies, and nobody wakes it then.
fn dies<R: Wait + Abort>(rt: &R, wk: &Wk<Turns>, own: &mut Pass, other: &mut Pass)
    requires of { IsOf wk.now own.old × IsOf wk.now other.old }
    requires processor { own.old.seat < wk.now.shape.cpus }
    requires task { 0 < wk.now.shape.tasks }
    requires condition { 0 < wk.now.shape.conds }
    requires idle { IsIdle own.old × IsIdle other.old }
{
    assert!(rt; live(rt, wk, own, other, 0, 0));
    let death = Entry::Die { t: 0, m: 4, c: 0 };
    let left = Entry::Finish { t: 0, n: 4, c: 0 };
    assert!(rt; has_two(own.turn(), death, left));
    other.clear_turn();
    let seen = State::TASK_DEAD;
    assert_eq!(rt;
        wake(rt, wk, other, 0, State::TASK_NORMAL),
        Wake::NoMatch { seen }
    );
}

#[test]
fn a_task_alone_is_picked_again_without_an_entry(rt: HostRuntime) -> Result<(), Fail> {
    let (wk, mut pass) = one_seat(rt.alloc(), 1)?;
    stays(&rt, &wk, &mut pass);
    Ok(())
}

#[test]
fn two_tasks_take_turns(rt: HostRuntime) -> Result<(), Fail> {
    let (wk, mut pass) = one_seat(rt.alloc(), 2)?;
    take_turns(&rt, &wk, &mut pass);
    Ok(())
}

#[test]
fn an_empty_queue_is_idle(rt: HostRuntime) -> Result<(), Fail> {
    let (wk, mut pass) = one_seat(rt.alloc(), 1)?;
    finds_none(&rt, &wk, &mut pass);
    Ok(())
}

#[test]
fn a_sleeper_whose_condition_has_changed_stays(rt: HostRuntime) -> Result<(), Fail> {
    let (wk, mut pass, mut other) = two_seats(rt.alloc())?;
    finds_changed(&rt, &wk, &mut pass, &mut other);
    Ok(())
}

#[test]
fn a_task_sleeps(rt: HostRuntime) -> Result<(), Fail> {
    let (wk, mut pass) = one_seat(rt.alloc(), 1)?;
    sleeps(&rt, &wk, &mut pass);
    Ok(())
}

#[test]
fn a_task_lives_and_dies_and_is_not_woken(rt: HostRuntime) -> Result<(), Fail> {
    let (wk, mut own, mut other) = two_seats(rt.alloc())?;
    dies(&rt, &wk, &mut own, &mut other);
    Ok(())
}
