//! Wait queues, by the steps of one or two seats.
ghost use Rattle.std.specs.Prelude.{◌≡◌, ◌<◌, true};
ghost use Rattle.task_words.specs.Seats.{IsBetween, IsRunning};
ghost use Rattle.task_words.specs.Views.{IsOf, IsOneSeat};

use crate::running::{self, finish, prepare};
use crate::{bump_and_wake, wake_all, wake_some};
use handoff_data::{CondNo, State, TaskNo};
use run_queue::Start;
use std::process::Abort;
use std::sync::Wait;
use std::test::Fail;
use task_words::{Kept, Pass, Wk, bump_cond, load_cond, load_state};
use uses_words::{one_seat, pick, start, switch_out, two_seats};

/// Starts a task on the processor 0, which picks it; whether it then runs.
pub fn run_new<B: Kept, R: Wait>(rt: &R, wk: &Wk<B>, pass: &mut Pass, t: TaskNo) -> bool
    requires of { IsOf wk.now pass.old }
    requires processor { pass.old.seat < wk.now.shape.cpus }
    requires task { t < wk.now.shape.tasks }
    requires between { IsBetween pass.old }
    ensures same { IsOneSeat pass.old pass.new }
    ensures running { result ≡ true → IsRunning t pass.new }
{
    pass.clear_turn();
    let Start::Started { m: 1 } = start(rt, wk, pass, t, 0) else {
        return false;
    };
    if pass.spare() < 8 {
        return false;
    }
    let Some(next) = pick(rt, wk, pass) else {
        return false;
    };
    next == t
}

/// Starts a task, which then sleeps at a condition that nobody has raised; whether it sleeps.
pub fn sleep_new<B: Kept, R: Wait>(
    rt: &R,
    wk: &Wk<B>,
    pass: &mut Pass,
    t: TaskNo,
    k: CondNo,
    exclusive: bool,
) -> bool
    requires of { IsOf wk.now pass.old }
    requires processor { pass.old.seat < wk.now.shape.cpus }
    requires task { t < wk.now.shape.tasks }
    requires condition { k < wk.now.shape.conds }
    requires between { IsBetween pass.old }
    ensures same { IsOneSeat pass.old pass.new }
    ensures between { result ≡ true → IsBetween pass.new }
{
    if !run_new(rt, wk, pass, t) {
        return false;
    }
    prepare(rt, wk, pass, t, k, exclusive);
    if load_cond(wk, pass, k) != 0 || pass.spare() < 12 {
        return false;
    }
    switch_out(rt, wk, pass, t)
}

// Whether the first two tasks run, and the third sleeps.
fn first_two_run<B: Kept>(wk: &Wk<B>, pass: &mut Pass) -> bool
    requires of { IsOf wk.now pass.old }
    requires tasks { 2 < wk.now.shape.tasks }
    requires between { IsBetween pass.old }
    ensures same { IsOneSeat pass.old pass.new }
    ensures between { IsBetween pass.new }
{
    let states = [
        load_state(wk, pass, 0),
        load_state(wk, pass, 1),
        load_state(wk, pass, 2),
    ];
    states
        == [
            State::TASK_RUNNING,
            State::TASK_RUNNING,
            State::TASK_INTERRUPTIBLE,
        ]
}

// Three tasks sleep at the condition 0, the second and the third exclusively, and are woken in this order.
fn walks<B: Kept, R: Wait + Abort>(rt: &R, wk: &Wk<B>, pass: &mut Pass)
    requires of { IsOf wk.now pass.old }
    requires processor { pass.old.seat < wk.now.shape.cpus }
    requires tasks { wk.now.shape.tasks ≡ 3 }
    requires condition { 0 < wk.now.shape.conds }
    requires between { IsBetween pass.old }
{
    assert!(rt; sleep_new(rt, wk, pass, 0, 0, false));
    assert!(rt; sleep_new(rt, wk, pass, 1, 0, true));
    assert!(rt; sleep_new(rt, wk, pass, 2, 0, true));
    pass.clear_turn();
    assert_eq!(rt; wake_some(rt, wk, pass, 0, 1), 2);
    assert!(rt; first_two_run(wk, pass));
    pass.clear_turn();
    assert_eq!(rt; bump_and_wake(rt, wk, pass, 0), 1);
    assert_eq!(rt; load_state(wk, pass, 2), State::TASK_RUNNING);
    pass.clear_turn();
    assert_eq!(rt; bump_and_wake(rt, wk, pass, 0), 0);
    assert_eq!(rt; load_cond(wk, pass, 0), 2);
}

// A task finds its condition raised by another seat, and leaves the wait queue before that seat walks along it.
fn finishes<B: Kept, R: Wait + Abort>(rt: &R, wk: &Wk<B>, pass: &mut Pass, other: &mut Pass)
    requires of { IsOf wk.now pass.old }
    requires of_other { IsOf wk.now other.old }
    requires processor { pass.old.seat < wk.now.shape.cpus }
    requires tasks { wk.now.shape.tasks ≡ 1 }
    requires condition { 0 < wk.now.shape.conds }
    requires between { IsBetween pass.old }
    requires between_other { IsBetween other.old }
{
    assert!(rt; run_new(rt, wk, pass, 0));
    prepare(rt, wk, pass, 0, 0, false);
    bump_cond(wk, other, 0);
    assert_eq!(rt; load_cond(wk, pass, 0), 1);
    assert_eq!(rt; load_state(wk, pass, 0), State::TASK_INTERRUPTIBLE);
    finish(rt, wk, pass, 0, 0);
    assert_eq!(rt; load_state(wk, pass, 0), State::TASK_RUNNING);
    other.clear_turn();
    assert_eq!(rt; wake_all(rt, wk, other, 0), 0);
    assert!(rt; other.turn().get(0).is_none());
}

// A task walks along the wait queue in which it stands.
fn wakes_itself<B: Kept, R: Wait + Abort>(rt: &R, wk: &Wk<B>, pass: &mut Pass)
    requires of { IsOf wk.now pass.old }
    requires processor { pass.old.seat < wk.now.shape.cpus }
    requires tasks { wk.now.shape.tasks ≡ 1 }
    requires condition { 0 < wk.now.shape.conds }
    requires between { IsBetween pass.old }
{
    assert!(rt; run_new(rt, wk, pass, 0));
    prepare(rt, wk, pass, 0, 0, true);
    pass.clear_turn();
    assert_eq!(rt; running::wake_all(rt, wk, pass, 0, 0), 1);
    assert_eq!(rt; load_state(wk, pass, 0), State::TASK_RUNNING);
    // Without a claim or a queueing, of which a journal would tell.
    assert!(rt; pass.turn().get(0).is_none());
}

#[test]
fn a_walk_wakes_as_many_exclusive_entries_as_it_is_asked(rt: HostRuntime) -> Result<(), Fail> {
    let Some((wk, mut pass)) = one_seat(rt.alloc(), 3, 1, ()) else {
        return Err(Fail::from("no table"));
    };
    walks(&rt, &wk, &mut pass);
    Ok(())
}

#[test]
fn a_task_that_finds_its_condition_raised_leaves_its_wait_queue(
    rt: HostRuntime,
) -> Result<(), Fail> {
    let Some((wk, mut pass, mut other)) = two_seats(rt.alloc(), 1, 1, ()) else {
        return Err(Fail::from("no table"));
    };
    finishes(&rt, &wk, &mut pass, &mut other);
    Ok(())
}

#[test]
fn a_walk_wakes_the_task_that_makes_it(rt: HostRuntime) -> Result<(), Fail> {
    let Some((wk, mut pass)) = one_seat(rt.alloc(), 1, 1, ()) else {
        return Err(Fail::from("no table"));
    };
    wakes_itself(&rt, &wk, &mut pass);
    Ok(())
}
