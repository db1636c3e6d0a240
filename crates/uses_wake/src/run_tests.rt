//! A task is queued, picked, run and put back on the smallest shape.
ghost use Rattle.std.specs.Prelude.{◌≡◌, ◌<◌, true};
ghost use Rattle.task_words.specs.Seats.{IsBetween};
ghost use Rattle.task_words.specs.Views.{IsOf, IsOneSeat};

use handoff_data::{Entry, State};
use run_queue::Start;
use std::alloc::Global;
use std::sync::Wait;
use std::test::Fail;
use task_words::{Kept, Pass, Wk};
use uses_words::{close_one, one_seat, pick, put_back, run, start, start_new};

// Queues the task 0, which is started or stays new; whether it was new.
fn queue<B: Kept, R: Wait>(rt: &R, wk: &Wk<B>, pass: &mut Pass, starts: bool) -> bool
    requires of { IsOf wk.now pass.old }
    requires between { IsBetween pass.old }
    requires task { 0 < wk.now.shape.tasks }
    requires processor { 0 < wk.now.shape.cpus }
    ensures same { IsOneSeat pass.old pass.new }
    ensures between { IsBetween pass.new }
{
    if pass.spare() < 8 {
        return false;
    }
    if starts {
        start(rt, wk, pass, 0, 0) == Start::Started { m: 1 }
    } else {
        start_new(rt, wk, pass, 0)
    }
}

// Queues the task 0, picks it, runs it once and puts it back, all by the steps of one seat; whether each step found
// what it should.
fn ran<B: Kept, R: Wait>(rt: &R, wk: &Wk<B>, pass: &mut Pass, starts: bool) -> bool
    requires of { IsOf wk.now pass.old }
    requires between { IsBetween pass.old }
    requires task { 0 < wk.now.shape.tasks }
    requires processor { pass.old.seat < wk.now.shape.cpus }
    ensures same { IsOneSeat pass.old pass.new }
    ensures between { result ≡ true → IsBetween pass.new }
{
    if !queue(rt, wk, pass, starts) || pass.spare() < 8 {
        return false;
    }
    let Some(t) = pick(rt, wk, pass) else {
        return false;
    };
    run(wk, pass, t);
    pass.spare() >= 8 && put_back(rt, wk, pass, t)
}

// Whether a turn has these entries and no more.
fn has_told(pass: &Pass) -> bool {
    let turn = pass.turn();
    turn.get(0) == Some(Entry::New { t: 0, m: 1, c: 0 })
        && turn.get(1) == Some(Entry::Pick { t: 0, n: 1, c: 0 })
        && turn.get(2) == Some(Entry::Finish { t: 0, n: 2, c: 0 })
        && turn.get(3).is_none()
}

// The states that are left of a table in which the only task ran once.
fn states_left<R: Wait>(rt: &R, alloc: Global, starts: bool) -> Result<Vec<State>, Fail> {
    let Some((wk, mut pass)) = one_seat(alloc, 1, 0, ()) else {
        return Err(Fail::from("no seat"));
    };
    if !ran(rt, &wk, &mut pass, starts) || !has_told(&pass) {
        return Err(Fail::from("another step or entry"));
    }
    Ok(close_one(alloc, wk, pass)?.states)
}

#[test]
fn a_task_runs_once(rt: HostRuntime) -> Result<(), Fail> {
    let states = states_left(&rt, rt.alloc(), true)?;
    assert!(rt; states.len() == 1);
    assert!(rt; states[0] == State::TASK_RUNNING);
    Ok(())
}

#[test]
fn a_new_task_runs_and_stays_new(rt: HostRuntime) -> Result<(), Fail> {
    let states = states_left(&rt, rt.alloc(), false)?;
    assert!(rt; states.len() == 1);
    assert!(rt; states[0] == State::TASK_NEW);
    Ok(())
}
