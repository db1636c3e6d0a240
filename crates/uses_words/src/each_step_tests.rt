//! Each step is made once, by two seats in turn: the entries that they make are those of the story.
ghost use Rattle.std.specs.Prelude.{◌≡◌, ◌<◌, true};
ghost use Rattle.task_words.specs.Seats.{IsBetween, IsRunning};
ghost use Rattle.task_words.specs.Views.{IsOf, IsOneSeat};

use crate::single_steps::{sleep, wake};
use crate::{
    Turns, close_both, copy_wake_cpu, count_works, die, move_to, pick, put_back, run_turn, start,
    start_new, swap_wake_cpus, switch_out, two_seats,
};
use handoff_data::{Entry, NoMemory, State};
use run_queue::Start;
use std::alloc::Global;
use std::sync::Wait;
use std::test::Fail;
use task_words::{Closed, Pass, Turn, Wk, bump_cond, load_cond, set_state};

// The task 0 is started and 1 is queued as new, which then goes to the processor 1; whether each step found that.
fn begin<R: Wait>(rt: &R, wk: &Wk<Turns>, pass: &mut Pass) -> bool
    requires of { IsOf wk.now pass.old }
    requires tasks { 1 < wk.now.shape.tasks }
    requires processors { 1 < wk.now.shape.cpus }
    requires between { IsBetween pass.old }
    ensures same { IsOneSeat pass.old pass.new }
    ensures between { IsBetween pass.new }
{
    if pass.spare() < 8 || start(rt, wk, pass, 0, 0) != (Start::Started { m: 1 }) {
        return false;
    }
    if pass.spare() < 8 || !start_new(rt, wk, pass, 1) {
        return false;
    }
    pass.spare() >= 12 && move_to(rt, wk, pass, 1, 1)
}

// The hints of both tasks are copied and swapped, and nobody has posted a stop work.
fn hint<R: Wait>(rt: &R, wk: &Wk<Turns>, pass: &mut Pass) -> bool
    requires of { IsOf wk.now pass.old }
    requires tasks { 1 < wk.now.shape.tasks }
    requires processors { 1 < wk.now.shape.cpus }
    requires between { IsBetween pass.old }
    ensures same { IsOneSeat pass.old pass.new }
    ensures between { IsBetween pass.new }
{
    copy_wake_cpu(rt, wk, pass, 0, 1);
    swap_wake_cpus(rt, wk, pass, 1, 0);
    count_works(rt, wk, pass, 1) == 0
}

// The task 0 runs for a turn, and sleeps until the condition 0 changes.
fn rest<R: Wait>(rt: &R, wk: &Wk<Turns>, pass: &mut Pass) -> bool
    requires of { IsOf wk.now pass.old }
    requires processor { pass.old.seat < wk.now.shape.cpus }
    requires conditions { 0 < wk.now.shape.conds }
    requires between { IsBetween pass.old }
    ensures same { IsOneSeat pass.old pass.new }
    ensures between { result ≡ true → IsBetween pass.new }
{
    if pass.spare() < 8 {
        return false;
    }
    let Some(t) = pick(rt, wk, pass) else {
        return false;
    };
    run_turn(wk, pass, t);
    let seen = load_cond(wk, pass, 0);
    pass.spare() >= 12 && sleep(rt, wk, pass, t, 0, seen)
}

// The condition changes, and the task 0 is woken on the processor 1.
fn rouse<R: Wait>(rt: &R, wk: &Wk<Turns>, pass: &mut Pass) -> bool
    requires of { IsOf wk.now pass.old }
    requires tasks { 1 < wk.now.shape.tasks }
    requires processors { 1 < wk.now.shape.cpus }
    requires conditions { 0 < wk.now.shape.conds }
    requires between { IsBetween pass.old }
    ensures same { IsOneSeat pass.old pass.new }
    ensures between { IsBetween pass.new }
{
    bump_cond(wk, pass, 0);
    pass.spare() >= 12 && wake(rt, wk, pass, 0, 1)
}

// The task 1 runs for a turn, finds that the condition 0 has changed before it could sleep, and is put back.
fn stay<R: Wait>(rt: &R, wk: &Wk<Turns>, pass: &mut Pass) -> bool
    requires of { IsOf wk.now pass.old }
    requires processor { pass.old.seat < wk.now.shape.cpus }
    requires conditions { 0 < wk.now.shape.conds }
    requires between { IsBetween pass.old }
    ensures same { IsOneSeat pass.old pass.new }
    ensures between { result ≡ true → IsBetween pass.new }
{
    if pass.spare() < 8 {
        return false;
    }
    let Some(t) = pick(rt, wk, pass) else {
        return false;
    };
    run_turn(wk, pass, t);
    if pass.spare() < 12 || sleep(rt, wk, pass, t, 0, 0) {
        return false;
    }
    pass.spare() >= 8 && put_back(rt, wk, pass, t)
}

// The task 0 runs to its end, and dies.
fn end<R: Wait>(rt: &R, wk: &Wk<Turns>, pass: &mut Pass) -> bool
    requires of { IsOf wk.now pass.old }
    requires processor { pass.old.seat < wk.now.shape.cpus }
    requires between { IsBetween pass.old }
    ensures same { IsOneSeat pass.old pass.new }
    ensures between { result ≡ true → IsBetween pass.new }
{
    if pass.spare() < 8 {
        return false;
    }
    let Some(t) = pick(rt, wk, pass) else {
        return false;
    };
    if !run_turn(wk, pass, t) || pass.spare() < 12 {
        return false;
    }
    die(rt, wk, pass, t);
    true
}

// The task 1, about to sleep, is woken while it runs, and so runs on: to its end, and dies.
fn wake_running<R: Wait>(rt: &R, wk: &Wk<Turns>, pass: &mut Pass, waker: &mut Pass) -> bool
    requires of { IsOf wk.now pass.old × IsOf wk.now waker.old }
    requires processor { pass.old.seat < wk.now.shape.cpus }
    requires tasks { 1 < wk.now.shape.tasks }
    requires between { IsBetween pass.old × IsBetween waker.old }
    ensures same { IsOneSeat pass.old pass.new × IsOneSeat waker.old waker.new }
    ensures between { result ≡ true → IsBetween pass.new × IsBetween waker.new }
{
    if pass.spare() < 8 {
        return false;
    }
    let Some(t) = pick(rt, wk, pass) else {
        return false;
    };
    set_state(wk, pass, State::TASK_INTERRUPTIBLE);
    if waker.spare() < 12 || !wake(rt, wk, waker, 1, 0) {
        return false;
    }
    if pass.spare() < 12 || switch_out(rt, wk, pass, t) {
        return false;
    }
    if !run_turn(wk, pass, t) || pass.spare() < 12 {
        return false;
    }
    die(rt, wk, pass, t);
    true
}

// A dead task isn't woken.
fn refuse<R: Wait>(rt: &R, wk: &Wk<Turns>, pass: &mut Pass) -> bool
    requires of { IsOf wk.now pass.old }
    requires tasks { 1 < wk.now.shape.tasks }
    requires processors { 1 < wk.now.shape.cpus }
    requires between { IsBetween pass.old }
    ensures same { IsOneSeat pass.old pass.new }
    ensures between { IsBetween pass.new }
{
    pass.spare() >= 12 && !wake(rt, wk, pass, 0, 1)
}

// All of it in its order; whether each step found what it should.
fn live<R: Wait>(rt: &R, wk: &Wk<Turns>, first: &mut Pass, second: &mut Pass) -> bool
    requires of { IsOf wk.now first.old × IsOf wk.now second.old }
    requires seats { (first.old.seat ≡ 0) × (second.old.seat ≡ 1) }
    requires cpus { wk.now.shape.cpus ≡ 2 }
    requires tasks { wk.now.shape.tasks ≡ 4 }
    requires conditions { wk.now.shape.conds ≡ 1 }
    requires between { IsBetween first.old × IsBetween second.old }
    ensures same { IsOneSeat first.old first.new × IsOneSeat second.old second.new }
    ensures between { result ≡ true → IsBetween first.new × IsBetween second.new }
{
    if !begin(rt, wk, first) || !hint(rt, wk, first) || !rest(rt, wk, first) {
        return false;
    }
    if !rouse(rt, wk, first) || !stay(rt, wk, second) || !end(rt, wk, second) {
        return false;
    }
    wake_running(rt, wk, second, first) && refuse(rt, wk, first)
}

// Whether a turn has these entries and no more.
fn has_told(turn: &Turn, expected: &[Entry]) -> bool {
    for i in 0..expected.len() {
        if turn.get(i) != Some(expected[i]) {
            return false;
        }
    }
    turn.get(expected.len()).is_none()
}

fn tells_first(turn: &Turn) -> bool {
    let by_list = false;
    has_told(
        turn,
        &[
            Entry::New { t: 0, m: 1, c: 0 },
            Entry::New { t: 1, m: 1, c: 0 },
            Entry::Out { t: 1, m: 2, c: 0 },
            Entry::In { t: 1, m: 3, c: 1 },
            Entry::Pick { t: 0, n: 1, c: 0 },
            Entry::Sleep { t: 0, m: 2, c: 0 },
            Entry::Finish { t: 0, n: 2, c: 0 },
            Entry::Wake { t: 0, m: 2 },
            Entry::Enq {
                t: 0,
                m: 3,
                c: 1,
                by_list,
            },
            Entry::Refused {
                t: 0,
                state: State::TASK_DEAD,
            },
        ],
    )
}

fn tells_second(turn: &Turn) -> bool {
    has_told(
        turn,
        &[
            Entry::Pick { t: 1, n: 1, c: 1 },
            Entry::Finish { t: 1, n: 2, c: 1 },
            Entry::Pick { t: 0, n: 3, c: 1 },
            Entry::Die { t: 0, m: 4, c: 1 },
            Entry::Finish { t: 0, n: 4, c: 1 },
            Entry::Pick { t: 1, n: 3, c: 1 },
            Entry::Die { t: 1, m: 4, c: 1 },
            Entry::Finish { t: 1, n: 4, c: 1 },
        ],
    )
}

// What is left of the table; None where a step or an entry is another one.
fn outcome<R: Wait>(rt: &R, alloc: Global) -> Result<Option<Closed<Turns>>, NoMemory> {
    let body = Turns { left: 2 };
    let Some((wk, mut first, mut second)) = two_seats(alloc, 4, 1, body) else {
        return Ok(None);
    };
    if !live(rt, &wk, &mut first, &mut second) {
        return Ok(None);
    }
    if !tells_first(first.turn()) || !tells_second(second.turn()) {
        return Ok(None);
    }
    Ok(Some(close_both(alloc, wk, first, second)?))
}

#[test]
fn each_step_is_made_once(rt: HostRuntime) -> Result<(), Fail> {
    let Some(closed) = outcome(&rt, rt.alloc())? else {
        return Err(Fail::from("another step or entry"));
    };
    assert!(rt; closed.states.len() == 4);
    assert!(rt; closed.states[0] == State::TASK_DEAD);
    assert!(rt; closed.states[1] == State::TASK_DEAD);
    assert!(rt; closed.states[2] == State::TASK_NEW);
    assert!(rt; closed.states[3] == State::TASK_NEW);
    assert!(rt; closed.conds.len() == 1);
    assert!(rt; closed.conds[0] == 1);
    Ok(())
}
