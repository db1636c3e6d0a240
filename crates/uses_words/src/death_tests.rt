//! Each task of a table dies: the journals are one legal history.
ghost use Rattle.std.specs.Prelude.{◌≡◌, ◌<◌, true, IfOk, IfSome, MatchOption};
ghost use Rattle.task_words.specs.Seats.{IsBetween, IsRunning};
ghost use Rattle.task_words.specs.Views.{IsOf, IsOneSeat};

use crate::{Turns, close_both, die, move_to, pick, put_back, run_turn, start, tell, two_seats};
use handoff_data::{Journal, Journals, NoMemory, State, TaskNo};
use journal_legal::{Verdict, legal};
use run_queue::Start;
use std::alloc::Global;
use std::sync::Wait;
use std::test::Fail;
use task_words::{Closed, Pass, Wk};

const TASKS: u32 = 4;

// Starts a task on the processor 0, and moves it to the processor 1 where its number is odd; whether it did.
fn begin<R: Wait>(rt: &R, wk: &Wk<Turns>, pass: &mut Pass, t: TaskNo) -> bool
    requires of { IsOf wk.now pass.old }
    requires task { t < wk.now.shape.tasks }
    requires processors { 1 < wk.now.shape.cpus }
    requires between { IsBetween pass.old }
    ensures same { IsOneSeat pass.old pass.new }
    ensures between { IsBetween pass.new }
{
    if pass.spare() < 8 || start(rt, wk, pass, t, 0) != (Start::Started { m: 1 }) {
        return false;
    }
    t % 2 == 0 || pass.spare() >= 12 && move_to(rt, wk, pass, t, 1)
}

// Starts all tasks, and moves every other one; whether it did.
fn begin_all<R: Wait>(
    rt: &R,
    wk: &Wk<Turns>,
    pass: &mut Pass,
    journal: &mut Journal,
) -> Result<bool, NoMemory>
    requires of { IsOf wk.now pass.old }
    requires tasks { wk.now.shape.tasks ≡ 4 }
    requires processors { 1 < wk.now.shape.cpus }
    requires between { IsBetween pass.old }
    ensures same { IsOneSeat pass.old pass.new }
    ensures between { IsBetween pass.new }
{
    for t in 0..TASKS {
        pass.clear_turn();
        if !begin(rt, wk, pass, t) {
            return Ok(false);
        }
        tell(pass.turn(), journal)?;
    }
    Ok(true)
}

// Runs a current task for one turn: it is put back, or dies. Whether it left.
fn advance<R: Wait>(rt: &R, wk: &Wk<Turns>, pass: &mut Pass, t: TaskNo) -> bool
    requires of { IsOf wk.now pass.old }
    requires processor { pass.old.seat < wk.now.shape.cpus }
    requires task { t < wk.now.shape.tasks }
    requires running { IsRunning t pass.old }
    ensures same { IsOneSeat pass.old pass.new }
    ensures left { result ≡ true → IsBetween pass.new }
{
    let ended = run_turn(wk, pass, t);
    if pass.spare() < 12 {
        return false;
    }
    if ended {
        die(rt, wk, pass, t);
        return true;
    }
    put_back(rt, wk, pass, t)
}

// Picks a task and runs it for a turn; None where none waits, and else whether the task left.
fn cycle<R: Wait>(rt: &R, wk: &Wk<Turns>, pass: &mut Pass) -> Option<bool>
    requires of { IsOf wk.now pass.old }
    requires processor { pass.old.seat < wk.now.shape.cpus }
    requires between { IsBetween pass.old }
    ensures same { IsOneSeat pass.old pass.new }
    ensures between { MatchOption result (IsBetween pass.new) (λ left. left ≡ true → IsBetween pass.new) }
{
    if pass.spare() < 8 {
        return Some(false);
    }
    let Some(t) = pick(rt, wk, pass) else {
        return None;
    };
    Some(advance(rt, wk, pass, t))
}

// Runs the tasks of a processor in turns, until none waits; whether that came within so many turns.
fn run_all<R: Wait>(
    rt: &R,
    wk: &Wk<Turns>,
    pass: &mut Pass,
    journal: &mut Journal,
    turns: u32,
) -> Result<bool, NoMemory>
    requires of { IsOf wk.now pass.old }
    requires processor { pass.old.seat < wk.now.shape.cpus }
    requires between { IsBetween pass.old }
    ensures same { IsOneSeat pass.old pass.new }
    ensures between { IfOk result (λ done. done ≡ true → IsBetween pass.new) }
{
    for _ in 0..turns {
        pass.clear_turn();
        let Some(left) = cycle(rt, wk, pass) else {
            return Ok(true);
        };
        if !left {
            return Ok(false);
        }
        tell(pass.turn(), journal)?;
    }
    Ok(false)
}

// The verdict on the journals of both seats.
fn judge(alloc: Global, first: Journal, second: Journal) -> Result<Verdict, NoMemory> {
    let mut seats = Vec::with_capacity(alloc, 2)?;
    seats.push_reserved(first);
    seats.push_reserved(second);
    let journals = Journals {
        cpus: 2,
        tasks: TASKS,
        seats,
    };
    legal(alloc, &journals)
}

// Both seats run their tasks to the end, once the first has begun all: the verdict on their journals, None where a step
// found another thing.
fn run_both<R: Wait>(
    rt: &R,
    alloc: Global,
    wk: &Wk<Turns>,
    first: &mut Pass,
    second: &mut Pass,
) -> Result<Option<Verdict>, NoMemory>
    requires of { IsOf wk.now first.old × IsOf wk.now second.old }
    requires seats { (first.old.seat ≡ 0) × (second.old.seat ≡ 1) }
    requires cpus { wk.now.shape.cpus ≡ 2 }
    requires tasks { wk.now.shape.tasks ≡ 4 }
    requires between { IsBetween first.old × IsBetween second.old }
    ensures same { IsOneSeat first.old first.new × IsOneSeat second.old second.new }
    ensures between { IfOk result (λ o. IfSome o (λ v. IsBetween first.new × IsBetween second.new)) }
{
    let mut of_first = Journal::new(alloc);
    let mut of_second = Journal::new(alloc);
    if !begin_all(rt, wk, first, &mut of_first)?
        || !run_all(rt, wk, second, &mut of_second, 20)?
        || !run_all(rt, wk, first, &mut of_first, 20)?
    {
        return Ok(None);
    }
    Ok(Some(judge(alloc, of_first, of_second)?))
}

// What is left of the table, and the verdict on its journals.
fn outcome<R: Wait>(rt: &R, alloc: Global) -> Result<Option<(Closed<Turns>, Verdict)>, NoMemory> {
    let body = Turns { left: 2 };
    let Some((wk, mut first, mut second)) = two_seats(alloc, TASKS, 1, body) else {
        return Ok(None);
    };
    let Some(verdict) = run_both(rt, alloc, &wk, &mut first, &mut second)? else {
        return Ok(None);
    };
    Ok(Some((close_both(alloc, wk, first, second)?, verdict)))
}

#[test]
fn all_tasks_die(rt: HostRuntime) -> Result<(), Fail> {
    let Some((closed, verdict)) = outcome(&rt, rt.alloc())? else {
        return Err(Fail::from("a step that found another thing"));
    };
    assert!(rt; closed.states.len() == TASKS as usize);
    assert!(rt; closed.states.iter().all(|state| *state == State::TASK_DEAD));
    assert!(rt; closed.bodies.len() == TASKS as usize);
    assert!(rt; closed.bodies.iter().all(|body| body.left == 0));
    assert!(rt; verdict == Verdict::Legal);
    Ok(())
}
