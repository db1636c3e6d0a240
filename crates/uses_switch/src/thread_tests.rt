//! Threads, one for each processor, that choose at random among starts, switches, sleeps and wake-ups, and whose tasks
//! die: their journals keep each rule of a history.
ghost use Rattle.std.specs.Prelude.{◌≡◌, ◌<◌, ◌≤◌};
ghost use Rattle.std.specs.List.{All};
ghost use Rattle.sched_switch.specs.Standing.{IsSteady};
ghost use Rattle.task_words.specs.Views.{IsOf, IsOneSeat};
ghost use Rattle.uses_switch.specs.Seated.{IsIdle, IsRunning};

use crate::bodies::{Turns, run_turn};
use crate::life::die;
use crate::opening::begin;
use handoff_data::{CondNo, Journal, Journals, NoMemory, TaskNo};
use journal_legal::{Verdict, legal};
use run_queue::start;
use sched_switch::{Next, schedule, sleep_on};
use std::alloc::{AllocError, Global};
use std::sync::Wait;
use std::test::Fail;
use std::thread::{Threads, map_vec};
use task_words::{Kept, Pass, Turn, Wk, load_cond};
use wait_queue::bump_and_wake;

const TASKS: u32 = 6;

const CONDS: u32 = 2;

// How many turns each body has to run.
const TURNS: u32 = 2000;

// A number below n, by Marsaglia's xorshift.
fn below(random: &mut u64, n: u32) -> u32
    requires { 0 < n }
    ensures { result < n }
{
    *random ^= *random << 13;
    *random ^= *random >> 7;
    *random ^= *random << 17;
    (*random % n as u64) as u32
}

// The current task sleeps at a condition, which may have been raised since it was read.
fn sleep<B: Kept, R: Wait>(rt: &R, wk: &Wk<B>, pass: &mut Pass, t: TaskNo, k: CondNo)
    requires of { IsOf wk.now pass.old }
    requires processor { pass.old.seat < wk.now.shape.cpus }
    requires condition { k < wk.now.shape.conds }
    requires running { IsRunning t pass.old }
    ensures same { IsOneSeat pass.old pass.new }
    ensures steady { IsSteady pass.new }
{
    pass.clear_turn();
    let v = load_cond(wk, pass, k);
    sleep_on(rt, wk, pass, k, v);
}

// Raises a condition, and wakes who sleeps there.
fn raise<B: Kept, R: Wait>(rt: &R, wk: &Wk<B>, pass: &mut Pass, k: CondNo)
    requires of { IsOf wk.now pass.old }
    requires condition { k < wk.now.shape.conds }
    requires steady { IsSteady pass.old }
    ensures same { IsOneSeat pass.old pass.new }
    ensures steady { IsSteady pass.new }
{
    pass.clear_turn();
    bump_and_wake(rt, wk, pass, k);
}

fn switch<B: Kept, R: Wait>(rt: &R, wk: &Wk<B>, pass: &mut Pass, next: Next)
    requires of { IsOf wk.now pass.old }
    requires processor { pass.old.seat < wk.now.shape.cpus }
    requires steady { IsSteady pass.old }
    ensures same { IsOneSeat pass.old pass.new }
    ensures steady { IsSteady pass.new }
{
    pass.clear_turn();
    schedule(rt, wk, pass, next);
}

// The current task runs a turn of its body, and dies where that was the last.
fn go_on<R: Wait>(rt: &R, wk: &Wk<Turns>, pass: &mut Pass, t: TaskNo)
    requires of { IsOf wk.now pass.old }
    requires processor { pass.old.seat < wk.now.shape.cpus }
    requires task { t < wk.now.shape.tasks }
    requires running { IsRunning t pass.old }
    ensures same { IsOneSeat pass.old pass.new }
    ensures steady { IsSteady pass.new }
{
    pass.clear_turn();
    if run_turn(wk, pass, t) {
        die(rt, wk, pass, t);
    }
}

// The current task does something.
fn run<R: Wait>(rt: &R, wk: &Wk<Turns>, pass: &mut Pass, t: TaskNo, random: &mut u64)
    requires of { IsOf wk.now pass.old }
    requires processor { pass.old.seat < wk.now.shape.cpus }
    requires task { t < wk.now.shape.tasks }
    requires conditions { wk.now.shape.conds ≡ 2 }
    requires running { IsRunning t pass.old }
    ensures same { IsOneSeat pass.old pass.new }
    ensures steady { IsSteady pass.new }
{
    let k = below(random, CONDS);
    match below(random, 8) {
        0 | 1 | 2 => sleep(rt, wk, pass, t, k),
        3 => raise(rt, wk, pass, k),
        4 | 5 => switch(rt, wk, pass, Next::Task),
        6 => switch(rt, wk, pass, Next::Nobody),
        _ => go_on(rt, wk, pass, t),
    }
}

// Starts a task on any processor.
fn start_any<B: Kept, R: Wait>(rt: &R, wk: &Wk<B>, pass: &mut Pass, cpus: u32, random: &mut u64)
    requires of { IsOf wk.now pass.old }
    requires cpus { (0 < cpus) × (cpus ≡ wk.now.shape.cpus) }
    requires tasks { wk.now.shape.tasks ≡ 6 }
    requires steady { IsSteady pass.old }
    ensures same { IsOneSeat pass.old pass.new }
    ensures steady { IsSteady pass.new }
{
    pass.clear_turn();
    let t = below(random, TASKS);
    let c = below(random, cpus);
    start(rt, wk, pass, t, c);
}

// A processor without a current task does something.
fn idle<B: Kept, R: Wait>(rt: &R, wk: &Wk<B>, pass: &mut Pass, cpus: u32, random: &mut u64)
    requires of { IsOf wk.now pass.old }
    requires processor { pass.old.seat < wk.now.shape.cpus }
    requires cpus { cpus ≡ wk.now.shape.cpus }
    requires tasks { wk.now.shape.tasks ≡ 6 }
    requires conditions { wk.now.shape.conds ≡ 2 }
    requires steady { IsSteady pass.old }
    ensures same { IsOneSeat pass.old pass.new }
    ensures steady { IsSteady pass.new }
{
    let k = below(random, CONDS);
    match below(random, 8) {
        0 => start_any(rt, wk, pass, cpus, random),
        1 => raise(rt, wk, pass, k),
        2 => switch(rt, wk, pass, Next::Nobody),
        _ => switch(rt, wk, pass, Next::Task),
    }
}

// One turn of a seat.
fn turn<R: Wait>(rt: &R, wk: &Wk<Turns>, pass: &mut Pass, cpus: u32, random: &mut u64)
    requires of { IsOf wk.now pass.old }
    requires processor { pass.old.seat < wk.now.shape.cpus }
    requires cpus { cpus ≡ wk.now.shape.cpus }
    requires tasks { wk.now.shape.tasks ≡ 6 }
    requires conditions { wk.now.shape.conds ≡ 2 }
    requires steady { IsSteady pass.old }
    ensures same { IsOneSeat pass.old pass.new }
    ensures steady { IsSteady pass.new }
{
    match pass.current() {
        Some(t) => run(rt, wk, pass, t, random),
        None => idle(rt, wk, pass, cpus, random),
    }
}

// Adds the entries of a turn to a journal.
fn tell(turn: &Turn, journal: &mut Journal) -> Result<(), NoMemory> {
    for i in 0..64 {
        if let Some(entry) = turn.get(i) {
            journal.push(entry)?;
        }
    }
    Ok(())
}

// So many turns of a seat: its journal; none where memory was wanting.
fn work<R: Wait>(
    rt: &R,
    alloc: Global,
    wk: &Wk<Turns>,
    mut pass: Pass,
    cpus: u32,
    turns: u32,
) -> Option<Journal>
    requires of { IsOf wk.now pass }
    requires cpus { cpus ≡ wk.now.shape.cpus }
    requires tasks { wk.now.shape.tasks ≡ 6 }
    requires conditions { wk.now.shape.conds ≡ 2 }
    requires steady { IsSteady pass }
{
    let mut journal = Journal::new(alloc);
    if pass.seat() >= cpus {
        return None;
    }
    let mut random = pass.seat() as u64 + 1;
    for _ in 0..turns {
        turn(rt, wk, &mut pass, cpus, &mut random);
        if tell(pass.turn(), &mut journal).is_err() {
            return None;
        }
    }
    Some(journal)
}

// What each seat did, each in a thread, in the order of the seats.
fn all_work<R: Threads + Wait + Sync>(
    rt: &R,
    alloc: Global,
    wk: &Wk<Turns>,
    passes: Vec<Pass>,
    cpus: u32,
    turns: u32,
) -> Result<Vec<Option<Journal>>, AllocError>
    requires of { All (IsOf wk.now) passes.items }
    requires cpus { cpus ≡ wk.now.shape.cpus }
    requires tasks { wk.now.shape.tasks ≡ 6 }
    requires conditions { wk.now.shape.conds ≡ 2 }
    requires idle { All IsIdle passes.items }
{
    map_vec(
        rt,
        passes,
        &|pass: Pass| -> Option<Journal>
            requires of { IsOf wk.now pass }
            requires cpus { cpus ≡ wk.now.shape.cpus }
            requires tasks { wk.now.shape.tasks ≡ 6 }
            requires conditions { wk.now.shape.conds ≡ 2 }
            requires idle { IsIdle pass }
        { work(rt, alloc, wk, pass, cpus, turns) },
    )
}

// The verdict on what so many processors did in so many turns each; none where memory was wanting.
fn verdict<R: Threads + Wait + Sync>(
    rt: &R,
    alloc: Global,
    cpus: u32,
    turns: u32,
) -> Result<Option<Verdict>, NoMemory>
    requires cpus { (0 < cpus) × (cpus ≤ 16) }
{
    let (wk, passes) = begin(alloc, cpus, TASKS, CONDS, TURNS)?;
    let seats = all_work(rt, alloc, &wk, passes, cpus, turns)?;
    let mut journals = Journals {
        cpus,
        tasks: TASKS,
        seats: Vec::new(alloc),
    };
    for journal in seats {
        let Some(journal) = journal else {
            return Ok(None);
        };
        journals.seats.push(journal)?;
    }
    if journals.seats.len() != cpus as usize {
        return Ok(None);
    }
    Ok(Some(legal(alloc, &journals)?))
}

// Whether it is one history, of tasks that may still live.
fn is_history(verdict: Result<Option<Verdict>, NoMemory>) -> bool {
    match verdict {
        Ok(Some(Verdict::Legal | Verdict::Unended { .. })) => true,
        _ => false,
    }
}

#[test]
fn random_switches_and_sleeps_make_one_history(rt: HostRuntime) -> Result<(), Fail> {
    assert!(rt; is_history(verdict(&rt, rt.alloc(), 2, 60000)));
    assert!(rt; is_history(verdict(&rt, rt.alloc(), 4, 30000)));
    assert!(rt; is_history(verdict(&rt, rt.alloc(), 8, 20000)));
    Ok(())
}
