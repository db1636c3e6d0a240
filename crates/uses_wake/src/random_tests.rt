//! Threads, one for each processor, that choose at random among starts, wake-ups, walks, moves, sleeps and deaths:
//! their journals keep each rule of a history, and agree with the states that are left.
ghost use Rattle.std.specs.Prelude.{◌≡◌, ℕ, ◌<◌, ◌≤◌, ◌+◌, true, length, map, slice_index_or, IfOk, IfSome};
ghost use Rattle.std.specs.List.{All};
ghost use Rattle.task_words.specs.End.{HasEachSeat};
ghost use Rattle.task_words.specs.Seats.{IsBetween, IsRunning};
ghost use Rattle.task_words.specs.Views.{IsOf, IsOneSeat};

use crate::running::{self, finish, prepare};
use crate::{bump_and_wake, wake, wake_all, wake_some};
use handoff_data::{CondNo, Journal, Journals, NoMemory, State, TaskNo};
use journal_legal::{Verdict, legal};
use std::alloc::{AllocError, Global};
use std::sync::Wait;
use std::test::Fail;
use std::thread::{Threads, map_vec};
use task_words::{Closed, Kept, Pass, Wk, load_cond, set_state};
use uses_words::{Turns, begin, die, move_to, pick, put_back, run_turn, start, switch_out, tell};

const TASKS: u32 = 6;

const CONDS: u32 = 2;

// How many turns each task lives.
const LIFE: u32 = 4000;

// A number below n, by Marsaglia's xorshift.
fn below(random: &mut u64, n: u32) -> u32
    requires { 0 < n }
    ensures { result < n }
{
    *random ^= *random << 13;
    *random ^= *random >> 7;
    *random ^= *random << 17;
    (*random % n as u64) as u32
}

// The current task sleeps until it is woken, or is put back; whether it left.
fn doze<B: Kept, R: Wait>(rt: &R, wk: &Wk<B>, pass: &mut Pass, t: TaskNo) -> bool
    requires of { IsOf wk.now pass.old }
    requires processor { pass.old.seat < wk.now.shape.cpus }
    requires task { t < wk.now.shape.tasks }
    requires running { IsRunning t pass.old }
    ensures same { IsOneSeat pass.old pass.new }
    ensures left { result ≡ true → IsBetween pass.new }
{
    set_state(wk, pass, State::TASK_INTERRUPTIBLE);
    if pass.spare() < 12 {
        return false;
    }
    if switch_out(rt, wk, pass, t) {
        return true;
    }
    pass.spare() >= 8 && put_back(rt, wk, pass, t)
}

// The current task leaves its wait queue and is put back; whether it was.
fn give_up<B: Kept, R: Wait>(rt: &R, wk: &Wk<B>, pass: &mut Pass, t: TaskNo, k: CondNo) -> bool
    requires of { IsOf wk.now pass.old }
    requires processor { pass.old.seat < wk.now.shape.cpus }
    requires task { t < wk.now.shape.tasks }
    requires condition { k < wk.now.shape.conds }
    requires running { IsRunning t pass.old }
    ensures same { IsOneSeat pass.old pass.new }
    ensures left { result ≡ true → IsBetween pass.new }
{
    finish(rt, wk, pass, t, k);
    pass.spare() >= 8 && put_back(rt, wk, pass, t)
}

// The current task sleeps at a condition until that is raised, unless it is or the task is woken first; whether it
// left.
fn sleep<B: Kept, R: Wait>(
    rt: &R,
    wk: &Wk<B>,
    pass: &mut Pass,
    t: TaskNo,
    k: CondNo,
    exclusive: bool,
) -> bool
    requires of { IsOf wk.now pass.old }
    requires processor { pass.old.seat < wk.now.shape.cpus }
    requires task { t < wk.now.shape.tasks }
    requires condition { k < wk.now.shape.conds }
    requires running { IsRunning t pass.old }
    ensures same { IsOneSeat pass.old pass.new }
    ensures left { result ≡ true → IsBetween pass.new }
{
    let seen = load_cond(wk, pass, k);
    prepare(rt, wk, pass, t, k, exclusive);
    if load_cond(wk, pass, k) != seen || pass.spare() < 12 {
        return give_up(rt, wk, pass, t, k);
    }
    if switch_out(rt, wk, pass, t) {
        return true;
    }
    give_up(rt, wk, pass, t, k)
}

// The current task walks along a wait queue in which it stands itself, and is put back; whether it was.
fn wake_among<B: Kept, R: Wait>(rt: &R, wk: &Wk<B>, pass: &mut Pass, t: TaskNo, k: CondNo) -> bool
    requires of { IsOf wk.now pass.old }
    requires processor { pass.old.seat < wk.now.shape.cpus }
    requires task { t < wk.now.shape.tasks }
    requires tasks { wk.now.shape.tasks ≡ 6 }
    requires condition { k < wk.now.shape.conds }
    requires running { IsRunning t pass.old }
    ensures same { IsOneSeat pass.old pass.new }
    ensures left { result ≡ true → IsBetween pass.new }
{
    prepare(rt, wk, pass, t, k, true);
    // A walk asks for a whole turn. What was done before it has been told, and `prepare` makes no entry.
    pass.clear_turn();
    running::wake_all(rt, wk, pass, t, k);
    give_up(rt, wk, pass, t, k)
}

// The current task raises a condition and wakes who sleeps there, and is put back; whether it was.
fn raise<B: Kept, R: Wait>(rt: &R, wk: &Wk<B>, pass: &mut Pass, t: TaskNo, k: CondNo) -> bool
    requires of { IsOf wk.now pass.old }
    requires processor { pass.old.seat < wk.now.shape.cpus }
    requires task { t < wk.now.shape.tasks }
    requires tasks { wk.now.shape.tasks ≡ 6 }
    requires condition { k < wk.now.shape.conds }
    requires running { IsRunning t pass.old }
    ensures same { IsOneSeat pass.old pass.new }
    ensures left { result ≡ true → IsBetween pass.new }
{
    // A walk asks for a whole turn. What was done before it has been told.
    pass.clear_turn();
    running::bump_and_wake(rt, wk, pass, t, k);
    pass.spare() >= 8 && put_back(rt, wk, pass, t)
}

// The current task, whose entries have been told, leaves in one of the ways; whether it left.
fn leave<B: Kept, R: Wait>(rt: &R, wk: &Wk<B>, pass: &mut Pass, t: TaskNo, random: &mut u64) -> bool
    requires of { IsOf wk.now pass.old }
    requires processor { pass.old.seat < wk.now.shape.cpus }
    requires task { t < wk.now.shape.tasks }
    requires tasks { wk.now.shape.tasks ≡ 6 }
    requires conditions { wk.now.shape.conds ≡ 2 }
    requires running { IsRunning t pass.old }
    ensures same { IsOneSeat pass.old pass.new }
    ensures left { result ≡ true → IsBetween pass.new }
{
    let k = below(random, CONDS);
    match below(random, 9) {
        0 | 1 | 2 => sleep(rt, wk, pass, t, k, false),
        3 | 4 => sleep(rt, wk, pass, t, k, true),
        5 => wake_among(rt, wk, pass, t, k),
        6 => raise(rt, wk, pass, t, k),
        7 => doze(rt, wk, pass, t),
        _ => pass.spare() >= 8 && put_back(rt, wk, pass, t),
    }
}

// Picks a task, if one waits, and runs it for a turn; it dies where its body has ended then. Whether it left.
fn cycle<R: Wait>(
    rt: &R,
    wk: &Wk<Turns>,
    pass: &mut Pass,
    random: &mut u64,
    journal: &mut Journal,
) -> bool
    requires of { IsOf wk.now pass.old }
    requires processor { pass.old.seat < wk.now.shape.cpus }
    requires tasks { wk.now.shape.tasks ≡ 6 }
    requires conditions { wk.now.shape.conds ≡ 2 }
    requires between { IsBetween pass.old }
    ensures same { IsOneSeat pass.old pass.new }
    ensures between { result ≡ true → IsBetween pass.new }
{
    if pass.spare() < 8 {
        return false;
    }
    let Some(t) = pick(rt, wk, pass) else {
        return true;
    };
    if run_turn(wk, pass, t) {
        if pass.spare() < 12 {
            return false;
        }
        die(rt, wk, pass, t);
        return true;
    }
    if tell(pass.turn(), journal).is_err() {
        return false;
    }
    pass.clear_turn();
    leave(rt, wk, pass, t, random)
}

// Walks along a wait queue with no current task, or wakes, starts or moves one task.
fn call<B: Kept, R: Wait>(rt: &R, wk: &Wk<B>, pass: &mut Pass, cpus: u32, random: &mut u64)
    requires of { IsOf wk.now pass.old }
    requires cpus { (0 < cpus) × (cpus ≡ wk.now.shape.cpus) }
    requires tasks { wk.now.shape.tasks ≡ 6 }
    requires conditions { wk.now.shape.conds ≡ 2 }
    requires between { IsBetween pass.old }
    ensures same { IsOneSeat pass.old pass.new }
    ensures between { IsBetween pass.new }
{
    pass.clear_turn();
    let t = below(random, TASKS);
    let k = below(random, CONDS);
    match below(random, 10) {
        0 => {
            start(rt, wk, pass, t, below(random, cpus));
        }
        1 => {
            wake_all(rt, wk, pass, k);
        }
        2 | 3 => {
            wake_some(rt, wk, pass, k, 1);
        }
        4 => {
            bump_and_wake(rt, wk, pass, k);
        }
        5 | 6 => {
            move_to(rt, wk, pass, t, below(random, cpus));
        }
        _ => {
            wake(rt, wk, pass, t);
        }
    }
}

// One turn of a seat; whether each of its calls ended as it has to.
fn turn<R: Wait>(
    rt: &R,
    wk: &Wk<Turns>,
    pass: &mut Pass,
    cpus: u32,
    random: &mut u64,
    journal: &mut Journal,
) -> bool
    requires of { IsOf wk.now pass.old }
    requires cpus { cpus ≡ wk.now.shape.cpus }
    requires processor { pass.old.seat < wk.now.shape.cpus }
    requires tasks { wk.now.shape.tasks ≡ 6 }
    requires conditions { wk.now.shape.conds ≡ 2 }
    requires between { IsBetween pass.old }
    ensures same { IsOneSeat pass.old pass.new }
    ensures between { result ≡ true → IsBetween pass.new }
{
    if below(random, 2) == 0 {
        call(rt, wk, pass, cpus, random);
        return true;
    }
    pass.clear_turn();
    cycle(rt, wk, pass, random, journal)
}

// What a seat leaves.
#[derive(Drop)]
struct Worked {
    pass: Pass,
    journal: Journal,
    // Whether each turn ended as it has to.
    fine: bool,
}

// So many turns of a seat; whether each turn ended as it has to.
fn play<R: Wait>(
    rt: &R,
    wk: &Wk<Turns>,
    pass: &mut Pass,
    journal: &mut Journal,
    cpus: u32,
    turns: u32,
) -> bool
    requires of { IsOf wk.now pass.old }
    requires cpus { cpus ≡ wk.now.shape.cpus }
    requires tasks { wk.now.shape.tasks ≡ 6 }
    requires conditions { wk.now.shape.conds ≡ 2 }
    requires between { IsBetween pass.old }
    ensures same { IsOneSeat pass.old pass.new }
    ensures between { result ≡ true → IsBetween pass.new }
{
    if pass.seat() >= cpus {
        return false;
    }
    let mut random = pass.seat() as u64 + 1;
    for _ in 0..turns {
        if !turn(rt, wk, pass, cpus, &mut random, journal) || tell(pass.turn(), journal).is_err() {
            return false;
        }
    }
    true
}

fn work<R: Wait>(
    rt: &R,
    alloc: Global,
    wk: &Wk<Turns>,
    mut pass: Pass,
    cpus: u32,
    turns: u32,
) -> Worked
    requires of { IsOf wk.now pass }
    requires cpus { cpus ≡ wk.now.shape.cpus }
    requires tasks { wk.now.shape.tasks ≡ 6 }
    requires conditions { wk.now.shape.conds ≡ 2 }
    requires between { IsBetween pass }
    ensures same { IsOneSeat pass result.pass }
    ensures between { result.fine ≡ true → IsBetween result.pass }
{
    let mut journal = Journal::new(alloc);
    let fine = play(rt, wk, &mut pass, &mut journal, cpus, turns);
    Worked {
        pass,
        journal,
        fine,
    }
}

// What each seat leaves, each in a thread, in the order of the seats.
fn all_work<R: Threads + Wait + Sync>(
    rt: &R,
    alloc: Global,
    wk: &Wk<Turns>,
    passes: Vec<Pass>,
    cpus: u32,
    turns: u32,
) -> Result<Vec<Worked>, AllocError>
    requires of { All (IsOf wk.now) passes.items }
    requires cpus { cpus ≡ wk.now.shape.cpus }
    requires tasks { wk.now.shape.tasks ≡ 6 }
    requires conditions { wk.now.shape.conds ≡ 2 }
    requires between { All IsBetween passes.items }
    ensures len { IfOk result (λ v. length v.items ≡ length passes.items) }
    ensures same { IfOk result (λ v. (i : ℕ) (d : _) (e : _) → i < length passes.items
        → IsOneSeat (slice_index_or passes.items i d) (slice_index_or v.items i e).pass) }
    ensures between { IfOk result (λ v. (i : ℕ) (e : _) → i < length passes.items
        → (slice_index_or v.items i e).fine ≡ true → IsBetween (slice_index_or v.items i e).pass) }
{
    map_vec(
        rt,
        passes,
        &|pass: Pass| -> Worked
            requires of { IsOf wk.now pass }
            requires cpus { cpus ≡ wk.now.shape.cpus }
            requires tasks { wk.now.shape.tasks ≡ 6 }
            requires conditions { wk.now.shape.conds ≡ 2 }
            requires between { IsBetween pass }
            ensures same { IsOneSeat pass result.pass }
            ensures between { result.fine ≡ true → IsBetween result.pass }
        { work(rt, alloc, wk, pass, cpus, turns) },
    )
}

// The passes and the journals, in the same order; None where a turn didn't end as it has to.
fn split(alloc: Global, done: Vec<Worked>) -> Result<Option<(Vec<Pass>, Vec<Journal>)>, NoMemory>
    ensures passes { IfOk result (λ o. IfSome o (λ r. r.0.items ≡ map (λ w. w.pass) done.items)) }
    ensures fine { IfOk result (λ o. IfSome o (λ r. All (λ w. w.fine ≡ true) done.items)) }
{
    let mut passes = Vec::new(alloc);
    let mut journals = Vec::new(alloc);
    for worked in done {
        let Worked {
            pass,
            journal,
            fine,
        } = worked;
        if !fine {
            return Ok(None);
        }
        passes.push(pass)?;
        journals.push(journal)?;
    }
    Ok(Some((passes, journals)))
}

// What is left of a table once the threads of all seats have ended, and their journals; None where a turn didn't end as
// it has to.
fn run_threads<R: Threads + Wait + Sync>(
    rt: &R,
    alloc: Global,
    wk: Wk<Turns>,
    passes: Vec<Pass>,
    cpus: u32,
    turns: u32,
) -> Result<Option<(Closed<Turns>, Vec<Journal>)>, NoMemory>
    requires of { All (IsOf wk) passes.items }
    requires each { HasEachSeat (wk.shape.cpus + wk.shape.agents) (map (λ p. p.seat) passes.items) }
    requires cpus { cpus ≡ wk.shape.cpus }
    requires tasks { wk.shape.tasks ≡ 6 }
    requires conditions { wk.shape.conds ≡ 2 }
    requires between { All IsBetween passes.items }
{
    let done = all_work(rt, alloc, &wk, passes, cpus, turns)?;
    let Some((passes, journals)) = split(alloc, done)? else {
        return Ok(None);
    };
    Ok(Some((wk.close(passes), journals)))
}

// What is left of a table, and the verdict on what so many processors did there in so many turns each; None where a
// turn didn't end as it has to.
fn outcome<R: Threads + Wait + Sync>(
    rt: &R,
    alloc: Global,
    cpus: u32,
    turns: u32,
) -> Result<Option<(Closed<Turns>, Verdict)>, NoMemory>
    requires cpus { (0 < cpus) × (cpus ≤ 16) }
{
    let body = Turns { left: LIFE };
    let (wk, passes) = begin(alloc, cpus, TASKS, CONDS, body)?;
    let Some((closed, seats)) = run_threads(rt, alloc, wk, passes, cpus, turns)? else {
        return Ok(None);
    };
    if seats.len() != cpus as usize {
        return Ok(None);
    }
    let journals = Journals {
        cpus,
        tasks: TASKS,
        seats,
    };
    Ok(Some((closed, legal(alloc, &journals)?)))
}

// Whether the verdict and the states are of one history: of dead tasks alone, or of one that lives still.
fn agrees(closed: &Closed<Turns>, verdict: Verdict) -> bool {
    if closed.states.len() != TASKS as usize || closed.conds.len() != CONDS as usize {
        return false;
    }
    match verdict {
        Verdict::Legal => closed.states.iter().all(|state| *state == State::TASK_DEAD),
        Verdict::Unended { t } => { t < TASKS && closed.states[t as usize] != State::TASK_DEAD }
        Verdict::FirstBad { .. } => false,
    }
}

// Whether so many turns of so many processors make one history.
fn is_history(outcome: Result<Option<(Closed<Turns>, Verdict)>, NoMemory>) -> bool {
    match outcome {
        Ok(Some((closed, verdict))) => agrees(&closed, verdict),
        _ => false,
    }
}

#[test]
fn random_scenarios_make_one_history(rt: HostRuntime) -> Result<(), Fail> {
    assert!(rt; is_history(outcome(&rt, rt.alloc(), 2, 60000)));
    assert!(rt; is_history(outcome(&rt, rt.alloc(), 4, 30000)));
    assert!(rt; is_history(outcome(&rt, rt.alloc(), 8, 20000)));
    Ok(())
}
