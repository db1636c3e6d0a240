//! Scripts through rounds of workers. What no clause says: that a run ends, with one worker and with one a seat.
ghost use Rattle.std.specs.Prelude.{◌≡◌, ◌<◌, ◌≤◌, ℕ, None, IfOk, OnOk};
ghost use Rattle.std.specs.List.{All};
ghost use Rattle.run_cells.specs.NetMaps.{IsNetMap};
ghost use Rattle.run_rounds.specs.Seats.{IsReady};
ghost use Rattle.run_turns.specs.Standing.{IsAtRest};
ghost use Rattle.task_words.specs.Views.{IsOf, IsOneSeat};

use super::*;
use handoff_data::{CpuNo, NoMemory, TaskNo};
use pipe_bodies::{Body, Net, NoWork};
use run_cells::{Cell, Gate, ListGate, NetMap, into_cells};
use run_turns::start_told;
use std::alloc::Global;
use std::sync::Wait;
use std::test::Fail;
use std::thread::Threads;
use task_script::{law_script, read_script};
use task_words::{Kept, Pass, Turn, Wk};

// Three tasks on two processors: the first and the third are started on one, the second on the other.
const SCRIPT: &str =
    "cpus 2\nroom 1\ntask a count 3\ntask b upper from a\ntask c tally from b\nend\n";

// A gate that refuses after so many turns.
#[derive(Drop)]
struct Narrow {
    left: u32,
}

impl Gate for Narrow {
    ghost told = { λ _. None };

    fn tell(&mut self, _turn: &Turn) -> Result<(), NoMemory> {
        if self.left == 0 {
            return Err(NoMemory);
        }
        self.left -= 1;
        Ok(())
    }
}

// Starts a task on this processor, if it is the task's.
fn start_own<B: Kept, G: Gate, R: Wait>(
    rt: &R,
    wk: &Wk<B>,
    pass: &mut Pass,
    gate: &mut Option<G>,
    t: TaskNo,
    c: CpuNo,
) -> Result<(), NoMemory>
    requires of { IsOf wk.now pass.old }
    requires task { t < wk.now.shape.tasks }
    requires processor { c < wk.now.shape.cpus }
    requires rest { IsAtRest pass.old }
    ensures same { IsOneSeat pass.old pass.new }
    ensures rest { OnOk result (IsAtRest pass.new) }
{
    if t % wk.shape().cpus == c {
        start_told(rt, wk, pass, gate, t, c)
    } else {
        Ok(())
    }
}

// The seat of a processor, on which each of its tasks is started.
fn seat_of<B: Kept, G: Gate, R: Wait>(
    rt: &R,
    alloc: Global,
    wk: &Wk<B>,
    pass: Pass,
    gate: Option<G>,
) -> Result<Seat<G>, NoMemory>
    requires of { IsOf wk.now pass }
    requires rest { IsAtRest pass }
    ensures ready { IfOk result (λ seat. IsReady wk.now seat) }
{
    let mut pass = pass;
    let mut gate = gate;
    let c = pass.seat();
    if c >= wk.shape().cpus {
        return Err(NoMemory);
    }
    for t in 0..wk.shape().tasks {
        start_own(rt, wk, &mut pass, &mut gate, t, c)?;
    }
    let dead = Vec::new(alloc);
    Ok(Seat { pass, gate, dead })
}

// The seats of all processors, each with one of the gates, as long as there are some.
fn seats_of<B: Kept, G: Gate, R: Wait>(
    rt: &R,
    alloc: Global,
    wk: &Wk<B>,
    passes: Vec<Pass>,
    gates: Vec<G>,
) -> Result<Vec<Seat<G>>, NoMemory>
    requires of { All (IsOf wk.now) passes.items }
    requires rest { All IsAtRest passes.items }
    ensures ready { IfOk result (λ seats. All (IsReady wk.now) seats.items) }
{
    let mut gates = gates;
    let mut seats = Vec::new(alloc);
    for pass in passes {
        seats.push(seat_of(rt, alloc, wk, pass, gates.pop())?)?;
    }
    Ok(seats)
}

// One worker for all seats.
fn together<B: Kept, G: Drop>(
    alloc: Global,
    wk: &Wk<B>,
    seats: Vec<Seat<G>>,
) -> Result<Vec<Worker<G>>, NoMemory>
    requires ready { All (IsReady wk.now) seats.items }
    ensures ready { IfOk result (λ ws. All (λ w. All (IsReady wk.now) w.seats.items) ws.items) }
{
    let mut workers = Vec::new(alloc);
    workers.push(Worker {
        seats,
        refused: false,
    })?;
    Ok(workers)
}

// A worker of one seat.
fn alone<B: Kept, G: Drop>(alloc: Global, wk: &Wk<B>, seat: Seat<G>) -> Result<Worker<G>, NoMemory>
    requires ready { IsReady wk.now seat }
    ensures ready { IfOk result (λ w. All (IsReady wk.now) w.seats.items) }
{
    let mut seats = Vec::new(alloc);
    seats.push(seat)?;
    Ok(Worker {
        seats,
        refused: false,
    })
}

// A worker for each seat.
fn apart<B: Kept, G: Drop>(
    alloc: Global,
    wk: &Wk<B>,
    seats: Vec<Seat<G>>,
) -> Result<Vec<Worker<G>>, NoMemory>
    requires ready { All (IsReady wk.now) seats.items }
    ensures ready { IfOk result (λ ws. All (λ w. All (IsReady wk.now) w.seats.items) ws.items) }
{
    let mut workers = Vec::new(alloc);
    for seat in seats {
        workers.push(alone(alloc, wk, seat)?)?;
    }
    Ok(workers)
}

fn deal<B: Kept, G: Drop>(
    alloc: Global,
    wk: &Wk<B>,
    seats: Vec<Seat<G>>,
    is_apart: bool,
) -> Result<Vec<Worker<G>>, NoMemory>
    requires ready { All (IsReady wk.now) seats.items }
    ensures ready { IfOk result (λ ws. All (λ w. All (IsReady wk.now) w.seats.items) ws.items) }
{
    if is_apart {
        apart(alloc, wk, seats)
    } else {
        together(alloc, wk, seats)
    }
}

// The table of a script, its passes, and the map of its conditions.
#[tactic(auto, using(run_turns::proofs::Beginning::firsts_rest))]
fn begin(alloc: Global, text: &str) -> Result<(Wk<Cell<NoWork>>, Vec<Pass>, NetMap), NoMemory>
    ensures of { IfOk result (λ r. All (IsOf r.0) r.1.items) }
    ensures rest { IfOk result (λ r. All IsAtRest r.1.items) }
    ensures net { IfOk result (λ r. IsNetMap r.2 r.0.shape) }
{
    let Ok(script) = read_script(alloc, text.as_bytes(), 0) else {
        return Err(NoMemory);
    };
    law_script();
    let net = NetMap::of(alloc, &script)?;
    let bodies: Vec<Body<NoWork>> = Net::build(alloc, &script, Vec::new(alloc))?;
    let cells = into_cells(alloc, bodies)?;
    if cells.len() != script.shape.tasks as usize {
        return Err(NoMemory);
    }
    let (wk, passes) = Wk::new(alloc, &script.shape, cells)?;
    Ok((wk, passes, net))
}

// What a run left.
#[derive(Drop)]
struct Left<G> {
    workers: Vec<Worker<G>>,
    is_granted: bool,
}

// A run of a script, with a gate for each seat as long as there are some, and with one worker a seat or one for all.
fn run_text<G: Gate + Send, R: Threads + Wait + Sync>(
    rt: &R,
    alloc: Global,
    text: &str,
    gates: Vec<G>,
    is_apart: bool,
) -> Result<Left<G>, NoMemory> {
    let (wk, passes, net) = begin(alloc, text)?;
    let seats = seats_of(rt, alloc, &wk, passes, gates)?;
    let mut workers = deal(alloc, &wk, seats, is_apart)?;
    let shared = Shared::new(wk.shape().tasks);
    let is_granted = run_rounds(rt, &wk, &net, &shared, &mut workers).is_ok();
    Ok(Left {
        workers,
        is_granted,
    })
}

// The tasks that died, in the order of their numbers.
fn dead_of<G>(alloc: Global, workers: &[Worker<G>]) -> Result<Vec<TaskNo>, NoMemory> {
    let mut all = Vec::new(alloc);
    for worker in workers {
        for seat in worker.seats.as_slice() {
            for t in seat.dead.as_slice() {
                all.push(*t)?;
            }
        }
    }
    all.sort()?;
    Ok(all)
}

// How many seats there are that have a gate.
fn gates_of<G>(workers: &[Worker<G>]) -> usize {
    let mut count: usize = 0;
    for worker in workers {
        for seat in worker.seats.as_slice() {
            if seat.gate.is_some() {
                count = count.saturating_add(1);
            }
        }
    }
    count
}

// Gates that keep their entries.
fn lists(alloc: Global, count: usize) -> Result<Vec<ListGate>, NoMemory> {
    let mut gates = Vec::new(alloc);
    for _ in 0..count {
        gates.push(ListGate::new(alloc))?;
    }
    Ok(gates)
}

// Gates that refuse.
fn refusing(alloc: Global, count: usize, left: u32) -> Result<Vec<Narrow>, NoMemory> {
    let mut gates = Vec::new(alloc);
    for _ in 0..count {
        gates.push(Narrow { left })?;
    }
    Ok(gates)
}

#[test]
fn each_task_dies_once(rt: HostRuntime) -> Result<(), Fail> {
    let alloc = rt.alloc();
    for is_apart in [false, true] {
        let left = run_text(&rt, alloc, SCRIPT, lists(alloc, 2)?, is_apart)?;
        assert_eq!(rt; left.is_granted, true);
        let dead = dead_of(alloc, left.workers.as_slice())?;
        assert_eq!(rt; dead.as_slice(), [0, 1, 2].as_slice());
        assert_eq!(rt; gates_of(left.workers.as_slice()), 2);
    }
    Ok(())
}

// Where there is no task all is over, and no worker is needed.
#[test]
fn no_tasks_need_no_worker(rt: HostRuntime) -> Result<(), Fail> {
    let (wk, _passes, net) = begin(rt.alloc(), "cpus 1\nend\n")?;
    let mut workers: Vec<Worker<ListGate>> = Vec::new(rt.alloc());
    let shared = Shared::new(wk.shape().tasks);
    let is_granted = run_rounds(&rt, &wk, &net, &shared, &mut workers).is_ok();
    assert_eq!(rt; is_granted, true);
    assert_eq!(rt; workers.len(), 0);
    Ok(())
}

// Two gates of three turns each: at most two of them go to starts, and the three tasks have more than four.
#[test]
fn a_gate_that_refuses_ends_the_run(rt: HostRuntime) -> Result<(), Fail> {
    let alloc = rt.alloc();
    for is_apart in [false, true] {
        let left = run_text(&rt, alloc, SCRIPT, refusing(alloc, 2, 3)?, is_apart)?;
        assert_eq!(rt; left.is_granted, false);
        assert_eq!(rt; gates_of(left.workers.as_slice()), 2);
    }
    Ok(())
}
