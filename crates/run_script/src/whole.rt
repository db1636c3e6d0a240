//! The run of a script.
ghost use Rattle.std.specs.Prelude.{◌≡◌, ◌<◌, ◌≤◌, ◌+◌, ℕ, List, All, IfOk, OnOk, length, map};
ghost use Rattle.pipe_tasks.specs.Tasks.{forest_lines, meant_tasks};
ghost use Rattle.run_cells.specs.NetMaps.{IsNetMap};
ghost use Rattle.run_rounds.specs.Seats.{IsReady, GoOn};
ghost use Rattle.run_script.specs.Ran.{HasRun};
ghost use Rattle.run_script.specs.Seated.{AreOver};
ghost use Rattle.run_script.specs.Told.{TellsRun, WereTold};
ghost use Rattle.task_script.specs.Script.{IsScript};
ghost use Rattle.task_words.specs.Closing.{first_passes};

use crate::dealing::{deal, gather, workers_of};
use crate::seats::{leave, put_rest, sit};
use crate::starts::start_all;
use handoff_data::{Lines, NoMemory};
use pipe_bodies::{Body, Net, Work, law_lastings};
use run_cells::{Cell, Gate, NetMap, finish_run, into_cells};
use run_rounds::{Seat, Shared, run_rounds};
use std::alloc::Global;
use std::mem;
use std::sync::Wait;
use std::thread::Threads;
use task_script::{Script, law_script};
use task_words::{Pass, Wk};

// Deals the seats to the workers, who run the tasks to their end, and takes them back, in their order.
fn drive<W: Work, G: Gate + Send, R: Threads + Wait + Sync>(
    rt: &R,
    alloc: Global,
    wk: &Wk<Cell<W>>,
    net: &NetMap,
    workers: u32,
    seats: &mut Vec<Seat<G>>,
) -> Result<(), NoMemory>
    requires net { IsNetMap net.now wk.now.shape }
    requires workers { 0 < workers }
    requires ready { All (IsReady wk.now) seats.old.items }
    requires count { length seats.old.items ≡ wk.now.shape.cpus }
    ensures goes { GoOn G.told seats.old.items seats.new.items }
    ensures ready { OnOk result (All (IsReady wk.now) seats.new.items) }
    ensures over { OnOk result (AreOver wk.now.shape.tasks seats.new.items) }
{
    let shared = Shared::new(wk.shape().tasks);
    let count = seats.len();
    let mut crew = workers_of(alloc, (workers as usize).min(count), count)?;
    deal(seats, &mut crew);
    let run = run_rounds(rt, wk, net, &shared, &mut crew);
    // The seats come back also where memory was refused, so that no gate is lost.
    gather(&mut crew, seats, count);
    run
}

// Starts the tasks and runs them to their end.
#[tactic(auto, using(crate::proofs::Driving::as_many))]
fn run_seats<W: Work, G: Gate + Send, R: Threads + Wait + Sync>(
    rt: &R,
    alloc: Global,
    wk: &Wk<Cell<W>>,
    net: &NetMap,
    workers: u32,
    seats: &mut Vec<Seat<G>>,
) -> Result<(), NoMemory>
    requires net { IsNetMap net.now wk.now.shape }
    requires workers { 0 < workers }
    requires ready { All (IsReady wk.now) seats.old.items }
    requires count { length seats.old.items ≡ wk.now.shape.cpus }
    ensures goes { GoOn G.told seats.old.items seats.new.items }
    ensures ready { OnOk result (All (IsReady wk.now) seats.new.items) }
    ensures over { OnOk result (AreOver wk.now.shape.tasks seats.new.items) }
{
    start_all(rt, wk, seats)?;
    drive(rt, alloc, wk, net, workers, seats)
}

// Runs the tasks of a new table, whose passes these are, and gives the passes back, in their order.
#[tactic(auto, using(crate::proofs::Runs::none_told))]
fn run_gates<W: Work, G: Gate + Send, R: Threads + Wait + Sync>(
    rt: &R,
    alloc: Global,
    wk: &Wk<Cell<W>>,
    net: &NetMap,
    workers: u32,
    passes: Vec<Pass>,
    gates: &mut Vec<G>,
) -> Result<Vec<Pass>, NoMemory>
    requires net { IsNetMap net.now wk.now.shape }
    requires workers { 0 < workers }
    requires agents { wk.now.shape.agents ≡ 0 }
    requires passes { passes.items ≡ first_passes wk.now.name wk.now.shape wk.now.lasting wk.now.shape.cpus }
    ensures count { length gates.new.items ≡ length gates.old.items }
    ensures part { WereTold G.told (wk.now.shape.cpus + wk.now.shape.agents) gates.old.items gates.new.items }
    ensures ran { IfOk result (λ r. HasRun G.told wk.now gates.old.items gates.new.items r.items) }
{
    // All memory for the way back is taken before a gate is moved.
    let mut seats = Vec::with_capacity(alloc, passes.len())?;
    let mut back = Vec::with_capacity(alloc, passes.len())?;
    let home = Vec::with_capacity(alloc, gates.len())?;
    let mut given = mem::replace(gates, home).into_iter();
    sit(alloc, passes, &mut given, &mut seats);
    let run = run_seats(rt, alloc, wk, net, workers, &mut seats);
    leave(seats, &mut back, gates);
    put_rest(given, gates);
    run?;
    Ok(back)
}

/// Runs a script on the scheduler, and answers the lines of each task that no other reads, with no lines in the place
/// of a task that is read: those of the plain run, where the plan of a task of `custom` is what the work of its number
/// means as it is handed in. The work is moved into the body of the task, and dropped with it.
///
/// Task t is started on processor t mod processors, in the order of the script. Then at most so many workers, each in a
/// thread of its own where one can be made, drive the processors until every task has died: worker w those with a
/// number that is w mod workers. The entries of each call are told to the gate with the processor's number before that
/// processor makes the next call. A processor beyond the gates tells nobody, and a gate beyond the processors is told
/// nothing.
///
/// NoMemory comes where memory ends, or a gate, a body or a work refuses. All workers are joined, and each gate is back
/// at its place, also then.
#[tactic(auto, using(crate::proofs::Runs::none_told))]
pub fn run_script<W: Work, G: Gate + Send, R: Threads + Wait + Sync>(
    rt: &R,
    alloc: Global,
    script: &Script,
    workers: u32,
    gates: &mut Vec<G>,
    customs: Vec<W>,
) -> Result<Vec<Lines>, NoMemory>
    requires script { (bytes : List ℕ) × IsScript (length customs.items) bytes script.now }
    requires workers { (0 < workers) × (workers ≤ 16) }
    ensures lines { IfOk result (λ r. r.items
        ≡ forest_lines (meant_tasks (map W.meaning customs.items) script.now.tasks)) }
    ensures told { OnOk result (TellsRun G.told script.now gates.old.items gates.new.items) }
    ensures gates { length gates.new.items ≡ length gates.old.items }
    // Also where memory is refused each gate is back, and was told some of what its seat did.
    ensures part { WereTold G.told (script.now.shape.cpus + script.now.shape.agents) gates.old.items gates.new.items }
{
    law_script();
    law_lastings();
    let net = NetMap::of(alloc, script)?;
    let bodies: Vec<Body<W>> = Net::build(alloc, script, customs)?;
    let (wk, passes) = Wk::new(alloc, &script.shape, into_cells(alloc, bodies)?)?;
    let passes = run_gates(rt, alloc, &wk, &net, workers, passes, gates)?;
    finish_run(alloc, script.tasks.as_slice(), wk, passes)
}
