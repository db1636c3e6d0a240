//! The run of a script that keeps its journals.
ghost use Rattle.std.specs.Prelude.{◌≡◌, ◌<◌, ◌≤◌, ◌+◌, ℕ, List, length, map, IfOk};
ghost use Rattle.pipe_tasks.specs.Tasks.{forest_lines, meant_tasks};
ghost use Rattle.run_script.specs.Told.{TellsRun, WereTold};
ghost use Rattle.run_trace.specs.Traces.{TellsJournals};
ghost use Rattle.run_trace.specs.Wrapped.{items_of};
ghost use Rattle.task_script.specs.Script.{IsScript};

use crate::wrapping::{put_on, put_rest, take_off};
use handoff_data::{Entry, Journal, Journals, Lines, NoMemory};
use pipe_bodies::Work;
use run_cells::Gate;
use run_script::run_script;
use std::alloc::Global;
use std::mem;
use std::sync::Wait;
use std::thread::Threads;
use task_script::Script;

// Runs a script with a list beside each gate, and answers its lines and the list of each seat.
#[tactic(auto, using(run_script::proofs::Runs::none_told))]
fn run_around<W: Work, G: Gate + Send, R: Threads + Wait + Sync>(
    rt: &R,
    alloc: Global,
    script: &Script,
    workers: u32,
    gates: &mut Vec<G>,
    customs: Vec<W>,
) -> Result<(Vec<Lines>, Vec<Vec<Entry>>), NoMemory>
    requires script { (bytes : List ℕ) × IsScript (length customs.items) bytes script.now }
    requires workers { (0 < workers) × (workers ≤ 16) }
    ensures lines { IfOk result (λ r. r.0.items
        ≡ forest_lines (meant_tasks (map W.meaning customs.items) script.now.tasks)) }
    ensures told { IfOk result (λ r. (t : TellsRun G.told script.now gates.old.items gates.new.items)
        × (t.journals.seats ≡ map items_of r.1.items)) }
    ensures gates { length gates.new.items ≡ length gates.old.items }
    ensures part { WereTold G.told (script.now.shape.cpus + script.now.shape.agents) gates.old.items gates.new.items }
{
    let seats = script.shape.cpus as usize + script.shape.agents as usize;
    // All memory for the way back is taken before a gate is moved.
    let mut kept = Vec::with_capacity(alloc, seats)?;
    let mut lists = Vec::with_capacity(alloc, seats)?;
    let home = Vec::with_capacity(alloc, gates.len())?;
    let mut given = mem::replace(gates, home).into_iter();
    put_on(alloc, seats, &mut given, &mut kept);
    let run = run_script::<W, _, R>(rt, alloc, script, workers, &mut kept, customs);
    take_off(kept, gates, &mut lists);
    put_rest(given, gates);
    let lines = run?;
    Ok((lines, lists))
}

// The journal of these entries.
fn journal_of(alloc: Global, entries: Vec<Entry>) -> Result<Journal, NoMemory>
    ensures { IfOk result (λ j. j ≡ entries.items) }
{
    let mut journal = Journal::new(alloc);
    for entry in entries {
        journal.push(entry)?;
    }
    Ok(journal)
}

// The journals of these lists. A list is let go as soon as its journal is there.
fn journals_of(alloc: Global, lists: Vec<Vec<Entry>>) -> Result<Vec<Journal>, NoMemory>
    ensures { IfOk result (λ seats. seats.items ≡ map items_of lists.items) }
{
    let mut seats = Vec::new(alloc);
    for entries in lists {
        seats.push(journal_of(alloc, entries)?)?;
    }
    Ok(seats)
}

/// Runs a script as `run_script` does, and answers its journals beside its lines. Each gate is told the entries of each
/// call of its seat before the next call of that seat, as in a run without journals; a seat without a gate, and a seat
/// whose gate keeps no list, has its journal all the same.
///
/// All entries are held in memory, and for a moment those of one seat twice. NoMemory comes where memory ends, or a
/// gate, a body or a work refuses; each gate is back at its place also then.
pub fn run_traced<W: Work, G: Gate + Send, R: Threads + Wait + Sync>(
    rt: &R,
    alloc: Global,
    script: &Script,
    workers: u32,
    gates: &mut Vec<G>,
    customs: Vec<W>,
) -> Result<(Vec<Lines>, Journals), NoMemory>
    requires script { (bytes : List ℕ) × IsScript (length customs.items) bytes script.now }
    requires workers { (0 < workers) × (workers ≤ 16) }
    ensures lines { IfOk result (λ r. r.0.items
        ≡ forest_lines (meant_tasks (map W.meaning customs.items) script.now.tasks)) }
    ensures told { IfOk result (λ r. TellsJournals G.told script.now r.1 gates.old.items gates.new.items) }
    ensures gates { length gates.new.items ≡ length gates.old.items }
    // Also where memory is refused each gate is back, and was told some of what its seat did.
    ensures part { WereTold G.told (script.now.shape.cpus + script.now.shape.agents) gates.old.items gates.new.items }
{
    let (lines, lists) = run_around::<W, G, R>(rt, alloc, script, workers, gates, customs)?;
    let journals = Journals {
        cpus: script.shape.cpus,
        tasks: script.shape.tasks,
        seats: journals_of(alloc, lists)?,
    };
    Ok((lines, journals))
}
