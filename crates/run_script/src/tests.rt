//! Whole scripts: their lines are written out and compared with the plain run, and their journals are judged.
ghost use Rattle.std.specs.Prelude.{◌≡◌, ℕ, List, Option, None, IfOk};
ghost use Rattle.handoff_data.specs.declared.entry.Entry.{Entry};
ghost use Rattle.task_script.specs.Forest.{IsForest};
ghost use Rattle.task_script.specs.Script.{IsScript};

use super::*;
use handoff_data::{Entry, Journal, Journals, Lines, NoMemory};
use journal_legal::{Verdict, legal};
use pipe_bodies::NoWork;
use pipe_tasks::run_forest;
use run_cells::{Gate, ListGate};
use std::alloc::Global;
use std::process::Abort;
use std::sync::atomic::{AtomicU64, Ordering};
use std::sync::{Arc, Wait};
use std::test::Fail;
use std::thread::Threads;
use task_script::{Script, read_script};
use task_words::Turn;

const WORKERS: [u32; 6] = [1, 2, 3, 4, 8, 16];

const HELLO: &str =
    "cpus 1\ntask a lines\n| hello\n| world\ntask b upper from a\ntask c number from b\nend\n";

#[tactic(auto, using(crate::proofs::TestScripts::some_script))]
fn script_of(alloc: Global, text: &str) -> Result<Script, NoMemory>
    ensures script { IfOk result (λ s. (bytes : List ℕ) × IsScript 0 bytes s) }
    ensures forest { IfOk result (λ s. IsForest s.tasks) }
{
    match read_script(alloc, text.as_bytes(), 0) {
        Ok(script) => Ok(script),
        Err(_) => Err(NoMemory),
    }
}

fn list_gates(alloc: Global, count: u32) -> Result<Vec<ListGate>, NoMemory> {
    let mut gates = Vec::new(alloc);
    for _ in 0..count {
        gates.push(ListGate::new(alloc))?;
    }
    Ok(gates)
}

// The entries that a gate was told; none where it keeps none.
fn journal_of(alloc: Global, gate: &ListGate) -> Result<Journal, NoMemory> {
    let mut journal = Journal::new(alloc);
    if let Some(entries) = gate.entries() {
        for entry in entries {
            journal.push(*entry)?;
        }
    }
    Ok(journal)
}

// The verdict on what the gates were told, one a seat.
fn verdict_on(alloc: Global, script: &Script, gates: &[ListGate]) -> Result<Verdict, NoMemory> {
    let mut seats = Vec::new(alloc);
    for gate in gates {
        seats.push(journal_of(alloc, gate)?)?;
    }
    let journals = Journals {
        cpus: script.shape.cpus,
        tasks: script.shape.tasks,
        seats,
    };
    if journals.seats.len() > 16 {
        return Err(NoMemory);
    }
    legal(alloc, &journals)
}

// The lines of all tasks are these, one after another.
fn expect_lines<R: Abort>(rt: &R, found: &[Lines], expected: &[&str], text: &str, workers: u32) {
    let mut next = 0;
    for lines in found {
        for i in 0..lines.len() {
            if let Some(line) = lines.get(i) {
                assert!(rt; next < expected.len(), "{workers} workers, {text}");
                assert_eq!(rt;
                    line.as_slice(),
                    expected[next].as_bytes(),
                    "{workers} workers, {text}"
                );
                next += 1;
            }
        }
    }
    assert_eq!(rt; next, expected.len(), "{workers} workers, {text}");
}

fn is_same(found: &Lines, expected: &Lines) -> bool {
    for i in 0..found.len().max(expected.len()) {
        let same = match (found.get(i), expected.get(i)) {
            (Some(a), Some(b)) => a.equals(b),
            _ => false,
        };
        if !same {
            return false;
        }
    }
    true
}

// A run with a gate for each seat gives these lines, as the plain run does, and its journals are one legal history ..
fn expect_run<R: Abort + AllocGlobal + Threads + Wait + Sync>(
    rt: &R,
    text: &str,
    script: &Script,
    workers: u32,
    expected: &[&str],
) -> Result<(), NoMemory>
    requires { (bytes : List ℕ) × IsScript 0 bytes script.now }
{
    assert!(rt; 0 < workers && workers <= 16);
    let mut gates = list_gates(rt.alloc(), script.shape.cpus)?;
    let lines = run_script::<NoWork, ListGate, R>(
        rt,
        rt.alloc(),
        script,
        workers,
        &mut gates,
        Vec::new(rt.alloc()),
    )?;
    expect_lines(rt, lines.as_slice(), expected, text, workers);
    let plain = run_forest(rt.alloc(), script_of(rt.alloc(), text)?)?;
    assert_eq!(rt; lines.len(), plain.len(), "{workers} workers, {text}");
    for t in 0..lines.len().min(plain.len()) {
        assert!(rt; is_same(&lines[t], &plain[t]), "{workers} workers, {text}");
    }
    let verdict = verdict_on(rt.alloc(), script, gates.as_slice())?;
    assert_eq!(rt; verdict, Verdict::Legal, "{workers} workers, {text}");
    Ok(())
}

// .. at each number of workers.
fn expect_runs<R: Abort + AllocGlobal + Threads + Wait + Sync>(
    rt: &R,
    text: &str,
    expected: &[&str],
) -> Result<(), NoMemory> {
    let script = script_of(rt.alloc(), text)?;
    for workers in WORKERS {
        expect_run(rt, text, &script, workers, expected)?;
    }
    Ok(())
}

#[test]
fn scripts_give_their_lines_at_each_number_of_workers(rt: HostRuntime) -> Result<(), Fail> {
    let cases: [(&str, &[&str]); 10] = [
        ("cpus 1\nend\n", &[]),
        ("cpus 16\nend\n", &[]),
        (HELLO, &["1 HELLO", "2 WORLD"]),
        ("cpus 1\ntask a lines\nend", &[]),
        ("cpus 2\ntask a lines\n|\n|  x \nend", &["", " x "]),
        (
            "cpus 2\ntask a count 2\ntask b lines\n| z\nend\n",
            &["1", "2", "z"],
        ),
        (
            "cpus 2\nroom 1\ntask a lines\n| x\ntask b count 3\ntask w weave from a b\nend\n",
            &["x", "1", "2", "3"],
        ),
        (
            "cpus 3\nroom 1\ntask a lines\ntask b count 2\ntask c cat from a b\nend\n",
            &["1", "2"],
        ),
        (
            "cpus 3\ntask a lines\n| ab\n| b\n|\ntask k keep a from a\ntask c count 11\ntask d drop 1 from c\nend\n",
            &["ab", "2", "3", "4", "5", "6", "7", "8", "9"],
        ),
        (
            "cpus 8\ntask a lines\ntask b lines\ntask w weave from a b\ntask c lines\ntask d lines\ntask e cat from d c\nend\n",
            &[],
        ),
    ];
    for (text, expected) in cases {
        expect_runs(&rt, text, expected)?;
    }
    Ok(())
}

// Rings with room for one line, between processors that different workers drive.
#[test]
fn lines_go_through_rings_with_room_for_one(rt: HostRuntime) -> Result<(), Fail> {
    let tally = "cpus 4\nroom 1\ntask a count 500\ntask t tally from a\nend\n";
    expect_runs(&rt, tally, &["500"])?;
    let chain =
        "cpus 16\nroom 1\ntask a count 100\ntask b number from a\ntask c upper from b\ntask d tally from c\ntask e count 2\nend\n";
    expect_runs(&rt, chain, &["100", "1", "2"])?;
    Ok(())
}

// A gate with a number, which refuses a call of its own and tells no list.
#[derive(Drop)]
struct Refuser {
    number: u32,
    // How many calls come before the one that it refuses.
    left: u64,
}

impl Gate for Refuser {
    ghost told = { λ _. None };

    fn tell(&mut self, _turn: &Turn) -> Result<(), NoMemory> {
        if self.left == 0 {
            return Err(NoMemory);
        }
        self.left -= 1;
        Ok(())
    }
}

// So many gates, of which this one refuses a call, and the others none.
fn refusers(alloc: Global, count: u32, which: u32, call: u64) -> Result<Vec<Refuser>, NoMemory> {
    let mut gates = Vec::new(alloc);
    for number in 0..count {
        let left = if number == which { call } else { u64::MAX };
        gates.push(Refuser { number, left })?;
    }
    Ok(gates)
}

// Whether a run with such gates has its memory. All gates come back, each to its place.
fn runs_with<R: Abort + AllocGlobal + Threads + Wait + Sync>(
    rt: &R,
    script: &Script,
    workers: u32,
    gates: (u32, u32),
    call: u64,
) -> Result<bool, NoMemory>
    requires { (bytes : List ℕ) × IsScript 0 bytes script.now }
{
    assert!(rt; 0 < workers && workers <= 16);
    let (count, which) = gates;
    let mut gates = refusers(rt.alloc(), count, which, call)?;
    let customs = Vec::new(rt.alloc());
    let run = run_script::<NoWork, Refuser, R>(
        rt,
        rt.alloc(),
        script,
        workers,
        &mut gates,
        customs,
    );
    assert_eq!(rt; gates.len(), count as usize);
    for number in 0..count {
        assert_eq!(rt;
            gates[number as usize].number,
            number,
            "call {call} of {which}"
        );
    }
    Ok(run.is_ok())
}

// The starts of three tasks, and each switch of the first processor, are told: a gate that refuses one of them ends the
// run without memory. One beyond the seats is never told anything.
#[test]
fn a_gate_that_refuses_a_call_ends_the_run_and_comes_back(rt: HostRuntime) -> Result<(), Fail> {
    let script = script_of(rt.alloc(), HELLO)?;
    for call in 0..6 {
        assert!(rt; !runs_with(&rt, &script, 1, (1, 0), call)?, "call {call}");
        assert!(rt; !runs_with(&rt, &script, 16, (3, 0), call)?, "call {call}");
        assert!(rt; runs_with(&rt, &script, 2, (3, 1), call)?, "call {call}");
    }
    let text = "cpus 4\nroom 1\ntask a count 9\ntask b number from a\ntask c tally from b\nend\n";
    let script = script_of(rt.alloc(), text)?;
    for workers in WORKERS {
        for seat in 0..3 {
            for call in 0..3 {
                assert!(rt;
                    !runs_with(&rt, &script, workers, (4, seat), call)?,
                    "call {call}"
                );
                assert!(rt;
                    !runs_with(&rt, &script, workers, (3, seat), call)?,
                    "call {call}"
                );
            }
        }
        assert!(rt; runs_with(&rt, &script, workers, (6, 5), 0)?);
        assert!(rt; runs_with(&rt, &script, workers, (0, 0), 0)?);
    }
    Ok(())
}

// Where there are fewer gates than seats, those that are there are told.
#[test]
fn a_missing_gate_is_not_told_and_the_others_are(rt: HostRuntime) -> Result<(), Fail> {
    let text = "cpus 3\ntask a count 1\ntask b count 1\ntask c count 1\nend\n";
    let script = script_of(rt.alloc(), text)?;
    for workers in WORKERS {
        assert!(rt; 0 < workers && workers <= 16);
        let mut gates = list_gates(rt.alloc(), 2)?;
        let lines = run_script::<NoWork, ListGate, HostRuntime>(
            &rt,
            rt.alloc(),
            &script,
            workers,
            &mut gates,
            Vec::new(rt.alloc()),
        )?;
        expect_lines(&rt, lines.as_slice(), &["1", "1", "1"], text, workers);
        assert_eq!(rt; gates.len(), 2);
        for t in 0..2 {
            let entries = [
                Entry::New { t, m: 1, c: t },
                Entry::Pick { t, n: 1, c: t },
                Entry::Die { t, m: 2, c: t },
                Entry::Finish { t, n: 2, c: t },
            ];
            assert_eq!(rt;
                gates[t as usize].entries(),
                Some(entries.as_slice()),
                "{workers} workers"
            );
        }
    }
    Ok(())
}

// The flags of two gates, and a gate that sets its own at its first turn with entries of a pick.
#[derive(Drop)]
struct Flags {
    first: AtomicU64,
    second: AtomicU64,
}

#[derive(Drop)]
struct Meeting {
    is_first: bool,
    flags: Arc<Flags, Global>,
    has_looked: bool,
    has_met: bool,
}

fn has_pick(turn: &Turn) -> bool {
    for i in 0..8 {
        if let Some(Entry::Pick { .. }) = turn.get(i) {
            return true;
        }
    }
    false
}

// Sets the own flag, and looks for the other one at most 100,000,000 times.
fn meets(flags: &Flags, is_first: bool) -> bool {
    let (own, other) = if is_first {
        (&flags.first, &flags.second)
    } else {
        (&flags.second, &flags.first)
    };
    own.store(1, Ordering::SeqCst);
    for _ in 0..100_000_000 {
        if other.load(Ordering::SeqCst) == 1 {
            return true;
        }
    }
    false
}

impl Gate for Meeting {
    ghost told = { λ _. None };

    fn tell(&mut self, turn: &Turn) -> Result<(), NoMemory> {
        if !self.has_looked && has_pick(turn) {
            self.has_looked = true;
            self.has_met = meets(&self.flags, self.is_first);
        }
        Ok(())
    }
}

fn make_meeting(alloc: Global) -> Result<Vec<Meeting>, NoMemory> {
    let flags = Arc::new(
        alloc,
        Flags {
            first: AtomicU64::new(0),
            second: AtomicU64::new(0),
        },
    )?;
    let mut gates = Vec::new(alloc);
    for is_first in [true, false] {
        gates.push(Meeting {
            is_first,
            flags: Arc::try_clone(&flags)?,
            has_looked: false,
            has_met: false,
        })?;
    }
    Ok(gates)
}

// Two workers run at the same time: each finds the other within its turn.
#[test]
fn two_workers_meet(rt: HostRuntime) -> Result<(), Fail> {
    let script = script_of(rt.alloc(), "cpus 2\ntask a count 1\ntask b count 1\nend\n")?;
    let mut gates = make_meeting(rt.alloc())?;
    let customs = Vec::new(rt.alloc());
    run_script::<NoWork, Meeting, HostRuntime>(&rt, rt.alloc(), &script, 2, &mut gates, customs)?;
    for gate in gates {
        assert!(rt; gate.has_looked && gate.has_met);
    }
    Ok(())
}
