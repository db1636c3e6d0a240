// Gates of other kinds: one that refuses a call, and two that wait for each other.
ghost use Rattle.std.specs.Prelude.{◌≡◌, OnOk, OnErr, None};
ghost use Rattle.run_cells.specs.Telling.{told_after};

use super::*;
use crate::calls::call_on;
use handoff_data::{Entry, NoMemory};
use std::process::Abort;
use std::sync::Wait;
use std::sync::atomic::{AtomicU32, Ordering};
use std::test::Fail;
use std::thread::Threads;
use task_words::Turn;

// How often a gate looks for the other.
const LOOKS: u32 = 100_000_000;

// How many calls a gate gets at most in the runs here.
const CALLS: u64 = 10_000;

// A gate that takes so many turns, and refuses those behind.
#[derive(Drop)]
struct Refusing {
    left: u64,
    list: ListGate,
}

impl Gate for Refusing {
    ghost told = { λ gate. gate.list };

    fn tell(&mut self, turn: &Turn) -> Result<(), NoMemory> {
        if self.left == 0 {
            return Err(NoMemory);
        }
        self.list.tell(turn)?;
        self.left -= 1;
        Ok(())
    }
}

// The words of a run on two workers, and of one that keeps its journals.
const RUNS: [&[&str]; 2] = [
    &["run", "--workers", "2"],
    &["run", "--workers", "2", "--trace"],
];

// Whether this stands at the front.
fn begins_with(bytes: &[u8], front: &[u8]) -> bool {
    let (begin, _) = bytes.split_at(front.len().min(bytes.len()));
    begin == front
}

// Runs a script of two processors on two workers, where the gate of a seat takes so many turns; whether it was run.
fn run_refused<R: Abort + AllocGlobal + Threads + Wait + Sync>(
    rt: &R,
    texts: &[&str],
    seat: u32,
    left: u64,
) -> Result<bool, NoMemory> {
    let script = "cpus 2\nroom 1\ntask a count 4\ntask b upper from a\ntask c count 1\nend\n";
    let mut gates = Vec::new(rt.alloc());
    for s in 0..2u32 {
        gates.push(Refusing {
            left: if s == seat { left } else { u64::MAX },
            list: ListGate::new(rt.alloc()),
        })?;
    }
    let (status, taken) = call_on(rt, texts, script.as_bytes(), (&[], &[]), &mut gates)?;
    assert_eq!(rt; gates.len(), 2);
    if status == Status::Ok {
        let report = b"b: 1\nb: 2\nb: 3\nb: 4\nc: 1\n";
        assert!(rt; begins_with(taken.as_slice(), report));
        return Ok(true);
    }
    assert_eq!(rt; status, Status::NoMemory);
    assert!(rt; taken.is_empty());
    Ok(false)
}

// How many turns the gate of a seat takes in a run in which it refuses none; every shorter row of turns ended the run.
fn turns_of<R: Abort + AllocGlobal + Threads + Wait + Sync>(
    rt: &R,
    texts: &[&str],
    seat: u32,
) -> Result<Option<u64>, NoMemory> {
    for left in 0..CALLS {
        if run_refused(rt, texts, seat, left)? {
            return Ok(Some(left));
        }
    }
    Ok(None)
}

#[test]
fn a_gate_that_refuses_a_call_ends_the_run_unwritten(rt: HostRuntime) -> Result<(), Fail> {
    for texts in RUNS {
        for seat in 0..2 {
            let turns = turns_of(&rt, texts, seat)?;
            assert!(rt; turns.unwrap_or(0) > 0);
        }
    }
    Ok(())
}

// A gate that, at its first turn with a pick, shows itself and looks for the other.
#[derive(Drop)]
struct Meeting<'a> {
    own: &'a AtomicU32,
    other: &'a AtomicU32,
    has_met: bool,
}

fn has_pick(turn: &Turn) -> bool {
    for i in 0..usize::MAX {
        match turn.get(i) {
            Some(Entry::Pick { .. }) => return true,
            Some(_) => {}
            None => return false,
        }
    }
    false
}

// Whether the other shows itself within the looks.
fn meet(own: &AtomicU32, other: &AtomicU32) -> bool {
    own.store(1, Ordering::SeqCst);
    for _ in 0..LOOKS {
        if other.load(Ordering::SeqCst) == 1 {
            return true;
        }
    }
    false
}

impl<'a> Gate for Meeting<'a> {
    ghost told = { λ _. None };

    // Out of looks it refuses, and the run doesn't answer Ok.
    fn tell(&mut self, turn: &Turn) -> Result<(), NoMemory> {
        if !self.has_met && has_pick(turn) {
            self.has_met = meet(self.own, self.other);
            if !self.has_met {
                return Err(NoMemory);
            }
        }
        Ok(())
    }
}

// Two gates meet in the middle of a run, so they are told while it goes on.
fn expect_meeting<R: Abort + AllocGlobal + Threads + Wait + Sync>(
    rt: &R,
    texts: &[&str],
) -> Result<(), NoMemory> {
    let script = "cpus 2\ntask a count 1\ntask b count 1\nend\n";
    let first = AtomicU32::new(0);
    let second = AtomicU32::new(0);
    let mut gates = Vec::new(rt.alloc());
    gates.push(Meeting {
        own: &first,
        other: &second,
        has_met: false,
    })?;
    gates.push(Meeting {
        own: &second,
        other: &first,
        has_met: false,
    })?;
    let (status, taken) = call_on(rt, texts, script.as_bytes(), (&[], &[]), &mut gates)?;
    assert_eq!(rt; status, Status::Ok);
    assert!(rt; begins_with(taken.as_slice(), b"a: 1\nb: 1\n"));
    for gate in &gates {
        assert!(rt; gate.has_met);
    }
    Ok(())
}

#[test]
fn two_workers_run_beside_each_other(rt: HostRuntime) -> Result<(), Fail> {
    for texts in RUNS {
        expect_meeting(&rt, texts)?;
    }
    Ok(())
}
