//! Runs with gates that keep their lists, with quiet ones, with too few and with one that refuses.
ghost use Rattle.std.specs.Prelude.{◌≡◌, ℕ, List, None, IfOk};
ghost use Rattle.task_script.specs.Script.{IsScript};

use super::*;
use handoff_data::{Entry, Journals, NoMemory};
use pipe_bodies::NoWork;
use run_cells::{Gate, ListGate};
use std::alloc::Global;
use std::process::Abort;
use std::sync::Wait;
use std::test::Fail;
use std::thread::Threads;
use task_script::{Script, read_script};
use task_words::Turn;

// Two tasks that meet on a ring of one, and one that stands alone.
const SCRIPT: &str = "cpus 2\nroom 1\ntask a count 3\ntask b upper from a\ntask c count 1\nend\n";

// So many entries these tasks make at least: each is new, is picked, finishes and dies.
const LEAST: usize = 12;

#[tactic(auto, using(run_script::proofs::TestScripts::some_script))]
fn script_of(alloc: Global, text: &str) -> Result<Script, NoMemory>
    ensures script { IfOk result (λ s. (bytes : List ℕ) × IsScript 0 bytes s) }
{
    match read_script(alloc, text.as_bytes(), 0) {
        Ok(script) => Ok(script),
        Err(_) => Err(NoMemory),
    }
}

// Runs the script with these gates, and looks at what isn't the gates' matter.
fn journals_with<G: Gate + Send, R: Abort + AllocGlobal + Threads + Wait + Sync>(
    rt: &R,
    gates: &mut Vec<G>,
) -> Result<Journals, NoMemory> {
    let script = script_of(rt.alloc(), SCRIPT)?;
    let count = gates.len();
    let (lines, journals) = run_traced::<NoWork, G, R>(
        rt,
        rt.alloc(),
        &script,
        2,
        gates,
        Vec::new(rt.alloc()),
    )?;
    assert_eq!(rt; gates.len(), count);
    assert_eq!(rt; lines.len(), 3);
    assert_eq!(rt; (journals.cpus, journals.tasks), (2, 3));
    assert_eq!(rt; journals.seats.len(), 2);
    let mut entries = 0usize;
    for journal in &journals.seats {
        entries = entries.saturating_add(journal.as_slice().len());
    }
    assert!(rt; entries >= LEAST);
    Ok(journals)
}

#[test]
fn gates_are_told_the_journals(rt: HostRuntime) -> Result<(), Fail> {
    for count in 0..4usize {
        let mut gates = Vec::new(rt.alloc());
        for i in 0..count {
            // The first is quiet.
            gates.push(if i == 0 {
                ListGate::quiet()
            } else {
                ListGate::new(rt.alloc())
            })?;
        }
        let journals = journals_with(&rt, &mut gates)?;
        for (i, gate) in gates.iter().enumerate() {
            let expected: Option<&[Entry]> = match journals.seats.get(i) {
                _ if i == 0 => None,
                Some(journal) => Some(journal.as_slice()),
                None => Some(&[]),
            };
            assert_eq!(rt; gate.entries(), expected);
        }
    }
    Ok(())
}

// A gate that takes so many turns, and refuses those behind.
#[derive(Drop)]
struct Refusing {
    left: u64,
}

impl Gate for Refusing {
    ghost told = { λ _. None };

    fn tell(&mut self, _turn: &Turn) -> Result<(), NoMemory> {
        if self.left == 0 {
            return Err(NoMemory);
        }
        self.left -= 1;
        Ok(())
    }
}

#[test]
fn a_refusal_ends_the_run_and_the_gates_are_back(rt: HostRuntime) -> Result<(), Fail> {
    for left in 0..3 {
        let mut gates = Vec::new(rt.alloc());
        gates.push(Refusing { left })?;
        assert!(rt; journals_with(&rt, &mut gates).is_err());
        assert_eq!(rt; gates.len(), 1);
    }
    Ok(())
}
