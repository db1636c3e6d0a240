// Runs of scripts on the scheduler, with gates. Expected reports are those of the scripts' plain meaning, found by
// hand. The journals of each run are judged.
use super::*;
use crate::calls::{HELLO, HELLO_REPORT, call_on, lists, run_on};
use handoff_data::{Entry, Journal, Journals, NoMemory};
use journal_legal::{Verdict, legal};
use std::alloc::Global;
use std::process::Abort;
use std::sync::Wait;
use std::test::Fail;
use std::thread::Threads;
use task_script::read_script;

// The numbers of workers of each run here.
const WORKERS: [u32; 6] = [1, 2, 3, 4, 8, 16];

// How many seats a script can have.
const SEATS: usize = 20;

// The entries that a gate was told.
fn told(gate: &ListGate) -> &[Entry] {
    gate.entries().unwrap_or(&[])
}

// The verdict on what the gates of a script's seats were told; none where another gate was told something.
fn verdict_on(alloc: Global, input: &str, gates: &[ListGate]) -> Result<Option<Verdict>, NoMemory> {
    let Ok(script) = read_script(alloc, input.as_bytes(), 0) else {
        return Ok(None);
    };
    let mut seats = Vec::new(alloc);
    for gate in gates {
        if seats.len() < script.shape.cpus as usize {
            let entries = Vec::from_slice(alloc, told(gate))?;
            seats.push(Journal { entries })?;
        } else if !told(gate).is_empty() {
            return Ok(None);
        }
    }
    if seats.len() > SEATS {
        return Ok(None);
    }
    let journals = Journals {
        cpus: script.shape.cpus,
        tasks: script.shape.tasks,
        seats,
    };
    Ok(Some(legal(alloc, &journals)?))
}

// Runs a script on each number of workers, compares the report, and judges the journals.
fn expect_report<R: Abort + AllocGlobal + Threads + Wait + Sync>(
    rt: &R,
    input: &str,
    report: &str,
) -> Result<(), NoMemory> {
    for workers in WORKERS {
        let mut gates = lists(rt.alloc(), SEATS)?;
        let (status, taken) = run_on(rt, workers, input, &mut gates)?;
        assert_eq!(rt; status, Status::Ok, "{workers}: {input}");
        assert_eq!(rt; taken.as_slice(), report.as_bytes(), "{workers}: {input}");
        let verdict = verdict_on(rt.alloc(), input, gates.as_slice())?;
        assert_eq!(rt; verdict, Some(Verdict::Legal), "{workers}: {input}");
    }
    Ok(())
}

#[test]
fn scripts_give_their_reports(rt: HostRuntime) -> Result<(), Fail> {
    let cases = [
        ("cpus 1\nend\n", ""),
        ("cpus 1\ntask a lines\n| hi\nend\n", "a: hi\n"),
        (HELLO, HELLO_REPORT),
        ("cpus 1\ntask a lines\nend", ""),
        ("cpus 1\ntask a lines\n|\n|  x \nend", "a: \na:  x \n"),
        (
            "cpus 2\ntask a count 2\ntask b lines\n| z\nend\n",
            "a: 1\na: 2\nb: z\n",
        ),
        (
            "cpus 2\ntask a lines\n| x\ntask b count 3\ntask w weave from a b\nend\n",
            "w: x\nw: 1\nw: 2\nw: 3\n",
        ),
        (
            "cpus 1\ntask a lines\ntask b count 2\ntask c cat from a b\nend\n",
            "c: 1\nc: 2\n",
        ),
        (
            "cpus 4\nroom 1\ntask a count 200\ntask t tally from a\nend\n",
            "t: 200\n",
        ),
        (
            "cpus 16\nroom 1\ntask a count 40\ntask b number from a\ntask c upper from b\ntask d keep 7 from c\nend\n",
            "d: 7 7\n",
        ),
        (
            "  cpus 02 \r\n# two\n\n\ttask a  count 03\r\r\ntask p pin 9 from a\nend\n# after\n",
            "p: 1\np: 2\np: 3\n",
        ),
        (
            "cpus 1\ntask a lines\n| ab\n| b\n|\ntask k keep a from a\ntask c count 11\ntask d drop 1 from c\nend\n",
            "k: ab\nd: 2\nd: 3\nd: 4\nd: 5\nd: 6\nd: 7\nd: 8\nd: 9\n",
        ),
        (
            "cpus 1\ntask a count 3\ntask b lines\n| x\ntask w weave from a b\nend\n",
            "w: 1\nw: x\nw: 2\nw: 3\n",
        ),
        (
            "cpus 1\ntask a lines\ntask b lines\ntask w weave from a b\ntask c lines\ntask d lines\ntask e cat from d c\nend\n",
            "",
        ),
        (
            "cpus 1\ntask a lines\n|# no comment\r\r\n||\n|\ntask k keep |long from a\ntask b count 2\ntask p pin 1 from b\nend\n",
            "p: 1\np: 2\n",
        ),
    ];
    for (input, report) in cases {
        expect_report(&rt, input, report)?;
    }
    Ok(())
}

#[test]
fn a_long_forest_joins_tasks_that_are_far_apart(rt: HostRuntime) -> Result<(), Fail> {
    let mut script = String::from_str(rt.alloc(), "cpus 3\ntask s count 1\ntask t0 count 2\n")?;
    for task in 1..198u32 {
        let before = task - 1;
        let line = format!(in rt.alloc(); "task t{task} upper from t{before}\n")?;
        script.push_str(line.as_str())?;
    }
    script.push_str("task z cat from s t197\nend\n")?;
    expect_report(&rt, script.as_str(), "z: 1\nz: 1\nz: 2\n")?;
    Ok(())
}

#[test]
fn a_missing_gate_means_no_telling(rt: HostRuntime) -> Result<(), Fail> {
    let script = "cpus 2\ntask a count 2\ntask b upper from a\nend\n";
    for count in 0..3 {
        let mut gates = lists(rt.alloc(), count)?;
        let (status, taken) = run_on(&rt, 2, script, &mut gates)?;
        assert_eq!(rt; status, Status::Ok);
        assert_eq!(rt; taken.as_slice(), b"b: 1\nb: 2\n".as_slice());
        assert_eq!(rt; gates.len(), count);
        for gate in &gates {
            assert!(rt; !told(gate).is_empty());
        }
    }
    Ok(())
}

#[test]
fn a_fault_of_the_sink_comes_after_the_telling(rt: HostRuntime) -> Result<(), Fail> {
    let mut gates = lists(rt.alloc(), SEATS)?;
    let (status, taken) = call_on(&rt, &["run"], HELLO.as_bytes(), (&[], &[0]), &mut gates)?;
    assert_eq!(rt; status, Status::WriteFault);
    assert!(rt; taken.is_empty());
    let verdict = verdict_on(rt.alloc(), HELLO, gates.as_slice())?;
    assert_eq!(rt; verdict, Some(Verdict::Legal));
    Ok(())
}

#[test]
fn nobody_is_told_anything_without_a_run(rt: HostRuntime) -> Result<(), Fail> {
    let journal = "journal 1\ncpus 1\ntasks 0\nseats 1\nseat 0\nend\n";
    let bad = Status::BadScript { line: 1, code: 2 };
    let illegal = Status::Illegal(JournalFault::Text { line: 1 });
    let cases: [(&[&str], &str, &[u64], Status); 6] = [
        (&[], HELLO, &[], Status::Usage),
        (&["run", "--workers", "0"], HELLO, &[], Status::Usage),
        (&["run"], HELLO, &[0], Status::ReadFault),
        (&["run"], journal, &[], bad),
        (&["check"], HELLO, &[], illegal),
        (&["check"], journal, &[], Status::Ok),
    ];
    for (texts, input, reads, expected) in cases {
        let mut gates = lists(rt.alloc(), 2)?;
        let (status, _) = call_on(&rt, texts, input.as_bytes(), (reads, &[]), &mut gates)?;
        assert_eq!(rt; status, expected);
        assert_eq!(rt; gates.len(), 2);
        for gate in &gates {
            assert!(rt; told(gate).is_empty());
        }
    }
    Ok(())
}
