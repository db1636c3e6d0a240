// The options of a run, and the command `plan`. Expected bytes were found by hand.
use super::*;
use crate::calls::{HELLO, HELLO_REPORT, call_on, lists};
use handoff_data::NoMemory;
use journal_text::read_journal;
use std::process::Abort;
use std::sync::Wait;
use std::test::Fail;
use std::thread::Threads;

// The numbers of workers of each run here.
const WORKERS: [u32; 3] = [1, 3, 8];

// The journals of a run of nothing.
const IDLE: &str = "journal 1\ncpus 1\ntasks 0\nseats 1\nseat 0\nend\n";

// A script of three processors, whose tasks meet on rings of one, and its report.
const RING: &str =
    "cpus 3\nroom 1\ntask a count 9\ntask b number from a\ntask c tally from b\nend\n";

const RING_REPORT: &str = "c: 9\n";

// Compares the answer of these words, with no gates, and what they write.
fn expect<R: Abort + AllocGlobal + Threads + Wait + Sync>(
    rt: &R,
    texts: &[&str],
    input: &str,
    expected: &str,
) -> Result<(), NoMemory> {
    let mut gates: Vec<ListGate> = Vec::new(rt.alloc());
    let (status, taken) = call_on(rt, texts, input.as_bytes(), (&[], &[]), &mut gates)?;
    assert_eq!(rt; status, Status::Ok, "{input}");
    assert_eq!(rt; taken.as_slice(), expected.as_bytes(), "{input}");
    Ok(())
}

#[test]
fn a_plan_is_the_one_spelling_of_a_script(rt: HostRuntime) -> Result<(), Fail> {
    let cases = [
        ("cpus 1\nend\n", "cpus 1\ncaches 1\nroom 4\nend\n"),
        (
            "# three numbers\n\ncpus   02\r\n\ttask\ta count 03\n  task  t tally from a\nend",
            "cpus 2\ncaches 2\nroom 4\ntask a count 3\ntask t tally from a\nend\n",
        ),
        (
            "cpus 4\ncaches 02\nroom 7\ntask a lines\n|\n  |x\n|  y \n# no text\ntask k keep |z from a\nend\n\n",
            "cpus 4\ncaches 2\nroom 7\ntask a lines\n|\n| x\n|  y \ntask k keep |z from a\nend\n",
        ),
        (
            "cpus 2\ntask a count 1\ntask b count 20\ntask w weave from b a\ntask p pin 007 from w\nend\n",
            "cpus 2\ncaches 2\nroom 4\ntask a count 1\ntask b count 20\ntask w weave from b a\ntask p pin 7 from w\nend\n",
        ),
    ];
    for (input, spelling) in cases {
        expect(&rt, &["plan"], input, spelling)?;
        expect(&rt, &["plan"], spelling, spelling)?;
    }
    Ok(())
}

#[test]
fn each_answer_of_a_plan_has_its_cause(rt: HostRuntime) -> Result<(), Fail> {
    let spelling = "cpus 1\ncaches 1\nroom 4\nend\n";
    let input = "cpus 1\nend\n";
    let bad = Status::BadScript { line: 1, code: 2 };
    let cases: [(&str, &[u64], &[u64], Status, &str); 6] = [
        (input, &[0], &[], Status::ReadFault, ""),
        (input, &[2], &[2], Status::Ok, spelling),
        (input, &[], &[0], Status::WriteFault, ""),
        (input, &[], &[1], Status::WriteFault, spelling),
        (IDLE, &[], &[0], bad, ""),
        (IDLE, &[1], &[0], Status::ReadFault, ""),
    ];
    for (input, reads, writes, expected, written) in cases {
        let mut gates = lists(rt.alloc(), 2)?;
        let texts = ["plan"];
        let (status, taken) = call_on(&rt, &texts, input.as_bytes(), (reads, writes), &mut gates)?;
        assert_eq!(rt; status, expected, "{input}");
        assert_eq!(rt; taken.as_slice(), written.as_bytes(), "{input}");
        assert_eq!(rt; gates.len(), 2);
        for gate in &gates {
            assert!(rt; gate.entries().unwrap_or(&[]).is_empty());
        }
    }
    Ok(())
}

#[test]
fn a_plain_report_has_no_names(rt: HostRuntime) -> Result<(), Fail> {
    expect(&rt, &["run", "--plain"], HELLO, "1 HELLO\n2 WORLD\n")?;
    expect(&rt, &["run", "--workers=3"], HELLO, HELLO_REPORT)?;
    let two = "cpus 2\ntask a lines\n|\n|  x \ntask b count 2\nend\n";
    expect(
        &rt,
        &["run", "--plain", "--workers", "2"],
        two,
        "\n x \n1\n2\n",
    )?;
    Ok(())
}

#[test]
fn a_trace_of_nothing_is_six_lines(rt: HostRuntime) -> Result<(), Fail> {
    for workers in ["1", "3", "8"] {
        expect(
            &rt,
            &["run", "--trace", "--workers", workers],
            "cpus 1\nend\n",
            IDLE,
        )?;
    }
    expect(&rt, &["check"], IDLE, "legal 0\n")?;
    Ok(())
}

// Runs a script with `--trace` and these gates; the journals behind its report, which are legal.
fn trace_of<G: Gate + Send, R: Abort + AllocGlobal + Threads + Wait + Sync>(
    rt: &R,
    workers: u32,
    case: (&str, &str),
    gates: &mut Vec<G>,
) -> Result<Vec<u8>, NoMemory> {
    let (input, report) = case;
    let number = format!(in rt.alloc(); "--workers={workers}")?;
    let texts = ["run", number.as_str(), "--trace"];
    let (status, taken) = call_on(rt, &texts, input.as_bytes(), (&[], &[]), gates)?;
    assert_eq!(rt; status, Status::Ok, "{workers}: {input}");
    let (front, text) = taken.as_slice().split_at(report.len().min(taken.len()));
    assert_eq!(rt; front, report.as_bytes(), "{workers}: {input}");
    let mut none: Vec<ListGate> = Vec::new(rt.alloc());
    let (status, line) = call_on(rt, &["check"], text, (&[], &[]), &mut none)?;
    assert_eq!(rt; status, Status::Ok, "{workers}: {input}");
    assert!(rt; line.len() > 0);
    Vec::from_slice(rt.alloc(), text).map_err(|_| NoMemory)
}

#[test]
fn the_journals_of_a_trace_are_what_the_gates_were_told(rt: HostRuntime) -> Result<(), Fail> {
    for case in [(HELLO, HELLO_REPORT), (RING, RING_REPORT)] {
        for workers in WORKERS {
            let mut gates = lists(rt.alloc(), 20)?;
            let text = trace_of(&rt, workers, case, &mut gates)?;
            let journals = read_journal(rt.alloc(), text.as_slice())?;
            assert_eq!(rt; gates.len(), 20);
            assert!(rt; journals.seats.len() > 0);
            for (s, gate) in gates.iter().enumerate() {
                let told = gate.entries().unwrap_or(&[]);
                let journal = match journals.seats.get(s) {
                    Some(journal) => journal.as_slice(),
                    None => &[],
                };
                assert_eq!(rt; told, journal, "{workers}");
            }
        }
    }
    Ok(())
}

#[test]
fn a_trace_needs_no_gates_that_keep(rt: HostRuntime) -> Result<(), Fail> {
    for workers in WORKERS {
        for count in 0..4 {
            let mut gates = Vec::new(rt.alloc());
            for _ in 0..count {
                gates.push(ListGate::quiet())?;
            }
            trace_of(&rt, workers, (RING, RING_REPORT), &mut gates)?;
            assert_eq!(rt; gates.len(), count);
            for gate in &gates {
                assert!(rt; gate.entries().is_none());
            }
        }
    }
    Ok(())
}
