// Works that a caller brings: those of the program. Expected reports are those of the works' plain meaning, found by
// hand.
use super::*;
use crate::calls::{ROOM, call_with};
use handoff_data::{Line, NoMemory, is_line};
use std::alloc::Global;
use std::sync::Wait;
use std::test::Fail;
use std::thread::Threads;

// What these words answer and write for this script, where the caller brings these works.
fn answer_to<R: AllocGlobal + Threads + Wait + Sync>(
    rt: &R,
    texts: &[&str],
    script: &str,
    customs: Vec<Box<dyn Work + Send + Drop>>,
) -> Result<(Status, Vec<u8>), NoMemory> {
    let bytes = Vec::from_slice(rt.alloc(), script.as_bytes())?;
    let mut source = MemSource::new(bytes, Vec::new(rt.alloc()));
    let mut sink = MemSink::new(rt.alloc(), ROOM, Vec::new(rt.alloc()))?;
    let mut gates: Vec<ListGate> = Vec::new(rt.alloc());
    let status = call_with(rt, texts, &mut source, &mut sink, &mut gates, customs)?;
    Ok((status, Vec::from_slice(rt.alloc(), sink.as_slice())?))
}

fn last_line(alloc: Global) -> Result<Line, NoMemory> {
    let bytes = Vec::from_slice(alloc, b"(end)")?;
    if !is_line(bytes.as_slice()) {
        return Err(NoMemory);
    }
    Ok(Line::new(bytes))
}

// Each script with the words, the answer and the report of the program, whose works are `Swap` and `Closing`.
const CASES: [(&[&str], &str, Status, &str); 11] = [
    (
        &["run"],
        "cpus 1\ntask a lines\n| Hi\ntask e custom 0 from a\nend\n",
        Status::Ok,
        "e: hI\n",
    ),
    (
        &["run"],
        "cpus 1\ntask a lines\n| Hi\ntask e custom 1 from a\nend\n",
        Status::Ok,
        "e: Hi\ne: (end)\n",
    ),
    (
        &["run", "--workers", "2"],
        "cpus 2\nroom 1\ntask a lines\n| aB\n| [{@`\n|\ntask s custom 0 from a\ntask e custom 1 from s\nend\n",
        Status::Ok,
        "e: Ab\ne: [{@`\ne: \ne: (end)\n",
    ),
    (
        &["run"],
        "cpus 1\ntask a lines\ntask e custom 1 from a\nend\n",
        Status::Ok,
        "e: (end)\n",
    ),
    (
        &["run"],
        "cpus 1\ntask a count 3\ntask e custom 01 from a\ntask t tally from e\nend\n",
        Status::Ok,
        "t: 4\n",
    ),
    (
        &["run"],
        "cpus 1\ntask a lines\n| Hi\ntask e custom 2 from a\nend\n",
        Status::BadScript { line: 4, code: 13 },
        "",
    ),
    (
        &["run"],
        "cpus 1\ntask a count 1\ntask s custom 0 from a\ntask e custom 0 from s\nend\n",
        Status::BadScript { line: 4, code: 13 },
        "",
    ),
    (
        &["run"],
        "cpus 1\ntask a count 1\ntask e custom x from a\nend\n",
        Status::BadScript { line: 3, code: 3 },
        "",
    ),
    (
        &["plan"],
        "cpus 1\ntask a count 1\ntask e custom 4294967296 from a\nend\n",
        Status::BadScript { line: 3, code: 13 },
        "",
    ),
    (
        &["plan"],
        "cpus 1\ntask a count 1\ntask e  custom 01 from a\nend\n",
        Status::Ok,
        "cpus 1\ncaches 1\nroom 4\ntask a count 1\ntask e custom 1 from a\nend\n",
    ),
    (
        &["run", "--plain"],
        "cpus 1\ntask a lines\n| Hi\nend\n",
        Status::Ok,
        "Hi\n",
    ),
];

#[test]
fn the_works_of_the_program_are_those_of_its_scripts(rt: HostRuntime) -> Result<(), Fail> {
    for (texts, script, expected, report) in CASES {
        let mut customs: Vec<Box<dyn Work + Send + Drop>> = Vec::with_capacity(rt.alloc(), 2)?;
        customs.push(Box::new(rt.alloc(), Swap::new(rt.alloc()))?)?;
        let closing = Closing::new(rt.alloc(), last_line(rt.alloc())?);
        customs.push(Box::new(rt.alloc(), closing)?)?;
        let (status, taken) = answer_to(&rt, texts, script, customs)?;
        assert_eq!(rt; status, expected, "{script}");
        assert_eq!(rt; taken.as_slice(), report.as_bytes(), "{script}");
    }
    Ok(())
}
