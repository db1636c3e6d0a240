ghost use Rattle.std.specs.Prelude.{◌≡◌, ◌+◌, ◌<◌, ◌≤◌, length, Some, IfOk};
ghost use Rattle.std.specs.Io.KnownBytes.{Keeps, WriteAppends};
ghost use Rattle.wk_run.specs.Ends.{HasCause};

use super::*;
use crate::calls::{HELLO, HELLO_REPORT, ROOM, call, call_on, lists};
use handoff_data::NoMemory;
use std::process::Abort;
use std::sync::Wait;
use std::test::Fail;
use std::thread::Threads;

const HI: &str = "cpus 1\ntask a lines\n| hi\nend\n";

const BAD: Status = Status::BadScript { line: 1, code: 3 };

// Runs the top call between ends in memory, and compares the answer and what was taken.
fn expect_run<R: Abort + AllocGlobal + Threads + Wait + Sync>(
    rt: &R,
    texts: &[&str],
    input: &str,
    fails: (&[u64], &[u64]),
    expected: (Status, &str),
) -> Result<(), NoMemory> {
    let mut gates: Vec<ListGate> = Vec::new(rt.alloc());
    let (status, taken) = call_on(rt, texts, input.as_bytes(), fails, &mut gates)?;
    assert_eq!(rt; status, expected.0, "{input}");
    assert_eq!(rt; taken.as_slice(), expected.1.as_bytes(), "{input}");
    Ok(())
}

#[test]
fn each_answer_has_its_cause(rt: HostRuntime) -> Result<(), Fail> {
    // A failing call of the source, and of the sink, by their numbers; writes and flushes count alike.
    let faults: [(&str, &[u64], &[u64], Status, &str); 6] = [
        (HELLO, &[0], &[], Status::ReadFault, ""),
        (HELLO, &[1], &[], Status::ReadFault, ""),
        (HELLO, &[2], &[], Status::Ok, HELLO_REPORT),
        (HI, &[], &[0], Status::WriteFault, ""),
        (HI, &[], &[1], Status::WriteFault, "a: hi\n"),
        (HI, &[], &[2], Status::Ok, "a: hi\n"),
    ];
    for (input, reads, writes, status, taken) in faults {
        expect_run(&rt, &["run"], input, (reads, writes), (status, taken))?;
    }

    let unread = [
        &[] as &[&str],
        &["run", "run"],
        &["Run"],
        &["run "],
        &[""],
        &["run", "--workers"],
        &["run", "--workers", "0"],
        &["run", "--workers", "17"],
        &["run", "--workers", "x"],
        &["run", "--trace", "--trace"],
        &["run", "--plain", "--plain"],
        &["run", "--workers=2", "--workers", "2"],
        &["run", "-x"],
        &["run", "--"],
        &["run", "plan"],
        &["plan", "--trace"],
        &["gen", "1000", "7"],
        &["check", "--workers", "4"],
    ];
    for texts in unread {
        expect_run(&rt, texts, HI, (&[0], &[0]), (Status::Usage, ""))?;
    }

    let refusals = [
        ("", 1, 11),
        ("cpus 17\nend\n", 1, 3),
        ("cpus 1\ntask a nosuch\nend\n", 2, 2),
        ("cpus 1\ntask a lines\n", 3, 11),
        ("cpus 1\nend\nend\n", 3, 12),
    ];
    for (input, line, code) in refusals {
        let status = Status::BadScript { line, code };
        expect_run(&rt, &["run"], input, (&[], &[0]), (status, ""))?;
        expect_run(&rt, &["run"], input, (&[0], &[0]), (Status::ReadFault, ""))?;
    }
    Ok(())
}

#[test]
fn the_source_is_read_to_a_byte_past_the_limit(rt: HostRuntime) -> Result<(), Fail> {
    let bytes = vec![in rt.alloc(); b'|'; 16_777_217 + 5]?;
    let mut source = MemSource::new(bytes, Vec::new(rt.alloc()));
    let mut sink = MemSink::new(rt.alloc(), ROOM, Vec::new(rt.alloc()))?;
    let mut gates = lists(rt.alloc(), 1)?;
    let status = call(&rt, &["run"], &mut source, &mut sink, &mut gates)?;
    assert_eq!(rt; status, Status::BadScript { line: 1, code: 1 });
    let mut piece = [0u8; 64];
    assert_eq!(rt; source.read(&mut piece), Ok(5));
    Ok(())
}

#[test]
fn a_sink_takes_no_more_than_it_has_room_for(rt: HostRuntime) -> Result<(), Fail> {
    let mut sink = MemSink::new(rt.alloc(), 3, Vec::new(rt.alloc()))?;
    assert_eq!(rt; sink.write(b"abcd"), Err(Failed));
    assert_eq!(rt; sink.write(b"ab"), Ok(2));
    assert_eq!(rt; sink.write(b"cd"), Err(Failed));
    assert_eq!(rt; sink.write(b"c"), Ok(1));
    assert_eq!(rt; sink.write(b""), Ok(0));
    assert_eq!(rt; sink.as_slice(), b"abc".as_slice());
    Ok(())
}

#[test]
fn statuses_have_their_numbers(rt: HostRuntime) {
    let statuses = [
        Status::Ok,
        BAD,
        Status::Usage,
        Status::ReadFault,
        Status::WriteFault,
        Status::NoMemory,
        Status::Illegal(JournalFault::Unended { t: 0 }),
    ];
    for (code, status) in statuses.iter().enumerate() {
        assert_eq!(rt; usize::from(status.code()), code);
    }
}

// A sink that takes one byte a call.
#[derive(Drop)]
struct Narrow {
    taken: Vec<u8>,
    faults: u64,
}

impl Sink for Narrow {
    ghost taken = { λ s. Some s.taken.items };

    ghost faults = { λ s. s.faults };

    fn write(&mut self, bytes: &[u8]) -> Result<usize, Failed> {
        let Some(byte) = bytes.first() else {
            return Ok(0);
        };
        if self.taken.push(*byte).is_err() {
            self.faults = self.faults.saturating_add(1);
            return Err(Failed);
        }
        Ok(1)
    }

    fn flush(&mut self) -> Result<(), Failed> {
        Ok(())
    }
}

#[test]
fn a_narrow_sink_takes_the_whole_report(rt: HostRuntime) -> Result<(), Fail> {
    let bytes = Vec::from_slice(rt.alloc(), HELLO.as_bytes())?;
    let mut source = MemSource::new(bytes, Vec::new(rt.alloc()));
    let mut sink = Narrow {
        taken: Vec::new(rt.alloc()),
        faults: 0,
    };
    let mut gates = lists(rt.alloc(), 1)?;
    let status = call(&rt, &["run"], &mut source, &mut sink, &mut gates)?;
    assert_eq!(rt; status, Status::Ok);
    assert_eq!(rt; sink.taken.as_slice(), HELLO_REPORT.as_bytes());
    Ok(())
}

#[test]
fn standard_input_reads(rt: HostRuntime) {
    let mut source = StdSource::new(rt.stdin());
    let mut piece = [7u8; 4];
    // Tests are run with nothing on standard input.
    assert_eq!(rt; source.read(&mut piece), Ok(0));
    assert_eq!(rt; piece, [7u8; 4]);
}

#[test]
fn standard_output_takes_what_it_is_given(rt: HostRuntime) {
    let mut sink = StdSink::new(rt.stdout());
    assert_eq!(rt; sink.write(b"a line for standard output\n"), Ok(27));
    assert_eq!(rt; sink.write(b""), Ok(0));
    assert_eq!(rt; sink.flush(), Ok(()));
}
