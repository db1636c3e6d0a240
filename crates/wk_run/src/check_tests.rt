// Tests of `check`. Expected answers are those of the rules, found by hand. In the texts ` ; ` stands for a line end.
use super::*;
use crate::calls::call_on;
use handoff_data::NoMemory;
use std::alloc::Global;
use std::process::Abort;
use std::sync::Wait;
use std::test::Fail;
use std::thread::Threads;

const NINE: &str =
    "journal 1 ; cpus 1 ; tasks 1 ; seats 1 ; seat 0 ; new 0 1 0 ; pick 0 1 0 ; sleep 0 2 0 ; finish 0 2 0 ; wake 0 2 ; enq 0 3 0 direct ; pick 0 3 0 ; die 0 4 0 ; finish 0 4 0 ; end";

// The text with its line ends.
fn lines_of(alloc: Global, text: &str) -> Result<Vec<u8>, NoMemory> {
    let mut bytes = Vec::new(alloc);
    for line in text.split(" ; ") {
        bytes.extend_from_slice(line.as_bytes())?;
        bytes.push(b'\n')?;
    }
    Ok(bytes)
}

// What `check` answers, and what it wrote, of this text, where these calls of the source and of the sink fail.
fn check<R: AllocGlobal + Threads + Wait + Sync>(
    rt: &R,
    text: &str,
    fails: (&[u64], &[u64]),
) -> Result<(Status, Vec<u8>), NoMemory> {
    let mut gates: Vec<ListGate> = Vec::new(rt.alloc());
    let bytes = lines_of(rt.alloc(), text)?;
    call_on(rt, &["check"], bytes.as_slice(), fails, &mut gates)
}

fn expect_legal<R: Abort + AllocGlobal + Threads + Wait + Sync>(
    rt: &R,
    text: &str,
    line: &str,
) -> Result<(), NoMemory> {
    let (status, taken) = check(rt, text, (&[], &[]))?;
    assert_eq!(rt; status, Status::Ok, "{text}");
    assert_eq!(rt; taken.as_slice(), line.as_bytes(), "{text}");
    Ok(())
}

fn expect_fault<R: Abort + AllocGlobal + Threads + Wait + Sync>(
    rt: &R,
    text: &str,
    fault: JournalFault,
) -> Result<(), NoMemory> {
    let (status, taken) = check(rt, text, (&[], &[]))?;
    assert_eq!(rt; status, Status::Illegal(fault), "{text}");
    assert!(rt; taken.is_empty(), "{text}");
    Ok(())
}

#[test]
fn journals_are_judged_whole(rt: HostRuntime) -> Result<(), Fail> {
    expect_legal(&rt, NINE, "legal 9\n")?;
    // The rules let the queueing stand before the finish in one journal.
    let early =
        "journal 1 ; cpus 1 ; tasks 1 ; seats 1 ; seat 0 ; new 0 1 0 ; pick 0 1 0 ; sleep 0 2 0 ; wake 0 2 ; enq 0 3 0 direct ; finish 0 2 0 ; pick 0 3 0 ; die 0 4 0 ; finish 0 4 0 ; end";
    expect_legal(&rt, early, "legal 9\n")?;
    let empty = "journal 1 ; cpus 1 ; tasks 0 ; seats 1 ; seat 0 ; end";
    expect_legal(&rt, empty, "legal 0\n")?;
    // Processors 0 and 1 and one agent: task 1 is listed to processor 1, which then goes offline and comes up; task 2
    // is pulled from there to processor 0; the agent lists task 0 to processor 0, and changes its mask.
    let whole =
        "journal 1 ; cpus 2 ; tasks 3 ; seats 3 ; seat 0 ; new 0 1 0 ; pick 0 1 0 ; wake 1 2 ; list 1 2 1 0 ; sleep 0 2 0 ; finish 0 2 0 ; out 2 2 1 ; in 2 3 0 ; pick 2 1 0 ; die 2 4 0 ; finish 2 2 0 ; enq 0 3 0 list ; pick 0 3 0 ; die 0 4 0 ; finish 0 4 0 ; seat 1 ; new 1 1 1 ; new 2 1 1 ; pick 1 1 1 ; sleep 1 2 1 ; finish 1 2 1 ; enq 1 3 1 list ; pick 1 3 1 ; die 1 4 1 ; finish 1 4 1 ; offline 1 0 ; up 1 1 ; seat 2 ; wake 0 2 ; list 0 2 0 0 ; mask 0 1 0 ; stood 0 1 2 - ; done 0 1 ; refused 0 1 ; end";
    expect_legal(&rt, whole, "legal 32\n")?;
    Ok(())
}

#[test]
fn a_text_is_refused_on_its_line(rt: HostRuntime) -> Result<(), Fail> {
    let cases = [
        (
            "journal 1 ; cpus 1 ; tasks 1 ; seats 1 ; seat 0 ; new 0 1 0 ; pick 0 1 0 ; sleep 0 2 0 ; finish 0 2 0 ; wake 0 2 ; enq 0 3 0 direct ; pick 0 3 0 ; die 0 4 0 ; finish 0 4 0",
            15,
        ),
        ("", 2),
        ("journal 2", 1),
        // The text is judged before the rules.
        (
            "journal 1 ; cpus 1 ; tasks 1 ; seats 1 ; seat 0 ; pick 0 2 0 ; pick 0 ; end",
            7,
        ),
    ];
    for (text, line) in cases {
        expect_fault(&rt, text, JournalFault::Text { line })?;
    }
    Ok(())
}

#[test]
fn a_task_that_has_not_ended_is_named(rt: HostRuntime) -> Result<(), Fail> {
    let cases = [
        // The last finish is missing, and then the last death; and then all.
        (
            "journal 1 ; cpus 1 ; tasks 1 ; seats 1 ; seat 0 ; new 0 1 0 ; pick 0 1 0 ; sleep 0 2 0 ; finish 0 2 0 ; wake 0 2 ; enq 0 3 0 direct ; pick 0 3 0 ; die 0 4 0 ; end",
            0,
        ),
        (
            "journal 1 ; cpus 1 ; tasks 1 ; seats 1 ; seat 0 ; new 0 1 0 ; pick 0 1 0 ; finish 0 2 0 ; end",
            0,
        ),
        ("journal 1 ; cpus 1 ; tasks 1 ; seats 1 ; seat 0 ; end", 0),
        // The lowest of several.
        (
            "journal 1 ; cpus 1 ; tasks 3 ; seats 1 ; seat 0 ; new 0 1 0 ; pick 0 1 0 ; die 0 2 0 ; finish 0 2 0 ; new 2 1 0 ; end",
            1,
        ),
    ];
    for (text, t) in cases {
        expect_fault(&rt, text, JournalFault::Unended { t })?;
    }
    Ok(())
}

#[test]
fn the_first_bad_entry_is_named_with_its_rule(rt: HostRuntime) -> Result<(), Fail> {
    let cases = [
        // The queueing twice; no wake; no sleep; an offline of epoch 1 at the end; a done without a mask.
        (
            "journal 1 ; cpus 1 ; tasks 1 ; seats 1 ; seat 0 ; new 0 1 0 ; pick 0 1 0 ; sleep 0 2 0 ; finish 0 2 0 ; wake 0 2 ; enq 0 3 0 direct ; enq 0 3 0 direct ; pick 0 3 0 ; die 0 4 0 ; finish 0 4 0 ; end",
            (0, 6, 2),
        ),
        (
            "journal 1 ; cpus 1 ; tasks 1 ; seats 1 ; seat 0 ; new 0 1 0 ; pick 0 1 0 ; sleep 0 2 0 ; finish 0 2 0 ; enq 0 3 0 direct ; pick 0 3 0 ; die 0 4 0 ; finish 0 4 0 ; end",
            (0, 4, 4),
        ),
        (
            "journal 1 ; cpus 1 ; tasks 1 ; seats 1 ; seat 0 ; new 0 1 0 ; pick 0 1 0 ; finish 0 2 0 ; wake 0 2 ; enq 0 3 0 direct ; pick 0 3 0 ; die 0 4 0 ; finish 0 4 0 ; end",
            (0, 3, 4),
        ),
        (
            "journal 1 ; cpus 1 ; tasks 1 ; seats 1 ; seat 0 ; new 0 1 0 ; pick 0 1 0 ; sleep 0 2 0 ; finish 0 2 0 ; wake 0 2 ; enq 0 3 0 direct ; pick 0 3 0 ; die 0 4 0 ; finish 0 4 0 ; offline 0 1 ; end",
            (0, 9, 9),
        ),
        (
            "journal 1 ; cpus 1 ; tasks 1 ; seats 1 ; seat 0 ; new 0 1 0 ; pick 0 1 0 ; sleep 0 2 0 ; finish 0 2 0 ; wake 0 2 ; enq 0 3 0 direct ; pick 0 3 0 ; die 0 4 0 ; finish 0 4 0 ; done 0 1 ; end",
            (0, 9, 11),
        ),
        // A first bad entry comes before a task that hasn't ended, and the lower of two rules, seats and indexes.
        (
            "journal 1 ; cpus 2 ; tasks 1 ; seats 2 ; seat 0 ; new 0 1 0 ; sleep 0 3 0 ; new 0 1 0 ; seat 1 ; new 0 2 1 ; end",
            (0, 1, 3),
        ),
    ];
    for (text, (seat, index, rule)) in cases {
        expect_fault(&rt, text, JournalFault::Entry { seat, index, rule })?;
    }
    Ok(())
}

#[test]
fn each_answer_of_a_check_has_its_cause(rt: HostRuntime) -> Result<(), Fail> {
    let bad = "journal 1 ; cpus 1 ; tasks 1 ; seats 1 ; seat 0 ; new 0 2 0 ; end";
    let entry = JournalFault::Entry {
        seat: 0,
        index: 0,
        rule: 3,
    };
    let cases: [(&str, &[u64], &[u64], Status, &str); 7] = [
        (NINE, &[0], &[], Status::ReadFault, ""),
        (NINE, &[1], &[0], Status::ReadFault, ""),
        (NINE, &[], &[0], Status::WriteFault, ""),
        (NINE, &[], &[1], Status::WriteFault, "legal 9\n"),
        (NINE, &[2], &[2], Status::Ok, "legal 9\n"),
        (bad, &[0], &[0], Status::ReadFault, ""),
        (bad, &[], &[0], Status::Illegal(entry), ""),
    ];
    for (text, reads, writes, status, line) in cases {
        let (answered, taken) = check(&rt, text, (reads, writes))?;
        assert_eq!(rt; answered, status, "{text}");
        assert_eq!(rt; taken.as_slice(), line.as_bytes(), "{text}");
    }
    Ok(())
}
