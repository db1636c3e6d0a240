// Each rule: short journals in which an entry breaks just that one, and a neighbour that breaks none. Expected answers
// are those of the rules, found by hand. In the texts ` ; ` stands for a line end, and the first lines are left out.
use super::*;
use journal_text::read_journal;
use std::alloc::AllocError;
use std::process::Abort;
use std::test::Fail;

// A text with so many processors, tasks and seats, and these lines behind `seat 0`.
fn text_of<R: AllocGlobal>(
    rt: &R,
    sizes: (u32, u32, u32),
    entries: &str,
) -> Result<Vec<u8>, AllocError> {
    let (cpus, tasks, seats) = sizes;
    let mut text = Vec::new(rt.alloc());
    let head = format!(in rt.alloc();
        "journal 1\ncpus {cpus}\ntasks {tasks}\nseats {seats}\nseat 0\n"
    )?;
    text.extend_from_slice(head.as_bytes())?;
    for line in entries.split(" ; ") {
        text.extend_from_slice(line.as_bytes())?;
        text.push(b'\n')?;
    }
    text.extend_from_slice(b"end\n")?;
    Ok(text)
}

// The verdict on this text, if it is one of journals.
fn verdict<R: AllocGlobal>(rt: &R, text: &[u8]) -> Option<Verdict> {
    let journals = read_journal(rt.alloc(), text).ok()?;
    if journals.seats.len() > 20 {
        return None;
    }
    legal(rt.alloc(), &journals).ok()
}

type Case = (u32, u32, u32, &'static str, u32, u64);

fn expect_broken<R: Abort + AllocGlobal>(
    rt: &R,
    rule: u32,
    cases: &[Case],
) -> Result<(), AllocError> {
    for (cpus, tasks, seats, entries, seat, index) in cases {
        let text = text_of(rt, (*cpus, *tasks, *seats), entries)?;
        let bad = Verdict::FirstBad {
            seat: *seat,
            index: *index,
            rule,
        };
        assert_eq!(rt; verdict(rt, text.as_slice()), Some(bad), "{entries}");
    }
    Ok(())
}

fn expect_kept<R: Abort + AllocGlobal>(
    rt: &R,
    cases: &[(u32, u32, u32, &'static str)],
) -> Result<(), AllocError> {
    for (cpus, tasks, seats, entries) in cases {
        let text = text_of(rt, (*cpus, *tasks, *seats), entries)?;
        assert_eq!(rt;
            verdict(rt, text.as_slice()),
            Some(Verdict::Legal),
            "{entries}"
        );
    }
    Ok(())
}

#[test]
fn what_an_entry_names_is_in_range(rt: HostRuntime) -> Result<(), Fail> {
    let broken = [
        (1, 1, 1, "new 1 1 0", 0, 0),
        (1, 1, 1, "new 0 1 1", 0, 0),
        (1, 1, 1, "mask 0 1 0,1", 0, 0),
        (1, 1, 1, "refused 1 1", 0, 0),
        (1, 1, 1, "new 0 1 0 ; stood 0 0 1 1", 0, 1),
        (2, 1, 2, "new 0 1 1 ; pick 0 1 1 ; seat 1", 0, 1),
        (2, 1, 2, "offline 1 0 ; seat 1", 0, 0),
        // An agent's seat is no processor.
        (1, 1, 2, "new 0 1 0 ; seat 1 ; pick 0 1 0", 1, 0),
    ];
    expect_broken(&rt, 1, &broken)?;
    let kept = [
        (1, 1, 1, "new 0 1 0 ; pick 0 1 0 ; die 0 2 0 ; finish 0 2 0"),
        (
            2,
            1,
            2,
            "new 0 1 1 ; seat 1 ; offline 1 0 ; up 1 1 ; pick 0 1 1 ; die 0 2 1 ; finish 0 2 1",
        ),
        (
            1,
            1,
            1,
            "new 0 1 0 ; mask 0 1 0 ; stood 0 0 1 0 ; refused 0 1 ; pick 0 1 0 ; die 0 2 0 ; finish 0 2 0",
        ),
    ];
    expect_kept(&rt, &kept)?;
    Ok(())
}

#[test]
fn no_number_stands_twice(rt: HostRuntime) -> Result<(), Fail> {
    let broken = [
        (2, 1, 2, "new 0 1 0 ; seat 1 ; new 0 1 0", 1, 0),
        (1, 1, 1, "mask 0 1 0 ; mask 0 1 0", 0, 1),
        (
            1,
            1,
            1,
            "new 0 1 0 ; pick 0 1 0 ; sleep 0 2 0 ; finish 0 2 0 ; wake 0 2 ; wake 0 2",
            0,
            5,
        ),
        (
            2,
            1,
            2,
            "new 0 1 0 ; pick 0 1 0 ; sleep 0 2 0 ; finish 0 2 0 ; seat 1 ; wake 0 2 ; list 0 2 0 0 ; list 0 2 1 0",
            1,
            2,
        ),
    ];
    expect_broken(&rt, 2, &broken)?;
    let kept = [(
        1,
        1,
        1,
        "mask 0 1 0 ; mask 0 2 0 ; new 0 1 0 ; pick 0 1 0 ; die 0 2 0 ; finish 0 2 0",
    )];
    expect_kept(&rt, &kept)?;
    Ok(())
}

#[test]
fn each_change_follows_the_one_before(rt: HostRuntime) -> Result<(), Fail> {
    let broken = [
        (1, 1, 1, "new 0 2 0", 0, 0),
        (1, 1, 1, "new 0 1 0 ; pick 0 1 0 ; sleep 0 3 0", 0, 2),
        (2, 1, 2, "new 0 1 1 ; pick 0 1 0 ; die 0 2 0 ; seat 1", 0, 2),
        (2, 1, 2, "new 0 1 0 ; out 0 2 0 ; seat 1 ; in 0 3 1", 1, 0),
        (1, 1, 1, "new 0 1 0 ; in 0 2 0", 0, 1),
    ];
    expect_broken(&rt, 3, &broken)?;
    let kept = [(
        2,
        1,
        2,
        "new 0 1 0 ; out 0 2 0 ; in 0 3 1 ; seat 1 ; pick 0 1 1 ; die 0 4 1 ; finish 0 2 1",
    )];
    expect_kept(&rt, &kept)?;
    Ok(())
}

#[test]
fn wakes_listings_and_queueings_have_their_cause(rt: HostRuntime) -> Result<(), Fail> {
    let broken = [
        (1, 1, 1, "wake 0 1", 0, 0),
        (
            1,
            1,
            1,
            "new 0 1 0 ; pick 0 1 0 ; sleep 0 2 0 ; finish 0 2 0 ; list 0 2 0 0 ; wake 0 2",
            0,
            4,
        ),
        // Queued directly though it was listed, and listed elsewhere.
        (
            1,
            1,
            1,
            "new 0 1 0 ; pick 0 1 0 ; sleep 0 2 0 ; finish 0 2 0 ; wake 0 2 ; list 0 2 0 0 ; enq 0 3 0 direct",
            0,
            6,
        ),
        (
            2,
            1,
            2,
            "new 0 1 0 ; pick 0 1 0 ; sleep 0 2 0 ; finish 0 2 0 ; wake 0 2 ; list 0 2 1 0 ; enq 0 3 0 list ; seat 1",
            0,
            6,
        ),
        // The wake stands in another journal.
        (
            2,
            1,
            2,
            "new 0 1 0 ; pick 0 1 0 ; sleep 0 2 0 ; finish 0 2 0 ; enq 0 3 0 direct ; seat 1 ; wake 0 2",
            0,
            4,
        ),
    ];
    expect_broken(&rt, 4, &broken)?;
    let kept = [(
        1,
        1,
        1,
        "new 0 1 0 ; pick 0 1 0 ; sleep 0 2 0 ; finish 0 2 0 ; wake 0 2 ; list 0 2 0 0 ; enq 0 3 0 list ; pick 0 3 0 ; die 0 4 0 ; finish 0 4 0",
    )];
    expect_kept(&rt, &kept)?;
    Ok(())
}

#[test]
fn numbers_rise_in_one_journal(rt: HostRuntime) -> Result<(), Fail> {
    let broken = [
        (
            1,
            1,
            1,
            "pick 0 1 0 ; die 0 2 0 ; new 0 1 0 ; finish 0 2 0",
            0,
            2,
        ),
        (
            1,
            1,
            1,
            "new 0 1 0 ; pick 0 3 0 ; pick 0 1 0 ; finish 0 2 0",
            0,
            2,
        ),
    ];
    expect_broken(&rt, 5, &broken)?;
    // In two journals they may stand in any order.
    let kept = [(
        2,
        1,
        2,
        "pick 0 1 0 ; die 0 2 0 ; finish 0 2 0 ; seat 1 ; new 0 1 0",
    )];
    expect_kept(&rt, &kept)?;
    Ok(())
}

#[test]
fn picks_and_finishes_alternate(rt: HostRuntime) -> Result<(), Fail> {
    let broken = [
        (1, 1, 1, "new 0 1 0 ; pick 0 2 0", 0, 1),
        (1, 1, 1, "pick 0 3 0", 0, 0),
        (1, 1, 1, "finish 0 2 0", 0, 0),
        (1, 1, 1, "pick 0 1 0 ; finish 0 3 0", 0, 1),
        (2, 1, 2, "pick 0 1 0 ; seat 1 ; finish 0 2 1", 1, 0),
    ];
    expect_broken(&rt, 6, &broken)?;
    let kept = [(
        2,
        1,
        2,
        "new 0 1 0 ; pick 0 1 0 ; finish 0 2 0 ; out 0 2 0 ; in 0 3 1 ; seat 1 ; pick 0 3 1 ; die 0 4 1 ; finish 0 4 1",
    )];
    expect_kept(&rt, &kept)?;
    Ok(())
}

#[test]
fn a_task_leaves_only_while_it_runs(rt: HostRuntime) -> Result<(), Fail> {
    let broken = [
        (1, 1, 1, "new 0 1 0 ; sleep 0 2 0", 0, 1),
        (
            1,
            1,
            1,
            "new 0 1 0 ; pick 0 1 0 ; finish 0 2 0 ; die 0 2 0",
            0,
            3,
        ),
        // Another task runs.
        (
            1,
            2,
            1,
            "new 0 1 0 ; new 1 1 0 ; pick 1 1 0 ; die 0 2 0",
            0,
            3,
        ),
    ];
    expect_broken(&rt, 7, &broken)?;
    let kept = [(
        1,
        1,
        1,
        "new 0 1 0 ; pick 0 1 0 ; finish 0 2 0 ; pick 0 3 0 ; die 0 2 0 ; finish 0 4 0",
    )];
    expect_kept(&rt, &kept)?;
    Ok(())
}

#[test]
fn what_a_waker_listed_is_queued_in_its_order(rt: HostRuntime) -> Result<(), Fail> {
    let broken = [
        (
            2,
            2,
            2,
            "wake 0 2 ; list 0 2 1 0 ; wake 1 2 ; list 1 2 1 0 ; seat 1 ; new 0 1 1 ; new 1 1 1 ; pick 0 1 1 ; sleep 0 2 1 ; finish 0 2 1 ; pick 1 1 1 ; sleep 1 2 1 ; finish 1 2 1 ; enq 1 3 1 list ; enq 0 3 1 list",
            1,
            9,
        ),
        // The waker is the processor itself.
        (
            1,
            2,
            1,
            "new 0 1 0 ; new 1 1 0 ; pick 0 1 0 ; sleep 0 2 0 ; finish 0 2 0 ; pick 1 1 0 ; sleep 1 2 0 ; finish 1 2 0 ; wake 1 2 ; list 1 2 0 0 ; wake 0 2 ; list 0 2 0 0 ; enq 0 3 0 list ; enq 1 3 0 list",
            0,
            13,
        ),
    ];
    expect_broken(&rt, 8, &broken)?;
    let kept = [
        (
            2,
            2,
            2,
            "wake 0 2 ; list 0 2 1 0 ; wake 1 2 ; list 1 2 1 0 ; seat 1 ; new 0 1 1 ; new 1 1 1 ; pick 0 1 1 ; sleep 0 2 1 ; finish 0 2 1 ; pick 1 1 1 ; sleep 1 2 1 ; finish 1 2 1 ; enq 0 3 1 list ; enq 1 3 1 list ; pick 0 3 1 ; die 0 4 1 ; finish 0 4 1 ; pick 1 3 1 ; die 1 4 1 ; finish 1 4 1",
        ),
        // Of two wakers each has its own order.
        (
            2,
            2,
            3,
            "wake 0 2 ; list 0 2 1 0 ; seat 1 ; new 0 1 1 ; new 1 1 1 ; pick 0 1 1 ; sleep 0 2 1 ; finish 0 2 1 ; pick 1 1 1 ; sleep 1 2 1 ; finish 1 2 1 ; enq 1 3 1 list ; enq 0 3 1 list ; pick 0 3 1 ; die 0 4 1 ; finish 0 4 1 ; pick 1 3 1 ; die 1 4 1 ; finish 1 4 1 ; seat 2 ; wake 1 2 ; list 1 2 1 0",
        ),
    ];
    expect_kept(&rt, &kept)?;
    Ok(())
}

#[test]
fn an_outage_leaves_none(rt: HostRuntime) -> Result<(), Fail> {
    let broken = [
        (1, 1, 1, "offline 0 1", 0, 0),
        (1, 1, 1, "up 0 0", 0, 0),
        (1, 1, 1, "offline 0 0 ; up 0 2", 0, 1),
        (1, 1, 1, "offline 0 0 ; up 0 1 ; offline 0 2", 0, 2),
        (1, 1, 1, "new 0 1 0 ; offline 0 0 ; pick 0 1 0", 0, 2),
        // What is listed in the journal of seat 0 isn't yet queued.
        (
            2,
            1,
            2,
            "wake 0 2 ; list 0 2 1 0 ; seat 1 ; new 0 1 1 ; pick 0 1 1 ; sleep 0 2 1 ; finish 0 2 1 ; offline 1 0 ; up 1 1 ; enq 0 3 1 list",
            1,
            4,
        ),
        (1, 1, 1, "offline 0 0 ; up 0 1 ; up 0 2", 0, 2),
    ];
    expect_broken(&rt, 9, &broken)?;
    let kept = [
        (
            2,
            1,
            2,
            "wake 0 2 ; list 0 2 1 0 ; seat 1 ; new 0 1 1 ; pick 0 1 1 ; sleep 0 2 1 ; finish 0 2 1 ; enq 0 3 1 list ; offline 1 0 ; up 1 1 ; pick 0 3 1 ; die 0 4 1 ; finish 0 4 1",
        ),
        // It was listed in the epoch after the outage.
        (
            2,
            1,
            2,
            "wake 0 2 ; list 0 2 1 1 ; seat 1 ; new 0 1 1 ; pick 0 1 1 ; sleep 0 2 1 ; finish 0 2 1 ; offline 1 0 ; up 1 1 ; enq 0 3 1 list ; pick 0 3 1 ; die 0 4 1 ; finish 0 4 1",
        ),
        // While it is offline, its seat may take a task from it to another.
        (
            2,
            1,
            2,
            "pick 0 1 0 ; die 0 4 0 ; finish 0 2 0 ; seat 1 ; offline 1 0 ; new 0 1 1 ; out 0 2 1 ; in 0 3 0",
        ),
    ];
    expect_kept(&rt, &kept)?;
    Ok(())
}

#[test]
fn masks_are_numbered_and_tasks_stand_in_them(rt: HostRuntime) -> Result<(), Fail> {
    let broken = [
        (1, 1, 1, "mask 0 2 0", 0, 0),
        (1, 1, 1, "mask 0 1 -", 0, 0),
        (1, 1, 1, "new 0 1 0 ; stood 0 0 1 -", 0, 1),
        (1, 1, 1, "new 0 1 0 ; stood 0 1 1 0", 0, 1),
        (1, 1, 1, "new 0 1 0 ; stood 0 0 2 0", 0, 1),
        (2, 1, 2, "new 0 1 0 ; stood 0 0 1 1 ; seat 1", 0, 1),
        (
            2,
            1,
            2,
            "new 0 1 0 ; mask 0 1 1 ; stood 0 1 1 0 ; seat 1",
            0,
            2,
        ),
        (1, 1, 1, "new 0 1 0 ; out 0 2 0 ; stood 0 0 2 0", 0, 2),
        (1, 1, 1, "new 0 1 0 ; out 0 2 0 ; stood 0 0 2 -", 0, 2),
    ];
    expect_broken(&rt, 10, &broken)?;
    let kept = [
        (
            2,
            1,
            2,
            "new 0 1 0 ; mask 0 1 1 ; mask 0 2 0,1 ; stood 0 2 1 0 ; pick 0 1 0 ; die 0 2 0 ; stood 0 2 2 - ; stood 0 2 2 0 ; finish 0 2 0 ; seat 1",
        ),
        // A sleeper may still be busy, or be listed.
        (
            2,
            1,
            2,
            "new 0 1 0 ; pick 0 1 0 ; sleep 0 2 0 ; stood 0 0 2 0 ; finish 0 2 0 ; stood 0 0 2 - ; wake 0 2 ; list 0 2 1 0 ; stood 0 0 2 1 ; seat 1 ; enq 0 3 1 list ; pick 0 3 1 ; die 0 4 1 ; finish 0 4 1",
        ),
    ];
    expect_kept(&rt, &kept)?;
    Ok(())
}

#[test]
fn what_is_done_stood(rt: HostRuntime) -> Result<(), Fail> {
    let broken = [
        (1, 1, 1, "done 0 1", 0, 0),
        (1, 1, 1, "mask 0 1 0 ; done 0 1", 0, 1),
        (
            1,
            1,
            1,
            "new 0 1 0 ; done 0 1 ; mask 0 1 0 ; stood 0 1 1 0",
            0,
            1,
        ),
        // The mask stands in another journal.
        (
            1,
            1,
            2,
            "new 0 1 0 ; mask 0 1 0 ; stood 0 1 1 0 ; seat 1 ; done 0 1",
            1,
            0,
        ),
        // It stood under an earlier mask.
        (
            1,
            1,
            1,
            "new 0 1 0 ; mask 0 1 0 ; stood 0 1 1 0 ; mask 0 2 0 ; done 0 2",
            0,
            4,
        ),
    ];
    expect_broken(&rt, 11, &broken)?;
    let kept = [(
        1,
        1,
        2,
        "new 0 1 0 ; mask 0 1 0 ; mask 0 2 0 ; done 0 1 ; pick 0 1 0 ; die 0 2 0 ; finish 0 2 0 ; seat 1 ; stood 0 2 1 0",
    )];
    expect_kept(&rt, &kept)?;
    Ok(())
}
