use super::*;
use handoff_data::NoMemory;
use std::process::Abort;
use std::test::Fail;

const RUN: &str =
    "journal 1\ncpus 1\ntasks 1\nseats 1\nseat 0\nnew 0 1 0\npick 0 1 0\nsleep 0 2 0\nfinish 0 2 0\nwake 0 2\nenq 0 3 0 direct\npick 0 3 0\ndie 0 4 0\nfinish 0 4 0\nend\n";

// The line on which the text is refused, or 0.
fn refused_line<R: AllocGlobal>(rt: &R, text: &str) -> Result<u64, NoMemory> {
    match read_journal(rt.alloc(), text.as_bytes()) {
        Ok(_) => Ok(0),
        Err(JournalError::Text { line }) => Ok(line),
        Err(JournalError::NoMemory) => Err(NoMemory),
    }
}

// What is written of the journals that the text says.
fn rewritten<R: Abort + AllocGlobal>(rt: &R, text: &str) -> Result<String, NoMemory> {
    let mut whole = String::new(rt.alloc());
    let Ok(journals) = read_journal(rt.alloc(), text.as_bytes()) else {
        return Ok(whole);
    };
    let mut lines = write_journal(rt.alloc(), &journals)?;
    for _ in 0..1000u64 {
        let Some(line) = lines.pop() else {
            break;
        };
        let Ok(text) = String::from_utf8(line.into_bytes()) else {
            return Err(NoMemory);
        };
        whole.push_str(text.as_str())?;
        whole.push('\n')?;
    }
    Ok(whole)
}

#[test]
fn texts_are_refused_on_their_first_fault(rt: HostRuntime) -> Result<(), Fail> {
    let table = [
        (RUN, 0),
        ("journal 1\ncpus 1\ntasks 0\nseats 1\nseat 0\nend", 0),
        (
            "journal 01\r\r\n \t\ncpus\t1\ntasks  000\nseats 1\nseat 0\nend\r\n\n \n",
            0,
        ),
        ("", 1),
        ("journal 2\n", 1),
        ("journal 1\n", 2),
        ("journal 1\ncpus 17\n", 2),
        ("journal 1\ncpus 1\ntasks 201\n", 3),
        ("journal 1\ncpus 1\ntasks 1\nseats 6\n", 4),
        ("journal 1\ncpus 1\ntasks 1\nseats 1\nend\n", 5),
        ("journal 1\ncpus 1\ntasks 1\nseats 2\nseat 0\nend\n", 6),
        (
            "journal 1\ncpus 1\ntasks 1\nseats 1\nseat 0\n new 0 1 0\nend\n",
            6,
        ),
        (
            "journal 1\ncpus 1\ntasks 1\nseats 1\nseat 0\nnew 0 1 0 \nend\n",
            6,
        ),
        (
            "journal 1\ncpus 1\ntasks 1\nseats 1\nseat 0\nnew 4294967296 1 0\nend\n",
            6,
        ),
        (
            "journal 1\ncpus 1\ntasks 1\nseats 1\nseat 0\nmask 0 1 16\nend\n",
            6,
        ),
        (
            "journal 1\ncpus 1\ntasks 1\nseats 1\nseat 0\nmask 0 1 3,\nend\n",
            6,
        ),
        (
            "journal 1\ncpus 1\ntasks 1\nseats 1\nseat 0\nrefused 0 65536\nend\n",
            6,
        ),
        (
            "journal 1\ncpus 1\ntasks 1\nseats 1\nseat 0\nend\nnew 0 1 0\n",
            7,
        ),
        (
            "journal 1\ncpus 1\ntasks 1\nseats 1\nseat 0\nseat 1\nend\n",
            6,
        ),
    ];
    for (text, line) in table {
        assert_eq!(rt; refused_line(&rt, text)?, line, "{text}");
    }
    Ok(())
}

#[test]
fn journals_are_written_in_one_way(rt: HostRuntime) -> Result<(), Fail> {
    let every =
        "journal 1\ncpus 2\ntasks 3\nseats 2\nseat 0\nlist 0 2 1 7\nenq 0 3 1 list\nout 0 1 1\nin 0 1 1\nmask 0 1 0,1,15\nmask 0 2 -\nstood 0 1 2 -\nstood 0 1 2 4294967295\ndone 0 18446744073709551615\nrefused 0 65535\nseat 1\noffline 1 0\nup 1 1\nend\n";
    let free =
        "journal 01\r\ncpus 2\n\ntasks\t3\nseats 002\nseat 0\nlist 0 2  1 7\nenq 0 3 1 list\nout 0 1 1\nin 0 1 1\nmask 0 1 15,1,00,1\nmask 0 2 -\nstood 0 1 2 -\nstood 0 1 2 4294967295\ndone 0 18446744073709551615\nrefused 0 65535\nseat 1\noffline 1 0\nup 1 1\nend";
    for (text, written) in [(RUN, RUN), (every, every), (free, every)] {
        assert_eq!(rt; rewritten(&rt, text)?.as_str(), written);
    }
    Ok(())
}

// The text of one processor, one task and one seat whose journal has this line.
fn with_line<R: AllocGlobal>(rt: &R, line: &str) -> Result<String, NoMemory> {
    let text = format!(in rt.alloc();
        "journal 1\ncpus 1\ntasks 1\nseats 1\nseat 0\n{line}\nend\n"
    )?;
    Ok(text)
}

#[test]
fn lines_of_no_form_are_refused(rt: HostRuntime) -> Result<(), Fail> {
    let lines = [
        "sleeps 0 1 0",
        "New 0 1 0",
        "new",
        "new 0 1",
        "new 0 1 0 0",
        "new 0 x 0",
        "new 0 -1 0",
        "new 0 +1 0",
        "new 0 1a 0",
        "new 0\r 1 0",
        "new 0 1 4294967296",
        "wake 0 18446744073709551616",
        "wake 0 000000000000000000001",
        "wake 0 1 0",
        "list 0 1 0",
        "list 0 1 0 18446744073709551616",
        "enq 0 1 0",
        "enq 0 1 0 listed",
        "enq 0 1 0 list 0",
        "mask 0 1",
        "mask 0 1 ,3",
        "mask 0 1 3,,4",
        "mask 0 1 0-3",
        "mask 0 1 -,3",
        "mask 0 1 3 4",
        "stood 0 0 1",
        "stood 0 0 1 --",
        "done 0",
        "refused 0",
        "offline 0",
        "up 0 x",
        "seat",
        "seat 0",
        "seat 2",
        "end 1",
        "journal 1",
        "cpus 1",
    ];
    for line in lines {
        let text = with_line(&rt, line)?;
        assert_eq!(rt; refused_line(&rt, text.as_str())?, 6, "{line}");
    }
    Ok(())
}

#[test]
fn lines_are_spelled_with_some_freedom(rt: HostRuntime) -> Result<(), Fail> {
    let lines = [
        "wake 0 18446744073709551615",
        "wake 0 00000000000000000001",
        "wake \t 0\t\t1\r\r",
        "new 4294967295 18446744073709551615 4294967295",
        "mask 0 1 015,0,0,003,15",
        "stood 0 0 1 4294967295",
        "refused 0 065535",
        "",
        " \t \r",
    ];
    for line in lines {
        let text = with_line(&rt, line)?;
        assert_eq!(rt; refused_line(&rt, text.as_str())?, 0, "{line}");
    }
    Ok(())
}

#[test]
fn first_lines_and_last_ones_have_their_places(rt: HostRuntime) -> Result<(), Fail> {
    let table = [
        ("\r\n", 2),
        ("Journal 1\n", 1),
        ("journal\n", 1),
        ("journal 1 1\n", 1),
        ("journal 1\ntasks 1\n", 2),
        ("journal 1\ncpus 0\n", 2),
        ("journal 1\ncpus 2\ntasks 1\nseats 1\n", 4),
        ("journal 1\ncpus 1\ntasks 1\nseats 1\nseat 1\n", 5),
        ("journal 1\ncpus 1\ntasks 1\nseats 1\nnew 0 1 0\n", 5),
        ("journal 1\ncpus 1\ntasks 1\nseats 1\nseat 0\nend\nend\n", 7),
        (
            "journal 1\ncpus 1\ntasks 1\nseats 1\nseat 0\nend\n\t\n \r\n.",
            9,
        ),
        ("journal 1\ncpus 1\ntasks 1\nseats 2\nseat 0\nseat 0\n", 6),
        ("journal 1\ncpus 16\ntasks 200\nseats 20\nseat 0", 6),
    ];
    for (text, line) in table {
        assert_eq!(rt; refused_line(&rt, text)?, line, "{text}");
    }
    Ok(())
}

// Two texts that differ by one freedom alone say the same.
#[test]
fn one_freedom_changes_nothing(rt: HostRuntime) -> Result<(), Fail> {
    let pairs = [
        ("wake 0 1", "wake 0 \t1"),
        ("wake 0 1", "wake 0 1\r"),
        ("wake 0 1", "wake 0 1\n \t"),
        ("wake 0 1", "wake 0 01"),
        ("mask 0 1 3,4", "mask 0 1 3,04"),
        ("mask 0 1 3,4,5", "mask 0 1 4,3,5"),
    ];
    for (plain, free) in pairs {
        let text = with_line(&rt, plain)?;
        let other = with_line(&rt, free)?;
        assert_eq!(rt; refused_line(&rt, other.as_str())?, 0, "{free}");
        assert_eq!(rt;
            rewritten(&rt, other.as_str())?.as_str(),
            rewritten(&rt, text.as_str())?.as_str()
        );
    }
    Ok(())
}
