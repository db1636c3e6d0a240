use super::*;
use handoff_data::NoMemory;
use std::process::Abort;
use std::test::Fail;
use task_script::{Script, ScriptError, read_script};

// What reading these bytes and writing them gives.
fn rewritten<R: Abort + AllocGlobal>(rt: &R, bytes: &[u8]) -> Result<Vec<u8>, NoMemory> {
    match read_script(rt.alloc(), bytes, 2) {
        Ok(script) => write_script(rt.alloc(), &script),
        Err(ScriptError::Bad(fault)) => panic!(rt; "line {} code {}", fault.line, fault.code),
        Err(ScriptError::NoMemory) => Err(NoMemory),
    }
}

// The text is spelled so, and its spelling is read as the same script and spelled the same.
fn assert_spelled<R: Abort + AllocGlobal>(rt: &R, text: &str, expected: &str) -> Result<(), Fail> {
    assert_eq!(rt;
        rewritten(rt, text.as_bytes())?.as_slice(),
        expected.as_bytes(),
        "{text}"
    );
    assert_eq!(rt;
        rewritten(rt, expected.as_bytes())?.as_slice(),
        expected.as_bytes(),
        "{text}"
    );
    let script: Script = read_script(rt.alloc(), text.as_bytes(), 2)?;
    let again: Script = read_script(rt.alloc(), expected.as_bytes(), 2)?;
    assert!(rt; again.equals(&script), "{text}");
    Ok(())
}

#[test]
fn scripts_have_one_spelling(rt: HostRuntime) -> Result<(), Fail> {
    for (text, expected) in [
        // Default lines left out, one or both.
        ("cpus 1\nend\n", "cpus 1\ncaches 1\nroom 4\nend\n"),
        ("cpus 12\ncaches 3\nend", "cpus 12\ncaches 3\nroom 4\nend\n"),
        ("cpus 3\nroom 1\nend", "cpus 3\ncaches 3\nroom 1\nend\n"),
        (
            "cpus 16\nroom 64\ncaches 16\nend",
            "cpus 16\ncaches 16\nroom 64\nend\n",
        ),
        // Comments, tabs, blanks, carriage returns and leading zeros.
        (
            "  cpus 2 \n# two\n\ntask a  count 03\n \t\nend\r\n# more",
            "cpus 2\ncaches 2\nroom 4\ntask a count 3\nend\n",
        ),
        (
            "\tcpus\t0000000004 \r\r\n caches 02\ntask\ta\tcount 0000\ntask b pin 0007 \t from  a\nend",
            "cpus 4\ncaches 2\nroom 4\ntask a count 0\ntask b pin 7 from a\nend\n",
        ),
        // Texts: with and without the space, with blanks of their own, empty, with a comment between.
        (
            "cpus 1\ntask a lines\n|hi\n# no text\n \t| hi\n|  hi \r\r\n|\n| \n|\t# |\n||\nend",
            "cpus 1\ncaches 1\nroom 4\ntask a lines\n| hi\n| hi\n|  hi \n|\n|\n| \t# |\n| |\nend\n",
        ),
        (
            "cpus 1\ntask a lines\nend",
            "cpus 1\ncaches 1\nroom 4\ntask a lines\nend\n",
        ),
        // Sources behind one another, each with its own texts.
        (
            "cpus 1\ntask a lines\n|x\ntask b lines\n|\n|y\ntask c count 10\ntask d weave from c a\nend",
            "cpus 1\ncaches 1\nroom 4\ntask a lines\n| x\ntask b lines\n|\n| y\ntask c count 10\ntask d weave from c a\nend\n",
        ),
        // Every kind, with tasks that are named as words of the form are.
        (
            "cpus 16\ncaches 5\nroom 64\ntask s lines\n| one\ntask t count 1000000\ntask u upper from s\ntask v number from u\ntask w keep on from v\ntask x drop |# from w\ntask y pin 1000000 from x\ntask z tally from y\ntask cat count 2\ntask from cat from cat t\ntask lines weave from from z\ntask end keep from from lines\nend\n",
            "cpus 16\ncaches 5\nroom 64\ntask s lines\n| one\ntask t count 1000000\ntask u upper from s\ntask v number from u\ntask w keep on from v\ntask x drop |# from w\ntask y pin 1000000 from x\ntask z tally from y\ntask cat count 2\ntask from cat from cat t\ntask lines weave from from z\ntask end keep from from lines\nend\n",
        ),
        // Each task reads by name, the second side first.
        (
            "cpus 2\ntask abcdefghijklmn9 count 1\ntask a lines\ntask b cat from a abcdefghijklmn9\nend",
            "cpus 2\ncaches 2\nroom 4\ntask abcdefghijklmn9 count 1\ntask a lines\ntask b cat from a abcdefghijklmn9\nend\n",
        ),
    ] {
        assert_spelled(&rt, text, expected)?;
    }
    Ok(())
}

// A text that fills its line without the space has no line for its spelling: that line is too long by one byte.
#[test]
fn a_spelling_may_be_past_the_limit_of_a_line(rt: HostRuntime) -> Result<(), Fail> {
    for (letters, fits) in [(4_094, true), (4_095, false)] {
        let mut text = Vec::new(rt.alloc());
        text.extend_from_slice(b"cpus 1\ntask a lines\n|")?;
        for _ in 0..letters {
            text.push(b'x')?;
        }
        text.extend_from_slice(b"\nend\n")?;
        let written = rewritten(&rt, text.as_slice())?;
        // Beside the letters: 7 + 9 + 7 + 13 + 3 + 4 bytes.
        assert_eq!(rt; written.len(), letters + 43);
        let fault = match read_script(rt.alloc(), written.as_slice(), 2) {
            Ok(_) => (0, 0),
            Err(ScriptError::Bad(fault)) => (fault.line, fault.code),
            Err(ScriptError::NoMemory) => (0, 99),
        };
        assert_eq!(rt; fault, if fits { (0, 0) } else { (5, 1) }, "{letters}");
    }
    Ok(())
}
