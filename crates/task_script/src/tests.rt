use super::*;
use handoff_data::Shape;
use std::process::Abort;
use std::test::Fail;

// Where the bytes are faulty, as (line, code), or (0, 0) where they are a script.
fn fault<R: Abort + AllocGlobal>(rt: &R, bytes: &[u8]) -> (u64, u32) {
    match read_script(rt.alloc(), bytes, 2) {
        Ok(_) => (0, 0),
        Err(ScriptError::Bad(fault)) => (fault.line, fault.code),
        Err(ScriptError::NoMemory) => panic!(rt; "no memory"),
    }
}

#[test]
fn scripts_and_first_faults(rt: HostRuntime) {
    for (text, expected) in [
        // Scripts.
        ("cpus 1\nend\n", (0, 0)),
        ("cpus 16\nend", (0, 0)),
        (
            "cpus 1\ntask a lines\n|# |\t\n|\ntask b2 upper from a\ntask c number from b2\nend\n",
            (0, 0),
        ),
        (
            "# comment\n\n \t\n\t cpus\t 0000000004 \r\r\n caches 4\nroom 64\nend\r\n\n# more\n",
            (0, 0),
        ),
        ("cpus 2\nroom 1\ncaches 2\ntask a count 0\nend", (0, 0)),
        (
            "cpus 4\ntask a count 1000000\ntask b lines\ntask c cat from a b\ntask d lines\ntask e weave from d c\nend",
            (0, 0),
        ),
        (
            "cpus 1\ntask a lines\n# between\n\n| text\ntask b keep te from a\ntask c drop |x from b\ntask d tally from c\ntask e pin 1 from d\nend",
            (0, 0),
        ),
        (
            "cpus 1\ntask cat lines\ntask from cat from cat x\nend",
            (3, 6),
        ),
        // Code 2, alone and with a worse number.
        ("cpus 1\ntask a nosuch\nend\n", (2, 2)),
        ("cpus\nend", (1, 2)),
        ("agent", (1, 2)),
        ("cpus 99 1\nend", (1, 2)),
        ("cpus 1\ntask a custom from b\nend", (2, 2)),
        ("cpus 1\ntask a custom 0 of b\nend", (2, 2)),
        // Numbers of works: the caller brings two.
        (
            "cpus 1\ntask a lines\ntask b custom 1 from a\ntask c custom 00 from b\nend",
            (0, 0),
        ),
        ("cpus 1\ntask a lines\ntask b custom x from a\nend", (3, 3)),
        ("cpus 1\ntask a lines\ntask b custom 2 from a\nend", (3, 13)),
        (
            "cpus 1\ntask a lines\ntask b custom 9999999999 from a\nend",
            (3, 13),
        ),
        (
            "cpus 1\ntask a lines\ntask b custom 1 from a\ntask c custom 01 from b\nend",
            (4, 13),
        ),
        ("cpus 1\ntask a custom 2 from a\nend", (2, 6)),
        ("task a lines\ntask b custom 2 from a\nend", (1, 10)),
        ("cpus 1\ntask a cat from b\nend", (2, 2)),
        ("cpus 1\ntask a upper of b\nend", (2, 2)),
        ("cpus 1\ntask a keep from b\nend", (2, 2)),
        // Code 3.
        ("cpus 17\nend", (1, 3)),
        ("cpus 0\nend", (1, 3)),
        ("cpus x\nend", (1, 3)),
        ("cpus 00000000001\nend", (1, 3)),
        ("cpus 2\ncaches 3\nend", (2, 3)),
        ("cpus 2\ncaches 0\nend", (2, 3)),
        ("caches 0\nend", (1, 10)),
        ("caches x\nend", (1, 3)),
        ("cpus 1\nroom 0\nend", (2, 3)),
        ("cpus 1\nroom 65\nend", (2, 3)),
        ("cpus 1\ntask a count 1000001\nend", (2, 3)),
        ("cpus 1\ntask A count x\nend", (2, 3)),
        ("cpus 1\ntask a lines\ntask b pin 0 from a\nend", (3, 3)),
        // Codes 4 to 7.
        ("cpus 1\ntask A lines\nend", (2, 4)),
        ("cpus 1\ntask 1a upper from z\nend", (2, 4)),
        ("cpus 1\ntask a lines\ntask a upper from z\nend", (3, 5)),
        ("cpus 1\ntask a upper from a\nend", (2, 6)),
        ("cpus 1\ntask a cat from z z\nend", (2, 6)),
        (
            "cpus 1\ntask a lines\ntask b upper from a\ntask c upper from a\nend",
            (4, 7),
        ),
        ("cpus 1\ntask a lines\ntask b cat from a a\nend", (3, 7)),
        // Code 10.
        ("task a lines\nend", (1, 10)),
        ("cpus 1\ncpus 1\nend", (2, 10)),
        ("cpus 1\nroom 1\nroom 1\nend", (3, 10)),
        ("cpus 1\ncaches 1\ncaches 1\nend", (3, 10)),
        ("cpus 1\ntask a lines\nroom 1\nend", (3, 10)),
        ("end", (1, 10)),
        // Codes 11, 12 and 14.
        ("", (1, 11)),
        ("cpus 1\ntask a lines", (3, 11)),
        ("# nothing\n\n", (3, 11)),
        ("cpus 1\nend\nend", (3, 12)),
        ("cpus 1\nend\n\n|", (4, 12)),
        ("cpus 1\n|text\nend", (2, 14)),
        ("cpus 1\ntask a count 1\n|text\nend", (3, 14)),
        // The first of two faulty lines.
        ("cpus 1\n|text\ntask A nosuch\nend", (2, 14)),
    ] {
        assert_eq!(rt; fault(&rt, text.as_bytes()), expected, "{text}");
    }
}

// A line that begins so and goes on with this many letters.
fn add_line(bytes: &mut Vec<u8>, begin: &str, letters: usize) -> Result<(), ScriptError> {
    bytes.extend_from_slice(begin.as_bytes())?;
    for _ in 0..letters {
        bytes.push(b'x')?;
    }
    bytes.push(b'\n')?;
    Ok(())
}

#[test]
fn limits_of_lines_and_names(rt: HostRuntime) -> Result<(), Fail> {
    for (begin, letters, expected) in [
        ("|", 4_095, (0, 0)),
        ("|", 4_096, (3, 1)),
        ("#", 4_096, (3, 1)),
        ("nosuch", 4_096, (3, 1)),
        ("task a", 14, (3, 2)),
    ] {
        let mut bytes = Vec::new(rt.alloc());
        bytes.extend_from_slice(b"cpus 1\ntask a lines\n")?;
        add_line(&mut bytes, begin, letters)?;
        bytes.extend_from_slice(b"end\n")?;
        assert_eq!(rt; fault(&rt, bytes.as_slice()), expected, "{begin} {letters}");
    }
    for (name, expected) in [("abcdefghijklmno9", (0, 0)), ("abcdefghijklmnop9", (2, 4))] {
        let text = format!(in rt.alloc(); "cpus 1\ntask {name} lines\nend\n")?;
        assert_eq!(rt; fault(&rt, text.as_bytes()), expected, "{name}");
    }
    Ok(())
}

#[test]
fn limit_of_tasks(rt: HostRuntime) -> Result<(), Fail> {
    for (tasks, expected) in [(200u32, (0, 0)), (201, (202, 8))] {
        let mut text = String::from_str(rt.alloc(), "cpus 1\ntask t0 lines\n")?;
        for task in 1..tasks {
            let before = task - 1;
            let line = format!(in rt.alloc(); "task t{task} upper from t{before}\n")?;
            text.push_str(line.as_str())?;
        }
        text.push_str("end\n")?;
        assert_eq!(rt; fault(&rt, text.as_bytes()), expected, "{tasks}");
    }
    Ok(())
}

#[test]
fn limit_of_the_input(rt: HostRuntime) -> Result<(), Fail> {
    // The first lines and the last have 24 bytes, 4,095 texts 4,096 each, and one more text 4,072.
    let mut text = Vec::new(rt.alloc());
    add_line(&mut text, "|", 4_094)?;
    let mut bytes = Vec::new(rt.alloc());
    bytes.extend_from_slice(b"cpus 1\ntask a lines\n")?;
    for _ in 0..4_095 {
        bytes.extend_from_slice(text.as_slice())?;
    }
    add_line(&mut bytes, "|", 4_070)?;
    bytes.extend_from_slice(b"end\n")?;
    assert_eq!(rt; bytes.len(), SCRIPT_LIMIT);
    assert_eq!(rt; fault(&rt, bytes.as_slice()), (0, 0));
    bytes.push(b'#')?;
    assert_eq!(rt; fault(&rt, bytes.as_slice()), (4_100, 16));
    Ok(())
}

#[test]
fn a_script_has_its_tasks(rt: HostRuntime) -> Result<(), Fail> {
    let text =
        "cpus 4\ncaches 2\ntask a lines\n|hi\n# no text\n \t| hi\n|  hi \r\r\n|\n| \ntask b count 7\ntask c weave from b a\ntask d pin 3 from c\ntask e custom 1 from d\nend";
    let script = read_script(rt.alloc(), text.as_bytes(), 2)?;
    let shape = Shape {
        cpus: 4,
        caches: 2,
        tasks: 5,
        conds: 10,
        agents: 0,
    };
    assert_eq!(rt; script.shape, shape);
    assert_eq!(rt; script.room, 4);
    let none: [u32; 0] = [];
    let mut seen = (false, false);
    for (task, (name, from)) in script.tasks.as_slice().iter().zip([
        ("a", none.as_slice()),
        ("b", none.as_slice()),
        ("c", [1, 0].as_slice()),
        ("d", [2].as_slice()),
        ("e", [3].as_slice()),
    ]) {
        assert_eq!(rt; task.name.as_slice(), name.as_bytes());
        assert_eq!(rt; task.from.as_slice(), from);
        match &task.plan {
            Plan::Lines { left } => {
                for (at, expected) in ["hi", "hi", " hi ", "", ""].iter().enumerate() {
                    let found = left.get(at).ok_or("a text")?;
                    assert_eq!(rt; found.as_slice(), expected.as_bytes());
                }
                assert_eq!(rt; left.len(), 5);
                seen.0 = true;
            }
            Plan::Count { next, last } => {
                assert_eq!(rt; (*next, *last), (1, 7));
                seen.1 = true;
            }
            Plan::Weave { side, ended } => assert_eq!(rt; (*side, *ended), (0, false)),
            Plan::Pin { left, on } => assert_eq!(rt; (*left, *on), (3, false)),
            Plan::Table { map, last } => {
                assert_eq!(rt; task.custom, Some(1));
                assert_eq!(rt; (map.get(0), map.get(10), map.get(255)), (0, 10, 255));
                assert!(rt; last.is_empty());
            }
            _ => panic!(rt; "another plan"),
        }
    }
    assert_eq!(rt; seen, (true, true));
    Ok(())
}

#[test]
fn spellings_of_a_script_are_one_script(rt: HostRuntime) -> Result<(), Fail> {
    let plain =
        "cpus 2\nroom 4\ntask a lines\n| x\n| y\ntask b pin 2 from a\ntask c keep x from b\nend\n";
    let script = read_script(rt.alloc(), plain.as_bytes(), 0)?;
    for (text, same) in [
        (
            " cpus 02\r\n# c\ntask\ta lines\n|x\n\n\t| y\r\ntask b pin 0002 from  a\ntask c keep x from b\nend",
            true,
        ),
        (
            "cpus 2\ntask a lines\n| x\ntask b pin 2 from a\ntask c keep x from b\nend\n",
            false,
        ),
        (
            "cpus 2\ntask a lines\n| x\n| z\ntask b pin 2 from a\ntask c keep x from b\nend\n",
            false,
        ),
        (
            "cpus 2\ntask a lines\n| x\n| y\ntask b pin 3 from a\ntask c keep x from b\nend\n",
            false,
        ),
        (
            "cpus 2\ntask a lines\n| x\n| y\ntask b pin 2 from a\ntask c drop x from b\nend\n",
            false,
        ),
        (
            "cpus 2\ntask a lines\n| x\n| y\ntask b pin 2 from a\ntask d keep x from b\nend\n",
            false,
        ),
        (
            "cpus 2\nroom 5\ntask a lines\n| x\n| y\ntask b pin 2 from a\ntask c keep x from b\nend\n",
            false,
        ),
        (
            "cpus 3\ntask a lines\n| x\n| y\ntask b pin 2 from a\ntask c keep x from b\nend\n",
            false,
        ),
        ("cpus 2\nend\n", false),
    ] {
        let other = read_script(rt.alloc(), text.as_bytes(), 0)?;
        assert_eq!(rt; script.equals(&other), same, "{text}");
        assert_eq!(rt; other.equals(&script), same, "{text}");
    }
    Ok(())
}
