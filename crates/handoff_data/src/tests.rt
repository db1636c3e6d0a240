use super::*;
use std::process::Abort;
use std::test::Fail;

// A line of a text that has no line feed.
fn line<R: Abort + AllocGlobal>(rt: &R, text: &str) -> Result<Line, NoMemory> {
    let bytes = Vec::from_slice(rt.alloc(), text.as_bytes())?;
    assert!(rt; is_line(bytes.as_slice()));
    Ok(Line::new(bytes))
}

#[test]
fn lines_come_out_in_their_order(rt: HostRuntime) -> Result<(), Fail> {
    let mut lines = Lines::new(rt.alloc());
    for text in ["one", "", "three"] {
        lines.push(line(&rt, text)?)?;
    }
    assert_eq!(rt; lines.len(), 3);
    for text in ["one", "", "three"] {
        let expected = line(&rt, text)?;
        let found = lines.pop().ok_or(NoMemory)?;
        assert!(rt; found.equals(&expected), "{text}");
    }
    assert!(rt; lines.is_empty());
    assert!(rt; !is_line(b"two\nlines"));
    Ok(())
}
