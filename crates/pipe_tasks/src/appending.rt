ghost use Rattle.std.specs.Prelude.{◌≡◌, ◌≤◌, ◌+◌, ◌++◌, [], length, OnOk, OnErr};
ghost use Rattle.std.specs.Vec.{vec_capacity};

use handoff_data::{Line, Lines, NoMemory};
use std::alloc::Global;
use std::mem;

// Adds lines at the end. A refusal leaves those that are there as they were.
pub(crate) fn append_lines(alloc: Global, lines: &mut Lines, more: Lines) -> Result<(), NoMemory>
    ensures ok { OnOk result (lines.new ≡ lines.old ++ more) }
    ensures err { OnErr result (lines.new ≡ lines.old) }
{
    let count = lines.len().checked_add(more.len()).ok_or(NoMemory)?;
    // All memory is taken before a line is moved.
    let mut all = Vec::with_capacity(alloc, count)?;
    let before = mem::replace(lines, Lines::new(alloc));
    move_lines(before, &mut all);
    move_lines(more, &mut all);
    *lines = Lines::from_vec(all);
    Ok(())
}

// Moves lines to the end of others, which have room for them.
fn move_lines(lines: Lines, all: &mut Vec<Line>)
    requires { length all.old.items + length lines ≤ vec_capacity all.old }
    ensures items { all.new.items ≡ all.old.items ++ lines }
    ensures capacity { vec_capacity all.new ≡ vec_capacity all.old }
{
    let mut lines = lines;
    while let Some(line) = lines.pop() {
        all.push_reserved(line);
    }
}
