// The report of a run.
ghost use Rattle.std.specs.Prelude.{◌≡◌, ℕ, List, [], ◌∷◌, ◌++◌, map, IfOk, OnOk};
ghost use Rattle.std.specs.List.{flat_map, zip};
ghost use Rattle.journal_text.specs.Readable.{text_of};
ghost use Rattle.journal_text.specs.Spelling.{spelling};
ghost use Rattle.task_script.specs.declared.script.TaskDef.{TaskDef};
ghost use Rattle.wk_run.specs.Named.{front_of, report_line, report_lines};

use handoff_data::{Journals, Line, Lines, NoMemory};
use journal_text::write_journal;
use std::alloc::Global;
use std::collections::VecDeque;
use task_script::TaskDef;

// The lines of each task, after the name of its task or alone.
pub(crate) fn report_text(
    alloc: Global,
    plain: bool,
    tasks: &[TaskDef],
    outputs: Vec<Lines>,
) -> Result<Vec<u8>, NoMemory>
    ensures { IfOk result (λ text. text.items
        ≡ flat_map (λ (task : List ℕ × List (List ℕ)). report_lines plain task.0 task.1)
        (zip (map (λ (task : TaskDef). task.name) tasks.now) outputs.items)) }
{
    let mut text = Vec::new(alloc);
    let mut outputs = VecDeque::from_vec(outputs);
    for task in tasks {
        let Some(lines) = outputs.pop_front() else {
            return Ok(text);
        };
        push_task(&mut text, plain, &task.name, lines)?;
    }
    Ok(text)
}

// Adds the lines of a task. A line is let go as soon as it is written.
fn push_task(text: &mut Vec<u8>, plain: bool, name: &Line, lines: Lines) -> Result<(), NoMemory>
    ensures { OnOk result (text.new.items ≡ text.old.items ++ report_lines plain name.now lines) }
{
    let mut lines = lines;
    while let Some(line) = lines.pop() {
        push_line(text, plain, name, &line)?;
    }
    Ok(())
}

// Adds a line, and what stands before it.
fn push_line(text: &mut Vec<u8>, plain: bool, name: &Line, line: &Line) -> Result<(), NoMemory>
    ensures { OnOk result (text.new.items ≡ text.old.items ++ report_line plain name.now line.now) }
{
    push_front(text, plain, name)?;
    push_ended(text, line)
}

// Adds the name, a colon and a space, where the report isn't plain.
fn push_front(text: &mut Vec<u8>, plain: bool, name: &Line) -> Result<(), NoMemory>
    ensures { OnOk result (text.new.items ≡ text.old.items ++ front_of plain name.now) }
{
    if plain {
        return Ok(());
    }
    text.extend_from_slice(name.as_slice())?;
    text.extend_from_slice(b": ")?;
    Ok(())
}

// Adds a line and its end.
fn push_ended(text: &mut Vec<u8>, line: &Line) -> Result<(), NoMemory>
    ensures { OnOk result (text.new.items ≡ text.old.items ++ line.now ++ 10 ∷ []) }
{
    text.extend_from_slice(line.as_slice())?;
    text.push(b'\n')?;
    Ok(())
}

// Adds the text of journals.
pub(crate) fn push_journals(
    alloc: Global,
    text: &mut Vec<u8>,
    journals: &Journals,
) -> Result<(), NoMemory>
    ensures { OnOk result (text.new.items ≡ text.old.items ++ text_of (spelling journals.now)) }
{
    push_lines(text, write_journal(alloc, journals)?)
}

// Adds lines, each with its end. A line is let go as soon as it is written.
fn push_lines(text: &mut Vec<u8>, lines: Lines) -> Result<(), NoMemory>
    ensures { OnOk result (text.new.items ≡ text.old.items ++ text_of lines) }
{
    let mut lines = lines;
    while let Some(line) = lines.pop() {
        push_ended(text, &line)?;
    }
    Ok(())
}
