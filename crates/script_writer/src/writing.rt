//! Writing scripts, part by part: each function adds its part behind what is written.

ghost use Rattle.std.specs.Prelude.{◌≡◌, ◌++◌, ◌∷◌, [], map, IfOk, OnOk};
ghost use Rattle.std.specs.Fmt.{decimal};
ghost use Rattle.std.specs.List.{flat_map};
ghost use Rattle.script_writer.specs.Spelling.{behind_space, spelled_setting, kind_words, name_of, source_words};
ghost use Rattle.script_writer.specs.Spelling.{spelled_text, spelled_task, text_of, spelled};

use handoff_data::{Lines, NoMemory, TaskNo};
use itoa::Buffer;
use std::alloc::Global;
use task_script::{Plan, Script, TaskDef};

// A space and a word.
fn push_word(bytes: &mut Vec<u8>, word: &[u8]) -> Result<(), NoMemory>
    ensures { OnOk result (bytes.new.items ≡ bytes.old.items ++ behind_space word.now) }
{
    bytes.push(b' ')?;
    bytes.extend_from_slice(word)?;
    Ok(())
}

// A space and a number in decimal.
fn push_number(bytes: &mut Vec<u8>, number: u64) -> Result<(), NoMemory>
    ensures { OnOk result (bytes.new.items ≡ bytes.old.items ++ behind_space (decimal number)) }
{
    let mut buffer = Buffer::new();
    push_word(bytes, buffer.format(number).as_bytes())
}

// The line of a word and a number.
fn push_setting(bytes: &mut Vec<u8>, word: &[u8], number: u32) -> Result<(), NoMemory>
    ensures { OnOk result (bytes.new.items ≡ bytes.old.items ++ (spelled_setting word.now number ++ 10 ∷ [])) }
{
    bytes.extend_from_slice(word)?;
    push_number(bytes, u64::from(number))?;
    bytes.push(b'\n')?;
    Ok(())
}

// Two words, each behind a space.
fn push_pair(bytes: &mut Vec<u8>, word: &[u8], other: &[u8]) -> Result<(), NoMemory>
    ensures { OnOk result
        (bytes.new.items ≡ bytes.old.items ++ flat_map behind_space (word.now ∷ other.now ∷ [])) }
{
    push_word(bytes, word)?;
    push_word(bytes, other)
}

// A word and a number, each behind a space.
fn push_count(bytes: &mut Vec<u8>, word: &[u8], number: u64) -> Result<(), NoMemory>
    ensures { OnOk result
        (bytes.new.items ≡ bytes.old.items ++ flat_map behind_space (word.now ∷ decimal number ∷ [])) }
{
    push_word(bytes, word)?;
    push_number(bytes, number)
}

// The words of a kind, each behind a space.
fn push_kind(bytes: &mut Vec<u8>, task: &TaskDef) -> Result<(), NoMemory>
    ensures { OnOk result (bytes.new.items ≡ bytes.old.items
        ++ flat_map behind_space (kind_words task.now.custom task.now.plan)) }
{
    match &task.plan {
        Plan::Lines { .. } => push_word(bytes, b"lines"),
        Plan::Count { last, .. } => push_count(bytes, b"count", *last),
        Plan::Upper => push_word(bytes, b"upper"),
        Plan::Number { .. } => push_word(bytes, b"number"),
        Plan::Keep { prefix } => push_pair(bytes, b"keep", prefix.as_slice()),
        Plan::Drop { prefix } => push_pair(bytes, b"drop", prefix.as_slice()),
        Plan::Tally { .. } => push_word(bytes, b"tally"),
        Plan::Cat { .. } => push_word(bytes, b"cat"),
        Plan::Weave { .. } => push_word(bytes, b"weave"),
        Plan::Pin { left, .. } => push_count(bytes, b"pin", *left),
        Plan::Table { .. } => push_count(bytes, b"custom", u64::from(task.custom.unwrap_or(0))),
    }
}

// The name of the task of this number behind a space.
fn push_name(bytes: &mut Vec<u8>, tasks: &[TaskDef], source: TaskNo) -> Result<(), NoMemory>
    ensures { OnOk result (bytes.new.items ≡ bytes.old.items ++ behind_space (name_of tasks.now source)) }
{
    match tasks.get(source as usize) {
        Some(task) => push_word(bytes, task.name.as_slice()),
        None => push_word(bytes, b""),
    }
}

// The names of the tasks of these numbers, each behind a space.
fn push_names(bytes: &mut Vec<u8>, tasks: &[TaskDef], sources: &[TaskNo]) -> Result<(), NoMemory>
    ensures { OnOk result (bytes.new.items ≡ bytes.old.items
        ++ flat_map behind_space (map (name_of tasks.now) sources.now)) }
{
    for source in sources {
        push_name(bytes, tasks, *source)?;
    }
    Ok(())
}

// `from` and these names, each behind a space, or nothing where there is none.
fn push_sources(bytes: &mut Vec<u8>, tasks: &[TaskDef], sources: &[TaskNo]) -> Result<(), NoMemory>
    ensures { OnOk result (bytes.new.items ≡ bytes.old.items
        ++ flat_map behind_space (source_words (map (name_of tasks.now) sources.now))) }
{
    if sources.is_empty() {
        return Ok(());
    }
    push_word(bytes, b"from")?;
    push_names(bytes, tasks, sources)
}

// The line of a text.
fn push_text(bytes: &mut Vec<u8>, text: &[u8]) -> Result<(), NoMemory>
    ensures { OnOk result (bytes.new.items ≡ bytes.old.items ++ (spelled_text text.now ++ 10 ∷ [])) }
{
    bytes.push(b'|')?;
    if !text.is_empty() {
        push_word(bytes, text)?;
    }
    bytes.push(b'\n')?;
    Ok(())
}

// The lines of these texts.
fn push_texts(bytes: &mut Vec<u8>, texts: &Lines) -> Result<(), NoMemory>
    ensures { OnOk result (bytes.new.items ≡ bytes.old.items ++ text_of (map spelled_text texts.now)) }
{
    for index in 0..texts.len() {
        let Some(text) = texts.get(index) else {
            unreachable!()
        };
        push_text(bytes, text.as_slice())?;
    }
    Ok(())
}

// The lines of a task among these tasks.
fn push_task(bytes: &mut Vec<u8>, tasks: &[TaskDef], task: &TaskDef) -> Result<(), NoMemory>
    ensures { OnOk result (bytes.new.items ≡ bytes.old.items ++ text_of (spelled_task tasks.now task.now)) }
{
    bytes.extend_from_slice(b"task")?;
    push_word(bytes, task.name.as_slice())?;
    push_kind(bytes, task)?;
    push_sources(bytes, tasks, task.from.as_slice())?;
    bytes.push(b'\n')?;
    match &task.plan {
        Plan::Lines { left } => push_texts(bytes, left),
        _ => Ok(()),
    }
}

// The lines of all tasks.
fn push_tasks(bytes: &mut Vec<u8>, tasks: &[TaskDef]) -> Result<(), NoMemory>
    ensures { OnOk result
        (bytes.new.items ≡ bytes.old.items ++ text_of (flat_map (spelled_task tasks.now) tasks.now)) }
{
    for task in tasks {
        push_task(bytes, tasks, task)?;
    }
    Ok(())
}

/// Writes a script in its one canonical spelling.
///
/// Its lines are `cpus`, `caches` and `room`, each with its number; the tasks in their order, each source with its
/// texts behind it; and `end`. One space stands between words, and numbers have no leading zeros. A text stands behind
/// `| `, and an empty one is `|`. No line is blank or a comment, and each ends with a line feed. What `read_script`
/// gave is read back from its spelling, where each line of that and the whole are within the limits of a script
/// (`law_spelling`). Answers `NoMemory` where memory runs out.
pub fn write_script(alloc: Global, script: &Script) -> Result<Vec<u8>, NoMemory>
    ensures { IfOk result (λ bytes. bytes.items ≡ spelled script.now) }
{
    let mut bytes = Vec::new(alloc);
    push_setting(&mut bytes, b"cpus", script.shape.cpus)?;
    push_setting(&mut bytes, b"caches", script.shape.caches)?;
    push_setting(&mut bytes, b"room", script.room)?;
    push_tasks(&mut bytes, script.tasks.as_slice())?;
    bytes.extend_from_slice(b"end\n")?;
    Ok(bytes)
}
