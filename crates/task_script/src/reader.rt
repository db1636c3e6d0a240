ghost use Rattle.std.specs.Prelude.{◌≡◌, ◌≤◌, ◌<◌, ◌^◌, ℕ, [], ◌++◌, IsTrue, Some, length, take, None, ◌∷◌, Err, IfOk};
ghost use Rattle.std.specs.Prelude.{OnOk, vec_len};
ghost use Rattle.std.specs.List.{list_any, filter_map};
ghost use Rattle.std.specs.Option.{option_to_list};
ghost use Rattle.std.specs.Str.{bytes_eq};
ghost use Rattle.std.specs.Prelude.{◌==◌};
ghost use Rattle.handoff_data.specs.Line.{IsLine};
ghost use Rattle.task_script.specs.Lines.{input_lines};
ghost use Rattle.task_script.specs.Forms.{value_of, is_name, reads, kind_of, task_line, text_line, form_seen};
ghost use Rattle.task_script.specs.Forms.{HasLinePrefix, HasLineSources, HasLineText};
ghost use Rattle.task_script.specs.Script.{SoFar, number_of, plan_of, custom_in, lacks_task, reads_again, is_bad_group};
ghost use Rattle.task_script.specs.Script.{is_no_work};
ghost use Rattle.task_script.specs.Script.{has_bad_count, faults, lowest, form_code, IsScript, NotScript, FirstFault};
ghost use Rattle.task_script.specs.declared.script.Script.{Script};
ghost use Rattle.task_script.specs.declared.script.ScriptFault.{ScriptFault};
ghost use Rattle.task_script.specs.Forest.{IsForest};
ghost use Rattle.task_script.specs.Reading.{Gives, IsScriptOf, state_of, start, held, all_tasks, closed, opened, added};
ghost use Rattle.task_script.specs.Reading.{settled, next, IsBelow, CanSettle, step, run, verdict};

use crate::byte_map::ByteMap;
use crate::form::{Form, Inputs, Kind, form_of, is_name, is_within, number_in, sources_of};
use crate::lists::{Sources, Tasks};
use crate::names::Names;
use crate::pieces::next_line;
use crate::plan::Plan;
use crate::script::{Script, ScriptError, ScriptFault, TaskDef};
use handoff_data::{Line, Lines, NoMemory, Shape, TaskNo};
use std::alloc::Global;

/// How many bytes a script has at most.
pub const SCRIPT_LIMIT: usize = 16_777_216;

// How many bytes a line has at most.
const LINE_LIMIT: usize = 4_096;

// How many tasks a script has at most.
const TASK_LIMIT: usize = 200;

// How many processors there are at most, and how many items a ring has room for at most and by default.
const CPU_LIMIT: u64 = 16;

const ROOM_LIMIT: u64 = 64;

const ROOM: u32 = 4;

// The largest number of a `count` and of a `pin`.
const COUNT_LIMIT: u64 = 1_000_000;

// A `lines` task whose texts may still come.
#[derive(Drop)]
struct Source {
    name: Line,
    texts: Lines,
}

// What the lines so far come to.
#[derive(Drop)]
struct Reader<'a> {
    cpus: Option<u32>,
    caches: Option<u32>,
    room: Option<u32>,
    // The names of the tasks, and those that stand after a `from`.
    names: Names<'a>,
    sources: Names<'a>,
    // How many works the caller brings, and the numbers of those that tasks have.
    customs: u32,
    works: Vec<u64>,
    ended: bool,
    // The tasks, apart from a source whose texts may still come.
    tasks: Vec<TaskDef>,
    source: Option<Source>,
}

// Whether the numbers of this kind are none, or out of range.
fn has_bad_count(kind: Kind) -> bool
    ensures { result ≡ has_bad_count (kind_of kind.entry) }
{
    match kind {
        Kind::Count(number) => !is_within(0, COUNT_LIMIT, number),
        Kind::Pin(number, _) => !is_within(1, COUNT_LIMIT, number),
        Kind::Custom(number, _) => number_in(number).is_none(),
        _ => false,
    }
}

// The number that a word is, or 0.
fn value_of(word: &[u8]) -> u64
    ensures { result ≡ value_of word.now }
{
    number_in(word).unwrap_or(0)
}

// Whether a number is among these.
fn is_among(number: u64, numbers: &[u64]) -> bool
    ensures { result ≡ list_any (λ other. other == number) numbers.now }
{
    numbers.iter().any(|other| *other == number)
}

// A copy of these bytes as a line.
fn line_of(alloc: Global, bytes: &[u8]) -> Result<Line, NoMemory>
    requires { IsLine bytes.now }
    ensures { IfOk result (λ line. line ≡ bytes.now) }
{
    Ok(Line::new(Vec::from_slice(alloc, bytes)?))
}

// The number of the work that a task of this kind has, if it has one.
fn custom_in(kind: Kind) -> Option<u64>
    ensures { result ≡ custom_in (kind_of kind.entry) }
{
    match kind {
        Kind::Custom(number, _) => Some(value_of(number)),
        _ => None,
    }
}

// The plan of this kind as it begins, where it isn't a source of lines.
fn plan_of(alloc: Global, kind: Kind) -> Result<Plan, NoMemory>
    requires { HasLinePrefix (kind_of kind) }
    ensures { IfOk result (λ plan. plan ≡ plan_of (kind_of kind.entry) []) }
{
    Ok(match kind {
        Kind::Lines => Plan::Lines {
            left: Lines::new(alloc),
        },
        Kind::Count(number) => Plan::Count {
            next: 1,
            last: value_of(number),
        },
        Kind::Upper(_) => Plan::Upper,
        Kind::Number(_) => Plan::Number { next: 1 },
        Kind::Keep(prefix, _) => Plan::Keep {
            prefix: line_of(alloc, prefix)?,
        },
        Kind::Drop(prefix, _) => Plan::Drop {
            prefix: line_of(alloc, prefix)?,
        },
        Kind::Tally(_) => Plan::Tally { n: 0 },
        Kind::Pin(number, _) => Plan::Pin {
            left: value_of(number),
            on: false,
        },
        Kind::Custom(_, _) => Plan::Table {
            map: ByteMap::identity(alloc)?,
            last: Lines::new(alloc),
        },
        Kind::Cat(_, _) => Plan::Cat { side: 0 },
        Kind::Weave(_, _) => Plan::Weave {
            side: 0,
            ended: false,
        },
    })
}

impl<'a> Reader<'a> {
    fn new(alloc: Global, customs: u32) -> Reader<'a>
        ensures { state_of result ≡ start customs }
    {
        Reader {
            cpus: None,
            caches: None,
            room: None,
            names: Names::new(alloc),
            sources: Names::new(alloc),
            customs,
            works: Vec::new(alloc),
            ended: false,
            tasks: Vec::new(alloc),
            source: None,
        }
    }

    // The number of the task of this name, if there is one.
    fn number_of(&self, name: &[u8]) -> Option<usize>
        ensures { result ≡ number_of self.now.names name.now }
    {
        self.names.number_of(name)
    }

    // Whether this name stands after an earlier `from`.
    fn is_read(&self, name: &[u8]) -> bool
        ensures { result ≡ list_any (λ other. bytes_eq other name.now) self.now.sources }
    {
        self.sources.contains(name)
    }

    // Whether a task of this kind reads a name that isn't a task's.
    fn lacks_task(&self, kind: Kind) -> bool
        ensures { result ≡ lacks_task self.now.names (reads (kind_of kind.entry)) }
    {
        match sources_of(kind) {
            Inputs::Nothing => false,
            Inputs::One(source) => self.number_of(source).is_none(),
            Inputs::Two(first, second) => {
                self.number_of(first).is_none() || self.number_of(second).is_none()
            }
        }
    }

    // Whether a task of this kind reads a name that is read already.
    fn reads_again(&self, kind: Kind) -> bool
        ensures { result ≡ reads_again self.now.sources (reads (kind_of kind.entry)) }
    {
        match sources_of(kind) {
            Inputs::Nothing => false,
            Inputs::One(source) => self.is_read(source),
            Inputs::Two(first, second) => {
                self.is_read(first) || first == second || self.is_read(second)
            }
        }
    }

    // Whether a word isn't the size of a cache group.
    fn is_bad_group(&self, number: &[u8]) -> bool
        ensures { result ≡ is_bad_group self.now.cpus number.now }
    {
        match self.cpus {
            Some(cpus) => !is_within(1, cpus as u64, number),
            None => number_in(number).is_none(),
        }
    }

    // Whether a task of this kind has a number that is no work's, or that an earlier task has.
    fn is_no_work(&self, kind: Kind) -> bool
        ensures { result ≡ is_no_work (held (state_of self.now)) (custom_in (kind_of kind.entry)) }
    {
        match custom_in(kind) {
            Some(number) => u64::from(self.customs) <= number || is_among(number, &self.works),
            None => false,
        }
    }

    // The lowest code of a task line.
    fn task_code(&self, name: &[u8], kind: Kind) -> Option<u32>
        ensures { result ≡ lowest (faults (held (state_of self.now)) (task_line name.now (kind_of kind.entry))) }
    {
        if has_bad_count(kind) {
            return Some(3);
        }
        if !is_name(name) {
            return Some(4);
        }
        if self.number_of(name).is_some() {
            return Some(5);
        }
        if self.lacks_task(kind) {
            return Some(6);
        }
        if self.reads_again(kind) {
            return Some(7);
        }
        if self.names.len() >= TASK_LIMIT {
            return Some(8);
        }
        if self.cpus.is_none() {
            return Some(10);
        }
        if self.is_no_work(kind) {
            return Some(13);
        }
        None
    }

    // The lowest code of a line of this form, before `end`.
    fn lowest_code(&self, form: Form) -> Option<u32>
        ensures { result ≡ lowest (faults (held (state_of self.now)) (form_seen form.entry)) }
    {
        match form {
            Form::Skip => None,
            Form::Cpus(number) => {
                if !is_within(1, CPU_LIMIT, number) {
                    return Some(3);
                }
                if self.cpus.is_some() { Some(10) } else { None }
            }
            Form::Caches(number) => {
                if self.is_bad_group(number) {
                    return Some(3);
                }
                if self.cpus.is_none() || self.caches.is_some() || !self.names.is_empty() {
                    return Some(10);
                }
                None
            }
            Form::Room(number) => {
                if !is_within(1, ROOM_LIMIT, number) {
                    return Some(3);
                }
                if self.cpus.is_none() || self.room.is_some() || !self.names.is_empty() {
                    return Some(10);
                }
                None
            }
            Form::Task { name, kind } => self.task_code(name, kind),
            Form::Text(_) => if self.source.is_none() {
                Some(14)
            } else {
                None
            },
            Form::End => if self.cpus.is_none() { Some(10) } else { None },
        }
    }

    // The code of a line of this form, if it has a fault.
    fn form_code(&self, form: Form) -> Option<u32>
        ensures { result ≡ form_code (held (state_of self.now)) (Some (form_seen form.entry)) }
    {
        if self.ended {
            return match form {
                Form::Skip => None,
                _ => Some(12),
            };
        }
        self.lowest_code(form)
    }

    // Ends the texts of a `lines` task.
    fn close(&mut self, alloc: Global) -> Result<(), NoMemory>
        ensures { OnOk result (state_of self.new ≡ closed (state_of self.old)) }
    {
        if let Some(Source { name, texts }) = self.source.take() {
            self.tasks.push(TaskDef {
                name,
                plan: Plan::Lines { left: texts },
                custom: None,
                from: Sources::from_vec(Vec::new(alloc)),
            })?;
        }
        Ok(())
    }

    // Adds a text to the `lines` task that is open, if there is one.
    fn add_text(&mut self, alloc: Global, text: &[u8]) -> Result<(), NoMemory>
        requires { IsLine text.now }
        ensures { OnOk result (state_of self.new ≡ next (state_of self.old) (text_line text.now)) }
    {
        if let Some(mut source) = self.source.take() {
            source.texts.push(line_of(alloc, text)?)?;
            self.source = Some(source);
        }
        Ok(())
    }

    // Adds the number of a task to those that a task reads.
    fn add_source(&self, from: &mut Vec<TaskNo>, name: &[u8]) -> Result<(), NoMemory>
        requires { length self.now.names < 200 }
        ensures { OnOk result (from.new.items ≡ from.old.items
            ++ filter_map (number_of self.now.names) (name.now ∷ [])) }
    {
        if let Some(number) = self.number_of(name) {
            from.push(number as TaskNo)?;
        }
        Ok(())
    }

    // The numbers of the tasks that a task of this kind reads.
    fn numbers_of(&self, alloc: Global, kind: Kind) -> Result<Sources, NoMemory>
        requires { length self.now.names < 200 }
        ensures { IfOk result (λ from. from ≡ filter_map (number_of self.now.names) (reads (kind_of kind.entry))) }
    {
        let mut from = Vec::new(alloc);
        match sources_of(kind) {
            Inputs::Nothing => {}
            Inputs::One(source) => self.add_source(&mut from, source)?,
            Inputs::Two(first, second) => {
                self.add_source(&mut from, first)?;
                self.add_source(&mut from, second)?;
            }
        }
        Ok(Sources::from_vec(from))
    }

    // Keeps the names that a task of this kind reads.
    fn keep_sources(&mut self, kind: Kind<'a>) -> Result<(), NoMemory>
        ensures { OnOk result (state_of self.new ≡ record (state_of self.old) {
          sources = self.old.sources
              ++ reads (kind_of kind.entry);
        }) }
    {
        match sources_of(kind) {
            Inputs::Nothing => {}
            Inputs::One(source) => self.sources.push(source)?,
            Inputs::Two(first, second) => {
                self.sources.push(first)?;
                self.sources.push(second)?;
            }
        }
        Ok(())
    }

    // Keeps the number of the work that a task of this kind has.
    fn keep_work(&mut self, kind: Kind<'a>) -> Result<(), NoMemory>
        ensures { OnOk result (state_of self.new ≡ record (state_of self.old) {
          works = self.old.works.items
              ++ option_to_list (custom_in (kind_of kind.entry));
        }) }
    {
        if let Some(number) = custom_in(kind) {
            self.works.push(number)?;
        }
        Ok(())
    }

    // The number of the work that a task of this kind has, which is below the number of works.
    #[tactic(auto, using(crate::proofs::WorkLaws::below_of))]
    fn work_of(&self, kind: Kind<'a>) -> Option<u32>
        requires { IsBelow self.now.customs (custom_in (kind_of kind)) }
        ensures { result ≡ custom_in (kind_of kind.entry) }
    {
        match custom_in(kind) {
            Some(number) => Some(number.min(u64::from(self.customs)) as u32),
            None => None,
        }
    }

    // The next task, where no source is open.
    fn add_task(&mut self, alloc: Global, name: &'a [u8], kind: Kind<'a>) -> Result<(), NoMemory>
        requires few { length self.old.names < 200 }
        requires named { IsLine name.now }
        requires prefix { HasLinePrefix (kind_of kind) }
        requires sources { HasLineSources (kind_of kind) }
        requires work { IsBelow self.old.customs (custom_in (kind_of kind)) }
        requires none { self.old.source ≡ None }
        ensures { OnOk result
            (state_of self.new ≡ settled (state_of self.old) (task_line name.now (kind_of kind.entry))) }
    {
        let from = self.numbers_of(alloc, kind)?;
        self.keep_sources(kind)?;
        self.keep_work(kind)?;
        self.names.push(name)?;
        let name = line_of(alloc, name)?;
        match kind {
            Kind::Lines => {
                let texts = Lines::new(alloc);
                self.source = Some(Source { name, texts });
            }
            _ => {
                let plan = plan_of(alloc, kind)?;
                let custom = self.work_of(kind);
                self.tasks.push(TaskDef {
                    name,
                    plan,
                    custom,
                    from,
                })?;
            }
        }
        Ok(())
    }

    // A line of this form, where no source is open.
    fn settle(&mut self, alloc: Global, form: Form<'a>) -> Result<(), NoMemory>
        requires fits { CanSettle (held (state_of self.old)) (form_seen form) }
        requires lines { HasLineText (form_seen form) }
        requires none { self.old.source ≡ None }
        ensures { OnOk result (state_of self.new ≡ settled (state_of self.old) (form_seen form.entry)) }
    {
        match form {
            Form::Skip | Form::Text(_) => {}
            Form::Cpus(number) => self.cpus = Some(value_of(number) as u32),
            Form::Caches(number) => {
                let Some(cpus) = self.cpus else {
                    unreachable!()
                };
                self.caches = Some(value_of(number).min(cpus as u64) as u32);
            }
            Form::Room(number) => self.room = Some(value_of(number) as u32),
            Form::Task { name, kind } => self.add_task(alloc, name, kind)?,
            Form::End => self.ended = true,
        }
        Ok(())
    }

    // A line of this form.
    fn accept(&mut self, alloc: Global, form: Form<'a>) -> Result<(), NoMemory>
        requires fits { CanSettle (held (state_of self.old)) (form_seen form) }
        requires lines { HasLineText (form_seen form) }
        ensures { OnOk result (state_of self.new ≡ next (state_of self.old) (form_seen form.entry)) }
    {
        match form {
            Form::Skip => Ok(()),
            Form::Text(text) => self.add_text(alloc, text),
            _ => {
                self.close(alloc)?;
                self.settle(alloc, form)
            }
        }
    }

    // One line, with its number.
    #[tactic(auto, unfolding(crate::specs::Reading::step))]
    fn take(&mut self, alloc: Global, number: u64, line: &'a [u8]) -> Result<(), ScriptError>
        requires { IsLine line.now }
        ensures { Gives (λ _. state_of self.new) result (step number (state_of self.old) line.now) }
    {
        if line.len() > LINE_LIMIT {
            return Err(fault_at(number, 1));
        }
        let Some(form) = form_of(line) else {
            return Err(fault_at(number, if self.ended { 12 } else { 2 }));
        };
        if let Some(code) = self.form_code(form) {
            return Err(fault_at(number, code));
        }
        self.accept(alloc, form)?;
        Ok(())
    }

    // The script, behind its last line.
    fn into_script(self) -> Script
        requires { vec_len self.tasks ≤ 200 }
        ensures { IsScriptOf (state_of self.entry) result }
    {
        let tasks = self.tasks.len() as u32;
        let cpus = self.cpus.unwrap_or(1);
        let shape = Shape {
            cpus,
            caches: self.caches.unwrap_or(cpus),
            tasks,
            conds: 2 * tasks,
            agents: 0,
        };
        Script {
            shape,
            room: self.room.unwrap_or(ROOM),
            tasks: Tasks::from_vec(self.tasks),
        }
    }
}

// The refusal of a line by this code.
fn fault_at(line: u64, code: u32) -> ScriptError
    ensures { result ≡ ScriptError.Bad (record { line = line; code = code }) }
{
    ScriptError::Bad(ScriptFault { line, code })
}

// All lines, and how many there are.
fn read_lines<'a>(
    alloc: Global,
    bytes: &'a [u8],
    customs: u32,
) -> Result<(Reader<'a>, u64), ScriptError>
    ensures gives { Gives (λ read. state_of read.0) result (run 1 (start customs) (input_lines bytes.now)) }
    ensures count { IfOk result (λ read. read.1 ≡ length (input_lines bytes.now)) }
    ensures few { IfOk result (λ read. read.1 ≤ length bytes.now) }
{
    let mut reader = Reader::new(alloc, customs);
    let mut rest = bytes;
    let mut number = 0u64;
    while let Some((line, after)) = next_line(rest) {
        number += 1;
        reader.take(alloc, number, line)?;
        rest = after;
    }
    Ok((reader, number))
}

// The bytes that are judged: at most one more than a script may have.
fn judged_part(bytes: &[u8]) -> &[u8]
    ensures value { result.now ≡ take 16777217 bytes.now }
    ensures short { length result.now ≤ 16777217 }
{
    if bytes.len() > SCRIPT_LIMIT {
        &bytes[..SCRIPT_LIMIT + 1]
    } else {
        bytes
    }
}

// The whole input.
#[tactic(auto, unfolding(crate::specs::Reading::verdict))]
fn read_input<'a>(alloc: Global, bytes: &'a [u8], customs: u32) -> Result<Reader<'a>, ScriptError>
    ensures { Gives (λ reader. state_of reader) result (verdict customs bytes.now) }
{
    let (reader, lines) = read_lines(alloc, judged_part(bytes), customs)?;
    if bytes.len() > SCRIPT_LIMIT {
        return Err(fault_at(lines, 16));
    }
    if !reader.ended {
        return Err(fault_at(lines + 1, 11));
    }
    Ok(reader)
}

/// Reads a script, whose caller brings so many works, `customs`, for its tasks of `custom`.
///
/// A script is at most 16,777,216 bytes of lines: `cpus N`, then `caches G` and `room K` where they are wanted, then
/// tasks with the text lines of each source, then `end`. Other bytes are refused with the number of their first faulty
/// line and the lowest code there: 1 the line is too long, 2 it has no form, 3 a number, 4 a name, 5 a name that
/// stands twice, 6 no such task, 7 a task that is read already, 8 too many tasks, 10 the order, 11 no `end`, 12 a line
/// behind `end`, 13 a number that isn't below the number of works or that an earlier task has, 14 a text without its
/// task, 16 the input is too long.
pub fn read_script(alloc: Global, bytes: &[u8], customs: u32) -> Result<Script, ScriptError>
    ensures found { IfOk result (λ s. IsScript customs bytes.now s) }
    ensures only { IfOk result (λ s. (t : Script) → IsScript customs bytes.now t → t ≡ s) }
    ensures forest { IfOk result (λ s. IsForest s.tasks) }
    ensures bad { (f : ScriptFault) → result ≡ Err (ScriptError.Bad f)
        → FirstFault customs bytes.now f.line f.code × NotScript customs bytes.now }
{
    let reader = read_input(alloc, bytes, customs)?;
    Ok(reader.into_script())
}
