//! Writing entries and journals.

ghost use Rattle.std.specs.Prelude.{◌≡◌, ◌+◌, ◌++◌, ◌∷◌, [], map, length, drop, IfOk, OnOk, MatchOption, string_bytes};
ghost use Rattle.std.specs.List.{flat_map};
ghost use Rattle.handoff_data.specs.Line.{IsLine};
ghost use Rattle.journal_text.specs.Spelling.{field, fields, behind_comma, members, mask_text, entry_line, seat_lines};
ghost use Rattle.journal_text.specs.Spelling.{first_lines, spelling};

use handoff_data::{CpuMask, CpuNo, Entry, Journal, Journals, Line, Lines, NoMemory};
use std::alloc::Global;
use std::fmt::Write;

const CPUS: [CpuNo; 16] = [0, 1, 2, 3, 4, 5, 6, 7, 8, 9, 10, 11, 12, 13, 14, 15];

/// The keyword, and the numbers behind it.
fn numbers(alloc: Global, keyword: &str, ns: &[u64]) -> Result<String, NoMemory>
    requires { IsLine keyword.now }
    ensures text { IfOk result (λ text. string_bytes text ≡ keyword.now ++ fields ns.now) }
    ensures line { IfOk result (λ text. IsLine (string_bytes text)) }
{
    let mut text = String::from_str(alloc, keyword)?;
    for n in ns {
        write!(text, " {n}")?;
    }
    Ok(text)
}

/// The text with more behind it.
fn with_tail(mut text: String, tail: &str) -> Result<String, NoMemory>
    requires text { IsLine (string_bytes text) }
    requires tail { IsLine tail.now }
    ensures text { IfOk result (λ whole. string_bytes whole ≡ string_bytes text ++ tail.now) }
    ensures line { IfOk result (λ whole. IsLine (string_bytes whole)) }
{
    text.push_str(tail)?;
    Ok(text)
}

/// The processors of a mask, ascending.
fn members_of(alloc: Global, mask: CpuMask) -> Result<Vec<CpuNo>, NoMemory>
    ensures { IfOk result (λ cpus. cpus.items ≡ members mask) }
{
    let cpus = CPUS
        .iter()
        .copied()
        .filter(|c| mask.contains(*c))
        .collect(alloc)?;
    Ok(cpus)
}

/// The processors of a mask, parted by commas, or a dash.
#[tactic(auto, unfolding(crate::specs::Spelling::mask_text))]
fn mask_word(alloc: Global, mask: CpuMask) -> Result<String, NoMemory>
    ensures text { IfOk result (λ text. string_bytes text ≡ 32 ∷ mask_text mask) }
    ensures line { IfOk result (λ text. IsLine (string_bytes text)) }
{
    let cpus = members_of(alloc, mask)?;
    match cpus.split_first() {
        None => Ok(String::from_str(alloc, " -")?),
        Some((first, others)) => joined(alloc, *first, others),
    }
}

/// A space, and the numbers behind it, parted by commas.
fn joined(alloc: Global, first: CpuNo, others: &[CpuNo]) -> Result<String, NoMemory>
    ensures text { IfOk result (λ text. string_bytes text ≡ field first ++ flat_map behind_comma others.now) }
    ensures line { IfOk result (λ text. IsLine (string_bytes text)) }
{
    let mut text = numbers(alloc, "", &[u64::from(first)])?;
    for c in others {
        write!(text, ",{c}")?;
    }
    Ok(text)
}

/// The text of an entry's line.
#[tactic(auto, unfolding(crate::specs::Spelling::entry_line))]
fn entry_text(alloc: Global, entry: Entry) -> Result<String, NoMemory>
    ensures text { IfOk result (λ text. string_bytes text ≡ entry_line entry) }
    ensures line { IfOk result (λ text. IsLine (string_bytes text)) }
{
    match entry {
        Entry::New { t, m, c } => three(alloc, "new", t, m, c),
        Entry::Sleep { t, m, c } => three(alloc, "sleep", t, m, c),
        Entry::Wake { t, m } => two(alloc, "wake", t, m),
        Entry::List { t, m, c, e } => numbers(alloc, "list", &[u64::from(t), m, u64::from(c), e]),
        Entry::Enq { t, m, c, by_list } => {
            let text = three(alloc, "enq", t, m, c)?;
            with_tail(text, if by_list { " list" } else { " direct" })
        }
        Entry::Out { t, m, c } => three(alloc, "out", t, m, c),
        Entry::In { t, m, c } => three(alloc, "in", t, m, c),
        Entry::Die { t, m, c } => three(alloc, "die", t, m, c),
        Entry::Pick { t, n, c } => three(alloc, "pick", t, n, c),
        Entry::Finish { t, n, c } => three(alloc, "finish", t, n, c),
        Entry::Mask { t, r, mask } => {
            let text = two(alloc, "mask", t, r)?;
            with_tail(text, mask_word(alloc, mask)?.as_str())
        }
        Entry::Stood { t, r, m, at } => {
            let text = numbers(alloc, "stood", &[u64::from(t), r, m])?;
            match at {
                None => with_tail(text, " -"),
                Some(c) => with_tail(text, numbers(alloc, "", &[u64::from(c)])?.as_str()),
            }
        }
        Entry::Done { t, r } => two(alloc, "done", t, r),
        Entry::Offline { c, e } => two(alloc, "offline", c, e),
        Entry::Up { c, e } => two(alloc, "up", c, e),
        Entry::Refused { t, state } => two(alloc, "refused", t, u64::from(state.0)),
    }
}

fn two(alloc: Global, keyword: &str, t: u32, m: u64) -> Result<String, NoMemory>
    requires { IsLine keyword.now }
    ensures text { IfOk result (λ text. string_bytes text ≡ keyword.now ++ fields (t ∷ m ∷ [])) }
    ensures line { IfOk result (λ text. IsLine (string_bytes text)) }
{
    numbers(alloc, keyword, &[u64::from(t), m])
}

fn three(alloc: Global, keyword: &str, t: u32, m: u64, c: u32) -> Result<String, NoMemory>
    requires { IsLine keyword.now }
    ensures text { IfOk result (λ text. string_bytes text ≡ keyword.now ++ fields (t ∷ m ∷ c ∷ [])) }
    ensures line { IfOk result (λ text. IsLine (string_bytes text)) }
{
    numbers(alloc, keyword, &[u64::from(t), m, u64::from(c)])
}

/// The line of this text, for which no memory is taken.
fn line(text: String) -> Line
    requires { IsLine (string_bytes text) }
    ensures { result ≡ string_bytes text }
{
    Line::new(text.into_bytes())
}

/// Adds a line of a keyword and a number.
fn push_number(alloc: Global, lines: &mut Lines, keyword: &str, n: u64) -> Result<(), NoMemory>
    requires { IsLine keyword.now }
    ensures { OnOk result (lines.new ≡ lines.old ++ (keyword.now ++ fields (n ∷ [])) ∷ []) }
{
    lines.push(line(numbers(alloc, keyword, &[n])?))
}

/// Adds the lines of these entries.
fn push_entries(alloc: Global, lines: &mut Lines, entries: &[Entry]) -> Result<(), NoMemory>
    ensures { OnOk result (lines.new ≡ lines.old ++ map entry_line entries.now) }
{
    for entry in entries {
        lines.push(line(entry_text(alloc, *entry)?))?;
    }
    Ok(())
}

/// Adds the lines of the journals of all seats.
fn push_seats(alloc: Global, lines: &mut Lines, seats: &[Journal]) -> Result<(), NoMemory>
    ensures { OnOk result (lines.new ≡ lines.old ++ seat_lines 0 seats.now) }
{
    for (i, journal) in seats.iter().enumerate() {
        push_number(alloc, lines, "seat", i as u64)?;
        push_entries(alloc, lines, journal.as_slice())?;
    }
    Ok(())
}

/// The lines of the journals' text, without line feeds. Answers `NoMemory` where memory runs out.
pub fn write_journal(alloc: Global, journals: &Journals) -> Result<Lines, NoMemory>
    ensures { IfOk result (λ lines. lines ≡ spelling journals.now) }
{
    let mut lines = Lines::new(alloc);
    lines.push(line(String::from_str(alloc, "journal 1")?))?;
    push_number(alloc, &mut lines, "cpus", u64::from(journals.cpus))?;
    push_number(alloc, &mut lines, "tasks", u64::from(journals.tasks))?;
    push_number(alloc, &mut lines, "seats", journals.seats.len() as u64)?;
    push_seats(alloc, &mut lines, journals.seats.as_slice())?;
    lines.push(line(String::from_str(alloc, "end")?))?;
    Ok(lines)
}
