ghost use Rattle.std.specs.Prelude.{◌≡◌, ◌∷◌, ◌≤◌, [], IsTrue, IfSome};
ghost use Rattle.std.specs.Option.{option_map};
ghost use Rattle.handoff_data.specs.Line.{IsLine};
ghost use Rattle.task_script.specs.Lines.{words};
ghost use Rattle.task_script.specs.Forms.{number_in, is_within, is_name, is_name_byte, reads, form_of, bare_form};
ghost use Rattle.task_script.specs.Forms.{worded_form, setting_form, reader_form, joining_form, choosing_form};
ghost use Rattle.task_script.specs.Forms.{long_form, kind_of, form_seen, names_in, HasLineText};

use crate::pieces::{next_word, skip_blanks, without_returns};

// How many letters and digits may follow the letter of a name.
const NAME_TAIL_LIMIT: usize = 15;

// How many digits a number has at most.
const DIGITS_LIMIT: usize = 10;

/// The kinds of task, with their words: numbers, prefixes, and the names of the tasks that they read.
#[derive(Clone, Copy)]
pub enum Kind<'a> {
    Lines,
    Count(&'a [u8]),
    Upper(&'a [u8]),
    Number(&'a [u8]),
    Keep(&'a [u8], &'a [u8]),
    Drop(&'a [u8], &'a [u8]),
    Tally(&'a [u8]),
    Pin(&'a [u8], &'a [u8]),
    Custom(&'a [u8], &'a [u8]),
    Cat(&'a [u8], &'a [u8]),
    Weave(&'a [u8], &'a [u8]),
}

/// The names of the tasks that a task reads, by side.
#[derive(Clone, Copy)]
pub enum Inputs<'a> {
    Nothing,
    One(&'a [u8]),
    Two(&'a [u8], &'a [u8]),
}

/// The forms of lines.
#[derive(Clone, Copy)]
pub enum Form<'a> {
    Skip,
    Cpus(&'a [u8]),
    Caches(&'a [u8]),
    Room(&'a [u8]),
    Task { name: &'a [u8], kind: Kind<'a> },
    Text(&'a [u8]),
    End,
}

/// The names of the tasks that a task of this kind reads.
pub fn sources_of<'a>(kind: Kind<'a>) -> Inputs<'a>
    ensures { names_in result ≡ reads (kind_of kind.entry) }
{
    match kind {
        Kind::Lines | Kind::Count(_) => Inputs::Nothing,
        Kind::Upper(source)
        | Kind::Number(source)
        | Kind::Keep(_, source)
        | Kind::Drop(_, source)
        | Kind::Tally(source)
        | Kind::Pin(_, source)
        | Kind::Custom(_, source) => Inputs::One(source),
        Kind::Cat(first, second) | Kind::Weave(first, second) => Inputs::Two(first, second),
    }
}

/// The number that a word is: 1 to 10 decimal digits.
pub fn number_in(word: &[u8]) -> Option<u64>
    ensures { result ≡ number_in word.now }
{
    if word.is_empty() || word.len() > DIGITS_LIMIT {
        return None;
    }
    let mut number = 0u64;
    for byte in word {
        if !byte.is_ascii_digit() {
            return None;
        }
        number = number * 10 + (*byte - b'0') as u64;
    }
    Some(number)
}

/// Whether a word is a number from `low` to `high`.
pub fn is_within(low: u64, high: u64, word: &[u8]) -> bool
    ensures { result ≡ is_within low high word.now }
{
    match number_in(word) {
        Some(number) => low <= number && number <= high,
        None => false,
    }
}

/// Whether these bytes are a name: a letter `a` to `z` and at most 15 letters or digits.
pub fn is_name(bytes: &[u8]) -> bool
    ensures { result ≡ is_name bytes.now }
{
    let Some((first, rest)) = bytes.split_first() else {
        return false;
    };
    first.is_ascii_lowercase()
        && rest.len() <= NAME_TAIL_LIMIT
        && rest.iter().all(|byte| is_name_byte(*byte))
}

// Whether a name may have this byte behind its first.
fn is_name_byte(byte: u8) -> bool
    ensures { result ≡ is_name_byte byte }
{
    byte.is_ascii_lowercase() || byte.is_ascii_digit()
}

/// The form of a line, if it has one.
#[tactic(auto, unfolding(crate::specs::Forms::form_of))]
pub fn form_of<'a>(line: &'a [u8]) -> Option<Form<'a>>
    ensures { option_map form_seen result ≡ form_of line.now }
{
    match skip_blanks(without_returns(line)) {
        [] => Some(Form::Skip),
        [b'#', ..] => Some(Form::Skip),
        [b'|', b' ', text @ ..] => Some(Form::Text(text)),
        [b'|', text @ ..] => Some(Form::Text(text)),
        worded => worded_form(worded),
    }
}

// The form of a line that isn't a text line.
fn worded_form<'a>(line: &'a [u8]) -> Option<Form<'a>>
    ensures { option_map form_seen result ≡ worded_form (words line.now) }
{
    let (word, rest) = next_word(line)?;
    let Some((name, rest)) = next_word(rest) else {
        return if word == b"end".as_slice() {
            Some(Form::End)
        } else {
            None
        };
    };
    let Some((kind, rest)) = next_word(rest) else {
        return setting_form(word, name);
    };
    if word != b"task".as_slice() {
        return None;
    }
    let Some((third, rest)) = next_word(rest) else {
        return if kind == b"lines".as_slice() {
            Some(Form::Task {
                name,
                kind: Kind::Lines,
            })
        } else {
            None
        };
    };
    let Some((fourth, rest)) = next_word(rest) else {
        return if kind == b"count".as_slice() {
            Some(Form::Task {
                name,
                kind: Kind::Count(third),
            })
        } else {
            None
        };
    };
    let Some((fifth, rest)) = next_word(rest) else {
        return if third == b"from".as_slice() {
            reader_form(name, kind, fourth)
        } else {
            None
        };
    };
    match next_word(rest) {
        Some(_) => None,
        None => long_form(name, kind, third, fourth, fifth),
    }
}

// The form of a line that sets a number.
fn setting_form<'a>(word: &'a [u8], number: &'a [u8]) -> Option<Form<'a>>
    ensures { option_map form_seen result ≡ setting_form word.now number.now }
{
    if word == b"cpus".as_slice() {
        Some(Form::Cpus(number))
    } else if word == b"caches".as_slice() {
        Some(Form::Caches(number))
    } else if word == b"room".as_slice() {
        Some(Form::Room(number))
    } else {
        None
    }
}

// The form of a task line that reads one task and has no other word.
fn reader_form<'a>(name: &'a [u8], kind: &'a [u8], source: &'a [u8]) -> Option<Form<'a>>
    ensures { option_map form_seen result ≡ reader_form name.now kind.now source.now }
{
    let kind = if kind == b"upper".as_slice() {
        Kind::Upper(source)
    } else if kind == b"number".as_slice() {
        Kind::Number(source)
    } else if kind == b"tally".as_slice() {
        Kind::Tally(source)
    } else {
        return None;
    };
    Some(Form::Task { name, kind })
}

// The form of a task line of a kind and three words.
fn long_form<'a>(
    name: &'a [u8],
    kind: &'a [u8],
    third: &'a [u8],
    fourth: &'a [u8],
    fifth: &'a [u8],
) -> Option<Form<'a>>
    ensures { option_map form_seen result ≡ long_form name.now kind.now third.now fourth.now fifth.now }
{
    if kind == b"cat".as_slice() || kind == b"weave".as_slice() {
        if third == b"from".as_slice() {
            joining_form(name, kind, fourth, fifth)
        } else {
            None
        }
    } else if fourth == b"from".as_slice() {
        choosing_form(name, kind, third, fifth)
    } else {
        None
    }
}

// The form of a task line that reads two tasks.
fn joining_form<'a>(
    name: &'a [u8],
    kind: &'a [u8],
    first: &'a [u8],
    second: &'a [u8],
) -> Option<Form<'a>>
    ensures { option_map form_seen result ≡ joining_form name.now kind.now first.now second.now }
{
    if kind == b"cat".as_slice() {
        Some(Form::Task {
            name,
            kind: Kind::Cat(first, second),
        })
    } else if kind == b"weave".as_slice() {
        Some(Form::Task {
            name,
            kind: Kind::Weave(first, second),
        })
    } else {
        None
    }
}

// The form of a task line that has a word and reads a task.
fn choosing_form<'a>(
    name: &'a [u8],
    kind: &'a [u8],
    word: &'a [u8],
    source: &'a [u8],
) -> Option<Form<'a>>
    ensures { option_map form_seen result ≡ choosing_form name.now kind.now word.now source.now }
{
    if kind == b"keep".as_slice() {
        Some(Form::Task {
            name,
            kind: Kind::Keep(word, source),
        })
    } else if kind == b"drop".as_slice() {
        Some(Form::Task {
            name,
            kind: Kind::Drop(word, source),
        })
    } else if kind == b"pin".as_slice() {
        Some(Form::Task {
            name,
            kind: Kind::Pin(word, source),
        })
    } else if kind == b"custom".as_slice() {
        Some(Form::Task {
            name,
            kind: Kind::Custom(word, source),
        })
    } else {
        None
    }
}
