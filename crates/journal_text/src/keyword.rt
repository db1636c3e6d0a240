//! The words that lines of journals begin with.

ghost use Rattle.std.specs.Prelude.{◌≡◌};
ghost use Rattle.std.specs.Str.{bytes_eq};
ghost use Rattle.journal_text.specs.Keywords.{keyword_of, change_word_of, run_word_of, cause_word_of, mark_word_of};

/// The word that a line of a journal begins with.
#[derive(Clone, Copy, Debug, PartialEq, Eq)]
pub enum Keyword {
    New,
    Sleep,
    Wake,
    List,
    Enq,
    Out,
    In,
    Die,
    Pick,
    Finish,
    Mask,
    Stood,
    Done,
    Offline,
    Up,
    Refused,
    Seat,
    End,
}

/// The keyword that the word spells, if it spells one.
pub fn find_keyword(word: &[u8]) -> Option<Keyword>
    ensures { result ≡ keyword_of word.now }
{
    match change_word(word) {
        Some(keyword) => Some(keyword),
        None => match run_word(word) {
            Some(keyword) => Some(keyword),
            None => match cause_word(word) {
                Some(keyword) => Some(keyword),
                None => mark_word(word),
            },
        },
    }
}

fn is(word: &[u8], spelling: &str) -> bool
    ensures { result ≡ bytes_eq word.now spelling.now }
{
    word == spelling.as_bytes()
}

#[tactic(auto, unfolding(crate::specs::Keywords::change_word_of))]
fn change_word(word: &[u8]) -> Option<Keyword>
    ensures { result ≡ change_word_of word.now }
{
    if is(word, "new") {
        Some(Keyword::New)
    } else if is(word, "sleep") {
        Some(Keyword::Sleep)
    } else if is(word, "out") {
        Some(Keyword::Out)
    } else if is(word, "in") {
        Some(Keyword::In)
    } else if is(word, "die") {
        Some(Keyword::Die)
    } else {
        None
    }
}

#[tactic(auto, unfolding(crate::specs::Keywords::run_word_of))]
fn run_word(word: &[u8]) -> Option<Keyword>
    ensures { result ≡ run_word_of word.now }
{
    if is(word, "pick") {
        Some(Keyword::Pick)
    } else if is(word, "finish") {
        Some(Keyword::Finish)
    } else if is(word, "enq") {
        Some(Keyword::Enq)
    } else {
        None
    }
}

#[tactic(auto, unfolding(crate::specs::Keywords::cause_word_of))]
fn cause_word(word: &[u8]) -> Option<Keyword>
    ensures { result ≡ cause_word_of word.now }
{
    if is(word, "wake") {
        Some(Keyword::Wake)
    } else if is(word, "list") {
        Some(Keyword::List)
    } else if is(word, "mask") {
        Some(Keyword::Mask)
    } else if is(word, "stood") {
        Some(Keyword::Stood)
    } else if is(word, "done") {
        Some(Keyword::Done)
    } else {
        None
    }
}

#[tactic(auto, unfolding(crate::specs::Keywords::mark_word_of))]
fn mark_word(word: &[u8]) -> Option<Keyword>
    ensures { result ≡ mark_word_of word.now }
{
    if is(word, "offline") {
        Some(Keyword::Offline)
    } else if is(word, "up") {
        Some(Keyword::Up)
    } else if is(word, "refused") {
        Some(Keyword::Refused)
    } else if is(word, "seat") {
        Some(Keyword::Seat)
    } else if is(word, "end") {
        Some(Keyword::End)
    } else {
        None
    }
}
