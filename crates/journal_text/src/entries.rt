//! Entries, as lines say them.

ghost use Rattle.std.specs.Prelude.{◌≡◌, ◌<◌, IfSome};
ghost use Rattle.journal_text.specs.Entries.{cpu_of, listed_mask_of, mask_of, by_list_of, at_of, list_of, enq_of};
ghost use Rattle.journal_text.specs.Entries.{set_mask_of, stood_of, refused_of, entry_after};

use crate::fields::{field, find_byte, long_number, number, only, short_number, three, two};
use crate::keyword::Keyword;
use handoff_data::{CpuMask, CpuNo, Entry, State};

/// The processor whose number the word is.
#[tactic(auto, unfolding(crate::specs::Entries::cpu_of))]
fn cpu(word: &[u8]) -> Option<CpuNo>
    ensures value { result ≡ cpu_of word.now }
    ensures small { IfSome result (λ c. c < 16) }
{
    let c = number(word)?;
    if c >= 16 {
        return None;
    }
    Some(c as u32)
}

/// The mask that numbers parted by commas spell, in any order.
fn listed_mask(word: &[u8]) -> Option<CpuMask>
    ensures { result ≡ listed_mask_of word.now }
{
    let mut mask = CpuMask::none();
    let mut rest = word;
    'words: loop {
        let (first, others) = rest.split_at(find_byte(rest, b','));
        let Some(c) = cpu(first) else {
            return None;
        };
        mask = mask.with(c);
        let Some((_comma, more)) = others.split_first() else {
            return Some(mask);
        };
        rest = more;
    }
}

/// The mask that the word spells: a dash, or numbers parted by commas.
#[tactic(auto, unfolding(crate::specs::Entries::mask_of))]
fn mask(word: &[u8]) -> Option<CpuMask>
    ensures { result ≡ mask_of word.now }
{
    if word == b"-".as_slice() {
        return Some(CpuMask::none());
    }
    listed_mask(word)
}

#[tactic(auto, unfolding(crate::specs::Entries::by_list_of))]
fn by_list(word: &[u8]) -> Option<bool>
    ensures { result ≡ by_list_of word.now }
{
    if word == b"direct".as_slice() {
        Some(false)
    } else if word == b"list".as_slice() {
        Some(true)
    } else {
        None
    }
}

/// Where a task stood: a dash, or the number of a processor.
#[tactic(auto, unfolding(crate::specs::Entries::at_of))]
fn stood_at(word: &[u8]) -> Option<Option<CpuNo>>
    ensures { result ≡ at_of word.now }
{
    if word == b"-".as_slice() {
        return Some(None);
    }
    let c = number(word)?;
    if c > u64::from(u32::MAX) {
        return None;
    }
    Some(Some(c as u32))
}

#[tactic(auto, unfolding(crate::specs::Entries::list_of))]
fn listing(bytes: &[u8]) -> Option<Entry>
    ensures { result ≡ list_of bytes.now }
{
    let (t, rest) = short_number(bytes)?;
    let (m, rest) = long_number(rest)?;
    let (c, rest) = short_number(rest)?;
    let (e, rest) = long_number(rest)?;
    only(Entry::List { t, m, c, e }, rest)
}

#[tactic(auto, unfolding(crate::specs::Entries::enq_of))]
fn enq(bytes: &[u8]) -> Option<Entry>
    ensures { result ≡ enq_of bytes.now }
{
    let (t, rest) = short_number(bytes)?;
    let (m, rest) = long_number(rest)?;
    let (c, rest) = short_number(rest)?;
    let (word, rest) = field(rest)?;
    let by_list = by_list(word)?;
    only(Entry::Enq { t, m, c, by_list }, rest)
}

#[tactic(auto, unfolding(crate::specs::Entries::set_mask_of))]
fn set_mask(bytes: &[u8]) -> Option<Entry>
    ensures { result ≡ set_mask_of bytes.now }
{
    let (t, rest) = short_number(bytes)?;
    let (r, rest) = long_number(rest)?;
    let (word, rest) = field(rest)?;
    let mask = mask(word)?;
    only(Entry::Mask { t, r, mask }, rest)
}

#[tactic(auto, unfolding(crate::specs::Entries::stood_of))]
fn stood(bytes: &[u8]) -> Option<Entry>
    ensures { result ≡ stood_of bytes.now }
{
    let (t, rest) = short_number(bytes)?;
    let (r, rest) = long_number(rest)?;
    let (m, rest) = long_number(rest)?;
    let (word, rest) = field(rest)?;
    let at = stood_at(word)?;
    only(Entry::Stood { t, r, m, at }, rest)
}

#[tactic(auto, unfolding(crate::specs::Entries::refused_of))]
fn refused(bytes: &[u8]) -> Option<Entry>
    ensures { result ≡ refused_of bytes.now }
{
    let (t, state) = two(bytes)?;
    if state > u64::from(u16::MAX) {
        return None;
    }
    Some(Entry::Refused {
        t,
        state: State(state as u16),
    })
}

/// The entry of a line, by its keyword and what stands behind it.
#[tactic(auto, unfolding(crate::specs::Entries::entry_after))]
pub fn entry_behind(keyword: Keyword, rest: &[u8]) -> Option<Entry>
    ensures { result ≡ entry_after keyword rest.now }
{
    match keyword {
        Keyword::New => three(rest).map(|(t, m, c)| Entry::New { t, m, c }),
        Keyword::Sleep => three(rest).map(|(t, m, c)| Entry::Sleep { t, m, c }),
        Keyword::Wake => two(rest).map(|(t, m)| Entry::Wake { t, m }),
        Keyword::List => listing(rest),
        Keyword::Enq => enq(rest),
        Keyword::Out => three(rest).map(|(t, m, c)| Entry::Out { t, m, c }),
        Keyword::In => three(rest).map(|(t, m, c)| Entry::In { t, m, c }),
        Keyword::Die => three(rest).map(|(t, m, c)| Entry::Die { t, m, c }),
        Keyword::Pick => three(rest).map(|(t, n, c)| Entry::Pick { t, n, c }),
        Keyword::Finish => three(rest).map(|(t, n, c)| Entry::Finish { t, n, c }),
        Keyword::Mask => set_mask(rest),
        Keyword::Stood => stood(rest),
        Keyword::Done => two(rest).map(|(t, r)| Entry::Done { t, r }),
        Keyword::Offline => two(rest).map(|(c, e)| Entry::Offline { c, e }),
        Keyword::Up => two(rest).map(|(c, e)| Entry::Up { c, e }),
        Keyword::Refused => refused(rest),
        Keyword::Seat | Keyword::End => None,
    }
}
