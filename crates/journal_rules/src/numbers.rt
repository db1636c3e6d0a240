//! Rule 2: the numbers of entries.

ghost use Rattle.std.specs.Prelude.{◌≡◌, ◌↔◌, IsTrue};
ghost use Rattle.std.specs.Option.{option_map};
ghost use Rattle.handoff_data.specs.Numbers.{identity};
ghost use Rattle.handoff_data.specs.Rules.{NotRepeated};
ghost use Rattle.journal_facts.specs.Facts.{here_on};
ghost use Rattle.journal_rules.specs.Keys.{key_of};
ghost use Rattle.journal_rules.specs.Known.{KnowsFacts};

use handoff_data::{Entry, Journals, SeatNo};
use journal_facts::{Fact, Facts, Kind, is_told_earlier};

/// A fact with no place and no processor.
fn key(kind: Kind, subject: u32, number: u64) -> Fact
    ensures { result ≡ here_on kind 0 0 subject number 0 }
{
    Fact {
        kind,
        subject,
        number,
        cpu: 0,
        seat: 0,
        index: 0,
    }
}

/// The group of the entry with the numbers that no other entry of the group may have, as a fact.
fn identity_key(entry: Entry) -> Option<Fact>
    ensures { result ≡ option_map key_of (identity entry) }
{
    match entry {
        Entry::New { t, m, .. }
        | Entry::Sleep { t, m, .. }
        | Entry::Enq { t, m, .. }
        | Entry::Out { t, m, .. }
        | Entry::In { t, m, .. }
        | Entry::Die { t, m, .. } => Some(key(Kind::Change, t, m)),
        Entry::Pick { t, n, .. } | Entry::Finish { t, n, .. } => Some(key(Kind::Run, t, n)),
        Entry::Wake { t, m } => Some(key(Kind::Wake, t, m)),
        Entry::List { t, m, .. } => Some(key(Kind::Listing, t, m)),
        Entry::Mask { t, r, .. } => Some(key(Kind::Mask, t, r)),
        Entry::Offline { c, e } => Some(key(Kind::Offline, c, e)),
        Entry::Up { c, e } => Some(key(Kind::Up, c, e)),
        Entry::Stood { .. } | Entry::Done { .. } | Entry::Refused { .. } => None,
    }
}

/// Whether no earlier entry is of the same group with the same numbers.
pub fn not_repeated(
    journals: &Journals,
    facts: &Facts,
    seat: SeatNo,
    index: u64,
    entry: Entry,
) -> bool
    requires { KnowsFacts journals.now facts.now }
    ensures { IsTrue result ↔ NotRepeated journals.now seat index entry }
{
    match identity_key(entry) {
        Some(key) => !is_told_earlier(facts, key.kind, key.subject, key.number, seat, index),
        None => true,
    }
}
