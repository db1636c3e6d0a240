ghost use Rattle.std.specs.Prelude.{◌≡◌, ◌<◌, ◌^◌, ◌++◌, length, IfOk, OnOk, Contains, ◌↔◌, IsPermutation};
ghost use Rattle.std.specs.Option.{option_to_list};
ghost use Rattle.journal_facts.specs.declared.fact.Fact.{Fact};
ghost use Rattle.journal_facts.specs.Facts.{IsTold, fact_at, told_of, told_by, told_in, told_from};

use crate::fact::{Fact, Kind};
use crate::facts::Facts;
use handoff_data::{Entry, Journal, NoMemory, SeatNo};
use std::alloc::Global;

/// A fact about a place, with a processor or 0.
fn about(kind: Kind, seat: SeatNo, index: u64, subject: u32, number: u64, cpu: u32) -> Fact
    ensures { result ≡ record {
      kind = kind;
      subject = subject;
      number = number;
      cpu = cpu;
      seat = seat;
      index = index;
    } }
{
    Fact {
        kind,
        subject,
        number,
        cpu,
        seat,
        index,
    }
}

/// What the entry at this place tells of this kind, if anything.
pub fn fact_of(kind: Kind, seat: SeatNo, index: u64, entry: Entry) -> Option<Fact>
    ensures { result ≡ fact_at kind seat index entry }
{
    match (kind, entry) {
        (
            Kind::Change,
            Entry::New { t, m, .. }
            | Entry::Sleep { t, m, .. }
            | Entry::Enq { t, m, .. }
            | Entry::Out { t, m, .. }
            | Entry::In { t, m, .. }
            | Entry::Die { t, m, .. },
        ) => Some(about(kind, seat, index, t, m, 0)),
        (Kind::Run, Entry::Pick { t, n, .. } | Entry::Finish { t, n, .. }) => Some(about(
            kind, seat, index, t, n, 0,
        )),
        (Kind::Wake, Entry::Wake { t, m }) => Some(about(kind, seat, index, t, m, 0)),
        (Kind::Listing, Entry::List { t, m, .. }) => Some(about(kind, seat, index, t, m, 0)),
        (Kind::Mask, Entry::Mask { t, r, .. }) => Some(about(kind, seat, index, t, r, 0)),
        (Kind::Offline, Entry::Offline { c, e }) => Some(about(kind, seat, index, c, e, 0)),
        (Kind::Up, Entry::Up { c, e }) => Some(about(kind, seat, index, c, e, 0)),
        (
            Kind::Queued,
            Entry::New { t, m, c } | Entry::In { t, m, c } | Entry::Enq { t, m, c, .. },
        ) => { Some(about(kind, 0, 0, t, m, c)) }
        (Kind::Slept, Entry::Sleep { t, m, c }) => Some(about(kind, 0, 0, t, m, c)),
        (Kind::Left, Entry::Out { t, m, .. }) => Some(about(kind, seat, 0, t, m, 0)),
        (Kind::Died, Entry::Die { t, m, c }) => Some(about(kind, 0, 0, t, m, c)),
        (Kind::ListedTo, Entry::List { t, m, c, .. }) => Some(about(kind, seat, index, t, m, c)),
        (
            Kind::Taken,
            Entry::Enq {
                t,
                m,
                c,
                by_list: true,
            },
        ) if m > 0 => Some(about(kind, seat, index, t, m - 1, c)),
        (Kind::Picked, Entry::Pick { t, n, c }) => Some(about(kind, seat, index, t, n, c)),
        (Kind::Finished, Entry::Finish { t, n, .. }) => Some(about(kind, 0, 0, t, n, 0)),
        (Kind::Stood, Entry::Stood { t, r, .. }) => Some(about(kind, 0, 0, t, r, 0)),
        (
            Kind::ChangeIn,
            Entry::New { t, .. }
            | Entry::Sleep { t, .. }
            | Entry::Enq { t, .. }
            | Entry::Out { t, .. }
            | Entry::In { t, .. }
            | Entry::Die { t, .. },
        ) => Some(about(kind, seat, index, t, 0, 0)),
        (Kind::RunIn, Entry::Pick { t, .. } | Entry::Finish { t, .. }) => Some(about(
            kind, seat, index, t, 0, 0,
        )),
        (Kind::TurnIn, Entry::Offline { .. } | Entry::Up { .. }) => Some(about(
            kind, seat, index, 0, 0, 0,
        )),
        (Kind::Due, Entry::List { c, e, .. }) => Some(about(kind, seat, index, c, e, 0)),
        _ => None,
    }
}

const KINDS: [Kind; 20] = [
    Kind::Change,
    Kind::Run,
    Kind::Wake,
    Kind::Listing,
    Kind::Mask,
    Kind::Offline,
    Kind::Up,
    Kind::Queued,
    Kind::Slept,
    Kind::Left,
    Kind::Died,
    Kind::ListedTo,
    Kind::Taken,
    Kind::Picked,
    Kind::Finished,
    Kind::Stood,
    Kind::ChangeIn,
    Kind::RunIn,
    Kind::TurnIn,
    Kind::Due,
];

/// Adds a fact, if one is told.
fn push_told(facts: &mut Vec<Fact>, told: Option<Fact>) -> Result<(), NoMemory>
    ensures { OnOk result (facts.new.items ≡ facts.old.items ++ option_to_list told) }
{
    if let Some(fact) = told {
        facts.push(fact)?;
    }
    Ok(())
}

/// Adds what the entry at this place tells of these kinds.
fn push_kinds(
    facts: &mut Vec<Fact>,
    kinds: &[Kind],
    seat: SeatNo,
    index: u64,
    entry: Entry,
) -> Result<(), NoMemory>
    ensures { OnOk result (facts.new.items ≡ facts.old.items ++ told_of kinds.now seat index entry) }
{
    for kind in kinds {
        push_told(facts, fact_of(*kind, seat, index, entry))?;
    }
    Ok(())
}

/// Adds what the entry at this place tells.
#[tactic(auto, unfolding(crate::specs::Facts::told_by))]
fn push_entry(facts: &mut Vec<Fact>, seat: SeatNo, index: u64, entry: Entry) -> Result<(), NoMemory>
    ensures { OnOk result (facts.new.items ≡ facts.old.items ++ told_by seat index entry) }
{
    push_kinds(facts, &KINDS, seat, index, entry)
}

/// Adds what the entries of this seat's journal tell.
fn push_journal(facts: &mut Vec<Fact>, seat: SeatNo, entries: &[Entry]) -> Result<(), NoMemory>
    ensures { OnOk result (facts.new.items ≡ facts.old.items ++ told_in seat 0 entries.now) }
{
    for (i, entry) in entries.iter().enumerate() {
        push_entry(facts, seat, i as u64, *entry)?;
    }
    Ok(())
}

/// What the journals of all seats tell, in order. Answers `NoMemory` where memory runs out.
pub fn facts_of(alloc: Global, seats: &[Journal]) -> Result<Facts, NoMemory>
    requires { length seats.now < 2 ^ 32 }
    ensures told { IfOk result (λ facts. (f : Fact) → Contains facts f ↔ IsTold seats.now f) }
    ensures each { IfOk result (λ facts. IsPermutation (told_from 0 seats.now) facts) }
{
    let mut facts = Vec::new(alloc);
    for (i, journal) in seats.iter().enumerate() {
        push_journal(&mut facts, i as u32, journal.as_slice())?;
    }
    Ok(Facts::sorted(facts))
}
