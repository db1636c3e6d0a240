//! Rule 9: departures and returns of processors.

ghost use Rattle.std.specs.Prelude.{◌≡◌, ◌+◌, ◌<◌, ◌↔◌, ℕ, true, IsTrue, Contains};
ghost use Rattle.handoff_data.specs.declared.entry.Entry.{Entry as Told};
ghost use Rattle.handoff_data.specs.declared.entry.Entry.TheVariants as entry;
ghost use Rattle.handoff_data.specs.History.{History};
ghost use Rattle.handoff_data.specs.Positions.{Stands, IsBefore};
ghost use Rattle.handoff_data.specs.Rules.{InRange, OutageLeavesNone, IsOffline};
ghost use Rattle.journal_facts.specs.declared.fact.Fact.{Fact as Due};
ghost use Rattle.journal_rules.specs.Known.{KnowsFacts};
ghost use Rattle.journal_rules.specs.Turns.{IsTurnBefore, MayGo, MayReturn, IsGone, IsTakenBefore, TakesAllOf};
ghost use Rattle.journal_rules.specs.Turns.{KeptSoFar};

use handoff_data::{CpuNo, Entry, Journals, SeatNo, TaskNo};
use journal_facts::{Fact, Facts, Kind, facts_on, is_told_before, last_index};

/// The entry that stands at this position.
fn standing(journals: &Journals, seat: SeatNo, index: u64) -> Entry
    requires { (e : Told) × Stands journals.now seat index e }
    ensures { Stands journals.now seat index result }
{
    journals.seats[seat as usize].as_slice()[index as usize]
}

/// The last Offline or Up before the index in this journal.
fn last_turn(journals: &Journals, facts: &Facts, seat: SeatNo, index: u64) -> Option<Entry>
    requires { KnowsFacts journals.now facts.now }
    ensures { IsTurnBefore journals.now seat index result }
{
    match last_index(facts, Kind::TurnIn, 0, seat, index) {
        Some(last) => Some(standing(journals, seat, last)),
        None => None,
    }
}

/// Whether a processor may go offline in this epoch after this turn.
fn may_go(turn: Option<Entry>, e: u64) -> bool
    ensures { IsTrue result ↔ MayGo turn e }
{
    match turn {
        None => e == 0,
        Some(Entry::Up { e: last, .. }) => e == last,
        Some(_) => false,
    }
}

/// Whether a processor may come back in this epoch after this turn.
fn may_return(turn: Option<Entry>, e: u64) -> bool
    ensures { IsTrue result ↔ MayReturn turn e }
{
    match turn {
        Some(Entry::Offline { e: last, .. }) => e > 0 && e - 1 == last,
        _ => false,
    }
}

/// Whether a processor is offline after this turn.
fn is_gone(turn: Option<Entry>) -> bool
    ensures { IsTrue result ↔ IsGone turn }
{
    matches!(turn, Some(Entry::Offline { .. }))
}

/// Whether the task was queued by list on the processor before the index, by the change after `m`.
fn is_queued_after(facts: &Facts, t: TaskNo, m: u64, c: CpuNo, seat: SeatNo, index: u64) -> bool
    ensures { (j : History) → KnowsFacts j facts.now → IsTrue result
        ↔ IsBefore j seat index (entry.Enq t (m + 1) c true) }
{
    is_told_before(facts, Kind::Taken, t, m, c, seat, index)
}

/// Whether the entry is no listing, or was queued by list before the index, in the journal of this seat.
fn is_taken(facts: &Facts, listing: Entry, seat: SeatNo, index: u64) -> bool
    ensures { (j : History) → KnowsFacts j facts.now → IsTrue result ↔ IsTakenBefore j seat index listing }
{
    match listing {
        Entry::List { t, m, c, .. } => is_queued_after(facts, t, m, c, seat, index),
        _ => true,
    }
}

/// Whether the entry at the place of this fact is no listing, or was queued so.
fn is_done(journals: &Journals, facts: &Facts, due: Fact, seat: SeatNo, index: u64) -> bool
    requires facts { KnowsFacts journals.now facts.now }
    requires stands { (e : Told) × Stands journals.now due.seat due.index e }
    ensures { IsTrue result ↔ ((e : Told) → Stands journals.now due.seat due.index e
        → IsTakenBefore journals.now seat index e) }
{
    is_taken(facts, standing(journals, due.seat, due.index), seat, index)
}

/// Whether the entries at the places of these facts were queued so.
fn are_done(journals: &Journals, facts: &Facts, dues: &[Fact], seat: SeatNo, index: u64) -> bool
    requires facts { KnowsFacts journals.now facts.now }
    requires stand { (f : Due) → Contains dues.now f → (e : Told) × Stands journals.now f.seat f.index e }
    ensures { IsTrue result ↔ ((f : Due) (e : Told) → Contains dues.now f → Stands journals.now f.seat f.index e
        → IsTakenBefore journals.now seat index e) }
{
    for due in dues {
        if !is_done(journals, facts, *due, seat, index) {
            return false;
        }
    }
    true
}

/// Whether all that was listed to the processor in this epoch was queued before the index.
fn takes_all_due(
    journals: &Journals,
    facts: &Facts,
    seat: SeatNo,
    index: u64,
    c: CpuNo,
    e: u64,
) -> bool
    requires { KnowsFacts journals.now facts.now }
    ensures { IsTrue result ↔ TakesAllOf journals.now seat index c e }
{
    are_done(
        journals,
        facts,
        facts_on(facts, Kind::Due, c, e, 0),
        seat,
        index,
    )
}

/// Whether the processor may go offline here. What was listed to it in earlier epochs was queued before it went
/// offline then.
fn may_leave(journals: &Journals, facts: &Facts, seat: SeatNo, index: u64, c: CpuNo, e: u64) -> bool
    requires facts { KnowsFacts journals.now facts.now }
    requires earlier { KeptSoFar journals.now seat index }
    requires own { c ≡ seat }
    ensures { IsTrue result ↔ OutageLeavesNone journals.now seat index (entry.Offline c e) }
{
    if !may_go(last_turn(journals, facts, seat, index), e) {
        return false;
    }
    takes_all_due(journals, facts, seat, index, c, e)
}

/// Whether the processor may come back here.
fn may_come(journals: &Journals, facts: &Facts, seat: SeatNo, index: u64, c: CpuNo, e: u64) -> bool
    requires { KnowsFacts journals.now facts.now }
    ensures { IsTrue result ↔ OutageLeavesNone journals.now seat index (entry.Up c e) }
{
    may_return(last_turn(journals, facts, seat, index), e)
}

/// Whether the processor is another one than this seat's, or isn't offline here.
fn may_act(journals: &Journals, facts: &Facts, seat: SeatNo, index: u64, c: CpuNo) -> bool
    requires { KnowsFacts journals.now facts.now }
    ensures { IsTrue result ↔ (c ≡ seat → IsOffline journals.now seat index → ⊥) }
{
    if c != seat {
        return true;
    }
    !is_gone(last_turn(journals, facts, seat, index))
}

/// Whether departures and returns take turns, with their epochs; all that was listed to a processor was queued
/// before it goes offline; and while it is offline it picks nothing and queues nothing to itself.
pub fn outage_leaves_none(
    journals: &Journals,
    facts: &Facts,
    seat: SeatNo,
    index: u64,
    entry: Entry,
) -> bool
    requires facts { KnowsFacts journals.now facts.now }
    requires in_range { InRange journals.now seat index entry }
    requires earlier { KeptSoFar journals.now seat index }
    ensures { IsTrue result ↔ OutageLeavesNone journals.now seat index entry }
{
    match entry {
        Entry::Offline { c, e } => may_leave(journals, facts, seat, index, c, e),
        Entry::Up { c, e } => may_come(journals, facts, seat, index, c, e),
        Entry::Pick { c, .. } => may_act(journals, facts, seat, index, c),
        Entry::Enq { c, .. } => may_act(journals, facts, seat, index, c),
        Entry::In { c, .. } => may_act(journals, facts, seat, index, c),
        _ => true,
    }
}
