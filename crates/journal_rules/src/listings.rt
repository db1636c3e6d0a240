//! Rule 8: what one waker listed is queued in the order in which it was listed.

ghost use Rattle.std.specs.Prelude.{◌≡◌, ◌+◌, ◌<◌, ◌⊎◌, ◌↔◌, ℕ, Option, Some, None, true, length, replicate, IfOk};
ghost use Rattle.std.specs.Prelude.{IsTrue, Contains};
ghost use Rattle.handoff_data.specs.declared.entry.Entry.TheVariants as entry;
ghost use Rattle.handoff_data.specs.History.{History};
ghost use Rattle.handoff_data.specs.Positions.{Stands};
ghost use Rattle.handoff_data.specs.Rules.{ListedInOrder, IsListing};
ghost use Rattle.journal_facts.specs.declared.fact.Fact.{Fact as Told};
ghost use Rattle.journal_rules.specs.Known.{KnowsFacts};
ghost use Rattle.journal_rules.specs.Marks.{IsMarkOf, IsPassed, IsTakenFrom, IsPlaceOf, IsRaised, AreMarks, AreMarksOf};
ghost use Rattle.journal_rules.specs.Marks.{EndsAt};

use crate::marks::Mark;
use handoff_data::{CpuNo, Entry, Journals, NoMemory, SeatNo, TaskNo};
use journal_facts::{Fact, Facts, Kind, facts_on};
use std::alloc::Global;

/// The listings that a queueing by list as change `m` ends.
fn ended_by_list(facts: &Facts, t: TaskNo, m: u64, c: CpuNo) -> &[Fact]
    ensures { (j : History) (waker k : ℕ) → KnowsFacts j facts.now → IsPlaceOf result.now waker k
        ↔ IsListing j waker k t m c }
{
    if m == 0 {
        return &[];
    }
    facts_on(facts, Kind::ListedTo, t, m - 1, c)
}

/// The listings that a queueing as change `m` ends, none if it is not by list.
fn ended_by_queueing(facts: &Facts, t: TaskNo, m: u64, c: CpuNo, by_list: bool) -> &[Fact]
    ensures { (j : History) (waker k : ℕ) → KnowsFacts j facts.now → IsPlaceOf result.now waker k
        ↔ EndsAt j (entry.Enq t m c by_list) waker k }
{
    if by_list {
        ended_by_list(facts, t, m, c)
    } else {
        &[]
    }
}

/// The listings that the entry ends, none if it is no queueing by list.
fn ended(facts: &Facts, entry: Entry) -> &[Fact]
    ensures { (j : History) (waker k : ℕ) → KnowsFacts j facts.now → IsPlaceOf result.now waker k
        ↔ EndsAt j entry waker k }
{
    match entry {
        Entry::Enq { t, m, c, by_list } => ended_by_queueing(facts, t, m, c, by_list),
        _ => &[],
    }
}

/// Whether the mark is this seat's, and behind the index.
fn is_behind(mark: Mark, seat: SeatNo, index: u64) -> bool
    ensures { IsTrue result ↔ ((mark.seat ≡ seat) × (index < mark.index)) }
{
    mark.seat == seat && mark.index > index
}

/// Whether the mark is of a listing that stands behind this one, in the journal of this seat.
fn passes(mark: Option<Mark>, seat: SeatNo, index: u64) -> bool
    ensures { (j : History) (here waker : ℕ) → IsMarkOf (IsTakenFrom j seat here waker) seat mark → IsTrue result
        ↔ IsPassed j seat here waker index }
{
    match mark {
        Some(last) => is_behind(last, seat, index),
        None => false,
    }
}

/// Whether no mark is of a listing behind one of these.
fn none_passed(listings: &[Fact], marks: &[Option<Mark>], seat: SeatNo) -> bool
    requires { (f : Told) → Contains listings.now f → f.seat < length marks.now }
    ensures { (j : History) (here : ℕ) → AreMarks j seat here marks.now → IsTrue result
        ↔ ((f : Told) → Contains listings.now f → ¬ IsPassed j seat here f.seat f.index) }
{
    for listing in listings {
        if passes(marks[listing.seat as usize], seat, listing.index) {
            return false;
        }
    }
    true
}

/// Whether no queueing before ended a listing that stands behind one of this entry's in its waker's journal.
pub fn listed_in_order(
    journals: &Journals,
    facts: &Facts,
    marks: &[Option<Mark>],
    seat: SeatNo,
    index: u64,
    entry: Entry,
) -> bool
    requires facts { KnowsFacts journals.now facts.now }
    requires marks { AreMarks journals.now seat index marks.now }
    ensures { IsTrue result ↔ ListedInOrder journals.now seat index entry }
{
    none_passed(ended(facts, entry), marks, seat)
}

/// The later of the mark and a listing that was taken in the journal of this seat.
fn raised(mark: Option<Mark>, seat: SeatNo, index: u64) -> Mark
    ensures { IsRaised mark seat index result }
{
    match mark {
        Some(last) => {
            if last.seat == seat && last.index > index {
                last
            } else {
                Mark { seat, index }
            }
        }
        None => Mark { seat, index },
    }
}

/// Raises the marks by these listings.
fn note_all(listings: &[Fact], marks: &mut [Option<Mark>], seat: SeatNo)
    requires { (f : Told) → Contains listings.now f → f.seat < length marks.old }
    ensures { (j : History) (here : ℕ) → AreMarks j seat here marks.old
        → AreMarksOf (λ waker k. IsTakenFrom j seat here waker k ⊎ IsPlaceOf listings.now waker k)
        (length j.seats) seat marks.new }
{
    for listing in listings {
        let waker = listing.seat as usize;
        marks[waker] = Some(raised(marks[waker], seat, listing.index));
    }
}

/// Raises the marks by the listings that the entry ends, which stands here.
pub fn note_taken(
    journals: &Journals,
    facts: &Facts,
    marks: &mut [Option<Mark>],
    seat: SeatNo,
    index: u64,
    entry: Entry,
)
    requires facts { KnowsFacts journals.now facts.now }
    requires marks { AreMarks journals.now seat index marks.old }
    requires stands { Stands journals.now seat index entry }
    ensures { AreMarks journals.now seat (index + 1) marks.new }
{
    note_all(ended(facts, entry), marks, seat);
}

/// So many marks of no listing.
fn empty_marks(alloc: Global, count: usize) -> Result<Vec<Option<Mark>>, NoMemory>
    ensures { IfOk result (λ marks. marks.items ≡ replicate count None) }
{
    Ok(vec![in alloc; None; count]?)
}

/// The marks before the first entry of all journals: nothing is taken yet. Answers `NoMemory` where memory runs out.
pub fn no_marks(alloc: Global, journals: &Journals) -> Result<Vec<Option<Mark>>, NoMemory>
    ensures { IfOk result (λ marks. AreMarks journals.now 0 0 marks.items) }
{
    let seats = journals.seats.as_slice();
    let marks = empty_marks(alloc, seats.len())?;
    Ok(marks)
}
