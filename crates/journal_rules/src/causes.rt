//! Rules 3 and 4: what an entry follows.

ghost use Rattle.std.specs.Prelude.{◌≡◌, ◌-◌, ◌<◌, ◌↔◌, ℕ, IsTrue};
ghost use Rattle.handoff_data.specs.declared.entry.Entry.TheVariants as entry;
ghost use Rattle.handoff_data.specs.History.{History};
ghost use Rattle.handoff_data.specs.Positions.{IsIn, IsBefore, IsSomewhere};
ghost use Rattle.handoff_data.specs.Rules.{Chained, Caused, IsQueued, IsSleep, IsListed};
ghost use Rattle.journal_rules.specs.Known.{KnowsFacts};

use crate::asked::{is_listed, is_listed_to, is_out_in, is_queued, is_sleep, is_woken_before};
use handoff_data::{CpuNo, Entry, Journals, SeatNo, TaskNo};
use journal_facts::Facts;

/// Whether the change before `m` put the task on the queue of the processor.
fn follows_queueing(facts: &Facts, t: TaskNo, m: u64, c: CpuNo) -> bool
    ensures { (j : History) → KnowsFacts j facts.now → IsTrue result ↔ ((1 < m) × IsQueued j t (m - 1) c) }
{
    m > 1 && is_queued(facts, t, m - 1, c)
}

/// Whether the task went to sleep by the change before `m`.
fn follows_sleep(facts: &Facts, t: TaskNo, m: u64) -> bool
    ensures { (j : History) → KnowsFacts j facts.now → IsTrue result ↔ ((1 < m) × IsSleep j t (m - 1)) }
{
    m > 1 && is_sleep(facts, t, m - 1)
}

/// Whether the change before `m` took the task off a queue, in the journal of this seat.
fn follows_out(facts: &Facts, t: TaskNo, m: u64, seat: SeatNo) -> bool
    ensures { (j : History) → KnowsFacts j facts.now → IsTrue result
        ↔ ((1 < m) × ((c' : ℕ) × IsIn j seat (entry.Out t (m - 1) c'))) }
{
    m > 1 && is_out_in(facts, t, m - 1, seat)
}

/// Whether a task's first change is New, and each other one follows the change before it.
pub fn chained(journals: &Journals, facts: &Facts, seat: SeatNo, index: u64, entry: Entry) -> bool
    requires { KnowsFacts journals.now facts.now }
    ensures { IsTrue result ↔ Chained journals.now seat index entry }
{
    match entry {
        Entry::New { m, .. } => m == 1,
        Entry::Sleep { t, m, c } => follows_queueing(facts, t, m, c),
        Entry::Die { t, m, c } => follows_queueing(facts, t, m, c),
        Entry::Out { t, m, c } => follows_queueing(facts, t, m, c),
        Entry::Enq { t, m, .. } => follows_sleep(facts, t, m),
        Entry::In { t, m, .. } => follows_out(facts, t, m, seat),
        _ => true,
    }
}

/// Whether the task was listed to the processor after the change before `m`.
fn follows_listing(facts: &Facts, t: TaskNo, m: u64, c: CpuNo) -> bool
    ensures { (j : History) → KnowsFacts j facts.now → IsTrue result
        ↔ ((0 < m) × ((e : ℕ) × IsSomewhere j (entry.List t (m - 1) c e))) }
{
    m > 0 && is_listed_to(facts, t, m - 1, c)
}

/// Whether the wake from the change before `m` stands before the index of this journal, and no entry lists the
/// task after that change.
fn follows_wake(facts: &Facts, t: TaskNo, m: u64, seat: SeatNo, index: u64) -> bool
    ensures { (j : History) → KnowsFacts j facts.now → IsTrue result
        ↔ ((0 < m) × IsBefore j seat index (entry.Wake t (m - 1)) × (IsListed j t (m - 1) → ⊥)) }
{
    if m == 0 {
        return false;
    }
    if !is_woken_before(facts, t, m - 1, seat, index) {
        return false;
    }
    !is_listed(facts, t, m - 1)
}

/// Whether a queueing has its listing, or its wake where there is no listing.
fn is_caused_queueing(
    facts: &Facts,
    t: TaskNo,
    m: u64,
    c: CpuNo,
    by_list: bool,
    seat: SeatNo,
    index: u64,
) -> bool
    ensures { (j : History) → KnowsFacts j facts.now → IsTrue result ↔ Caused j seat index (entry.Enq t m c by_list) }
{
    if by_list {
        follows_listing(facts, t, m, c)
    } else {
        follows_wake(facts, t, m, seat, index)
    }
}

/// Whether a wake has its sleep, a listing its wake, and a queueing its listing, or its wake where there is no
/// listing.
pub fn caused(journals: &Journals, facts: &Facts, seat: SeatNo, index: u64, entry: Entry) -> bool
    requires { KnowsFacts journals.now facts.now }
    ensures { IsTrue result ↔ Caused journals.now seat index entry }
{
    match entry {
        Entry::Wake { t, m } => is_sleep(facts, t, m),
        Entry::List { t, m, .. } => is_woken_before(facts, t, m, seat, index),
        Entry::Enq { t, m, c, by_list } => is_caused_queueing(facts, t, m, c, by_list, seat, index),
        _ => true,
    }
}
