//! Rule 6: picks and finishes.

ghost use Rattle.std.specs.Prelude.{◌≡◌, ◌-◌, ◌%◌, ◌<◌, ◌↔◌, ℕ, IsTrue};
ghost use Rattle.handoff_data.specs.declared.entry.Entry.TheVariants as entry;
ghost use Rattle.handoff_data.specs.History.{History};
ghost use Rattle.handoff_data.specs.Positions.{IsBefore, IsSomewhere};
ghost use Rattle.handoff_data.specs.Rules.{RunsAlternate};
ghost use Rattle.journal_rules.specs.Known.{KnowsFacts};

use crate::asked::{is_finish, is_picked_before};
use handoff_data::{CpuNo, Entry, Journals, SeatNo, TaskNo};
use journal_facts::Facts;

/// Whether run `n` of the task is its first, or the run before it is a finish.
fn follows_finish(facts: &Facts, t: TaskNo, n: u64) -> bool
    ensures { (j : History) → KnowsFacts j facts.now → IsTrue result
        ↔ (1 < n → (c' : ℕ) × IsSomewhere j (entry.Finish t (n - 1) c')) }
{
    if n <= 1 {
        return true;
    }
    is_finish(facts, t, n - 1)
}

/// Whether run `n` of the task may be a pick.
fn may_pick(facts: &Facts, t: TaskNo, n: u64) -> bool
    ensures { (j : History) → KnowsFacts j facts.now → IsTrue result
        ↔ ((n % 2 ≡ 1) × (1 < n → (c' : ℕ) × IsSomewhere j (entry.Finish t (n - 1) c'))) }
{
    if n % 2 != 1 {
        return false;
    }
    follows_finish(facts, t, n)
}

/// Whether run `n` of the task may be a finish at this place, on the processor.
fn may_finish(facts: &Facts, t: TaskNo, n: u64, c: CpuNo, seat: SeatNo, index: u64) -> bool
    ensures { (j : History) → KnowsFacts j facts.now → IsTrue result
        ↔ ((n % 2 ≡ 0) × (0 < n) × IsBefore j seat index (entry.Pick t (n - 1) c)) }
{
    if n == 0 {
        return false;
    }
    if n % 2 != 0 {
        return false;
    }
    is_picked_before(facts, t, n - 1, c, seat, index)
}

/// Whether a pick follows the finish before it, and a finish stands behind its pick, in its journal and on its
/// processor.
pub fn runs_alternate(
    journals: &Journals,
    facts: &Facts,
    seat: SeatNo,
    index: u64,
    entry: Entry,
) -> bool
    requires { KnowsFacts journals.now facts.now }
    ensures { IsTrue result ↔ RunsAlternate journals.now seat index entry }
{
    match entry {
        Entry::Pick { t, n, .. } => may_pick(facts, t, n),
        Entry::Finish { t, n, c } => may_finish(facts, t, n, c, seat, index),
        _ => true,
    }
}
