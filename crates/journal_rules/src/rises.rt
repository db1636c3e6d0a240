//! Rule 5: in one journal the changes of a task rise, and so do its runs.

ghost use Rattle.std.specs.Prelude.{◌≡◌, ◌<◌, ◌↔◌, ℕ, Some, IsTrue};
ghost use Rattle.handoff_data.specs.Numbers.{change_of as change_spec, run_of as run_spec};
ghost use Rattle.handoff_data.specs.Rules.{RisesInJournal};
ghost use Rattle.journal_rules.specs.Order.{AreBelow, RoseBefore};
ghost use Rattle.journal_rules.specs.Known.{KnowsFacts};

use crate::entries::{change_of, run_of};
use crate::lasts::{last_change, last_run};
use handoff_data::{Entry, Journals, SeatNo, TaskNo};
use journal_facts::Facts;

/// Whether these are numbers with one below `limit`.
fn is_below(numbers: Option<(TaskNo, u64)>, limit: u64) -> bool
    ensures { IsTrue result ↔ ((t n : ℕ) × (numbers ≡ Some (t, n)) × (n < limit)) }
{
    match numbers {
        Some((_, n)) => n < limit,
        None => false,
    }
}

/// Whether each change of the task before the index of this journal is below `m`, where they rose so far.
fn are_changes_below(
    journals: &Journals,
    facts: &Facts,
    t: TaskNo,
    m: u64,
    seat: SeatNo,
    index: u64,
) -> bool
    requires knows { KnowsFacts journals.now facts.now }
    requires rose { RoseBefore journals.now seat index }
    ensures { IsTrue result ↔ AreBelow change_spec journals.now seat index t m }
{
    match last_change(journals, facts, t, seat, index) {
        Some(last) => is_below(change_of(last), m),
        None => true,
    }
}

/// Whether each run entry of the task before the index of this journal is below `n`, where they rose so far.
fn are_runs_below(
    journals: &Journals,
    facts: &Facts,
    t: TaskNo,
    n: u64,
    seat: SeatNo,
    index: u64,
) -> bool
    requires knows { KnowsFacts journals.now facts.now }
    requires rose { RoseBefore journals.now seat index }
    ensures { IsTrue result ↔ AreBelow run_spec journals.now seat index t n }
{
    match last_run(journals, facts, t, seat, index) {
        Some(last) => is_below(run_of(last), n),
        None => true,
    }
}

/// Whether the entry is no change, or each change of its task before it in this journal has a lower number.
fn do_changes_rise(
    journals: &Journals,
    facts: &Facts,
    seat: SeatNo,
    index: u64,
    entry: Entry,
) -> bool
    requires knows { KnowsFacts journals.now facts.now }
    requires rose { RoseBefore journals.now seat index }
    ensures { IsTrue result
        ↔ ((t m : ℕ) → change_spec entry ≡ Some (t, m) → AreBelow change_spec journals.now seat index t m) }
{
    match change_of(entry) {
        Some((t, m)) => are_changes_below(journals, facts, t, m, seat, index),
        None => true,
    }
}

/// Whether the entry is no run entry, or each run entry of its task before it in this journal has a lower number.
fn do_runs_rise(journals: &Journals, facts: &Facts, seat: SeatNo, index: u64, entry: Entry) -> bool
    requires knows { KnowsFacts journals.now facts.now }
    requires rose { RoseBefore journals.now seat index }
    ensures { IsTrue result
        ↔ ((t n : ℕ) → run_spec entry ≡ Some (t, n) → AreBelow run_spec journals.now seat index t n) }
{
    match run_of(entry) {
        Some((t, n)) => are_runs_below(journals, facts, t, n, seat, index),
        None => true,
    }
}

/// Whether in this journal the changes of a task rise, and so do its runs, where they rose at each entry before.
pub fn rises_in_journal(
    journals: &Journals,
    facts: &Facts,
    seat: SeatNo,
    index: u64,
    entry: Entry,
) -> bool
    requires knows { KnowsFacts journals.now facts.now }
    requires rose { RoseBefore journals.now seat index }
    ensures { IsTrue result ↔ RisesInJournal journals.now seat index entry }
{
    do_changes_rise(journals, facts, seat, index, entry)
        && do_runs_rise(journals, facts, seat, index, entry)
}
