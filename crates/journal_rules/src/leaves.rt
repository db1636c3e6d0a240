//! Rule 7: a task leaves only while it runs.

ghost use Rattle.std.specs.Prelude.{◌≡◌, ◌↔◌, IsTrue};
ghost use Rattle.handoff_data.specs.Rules.{IsRunning, LeavesWhileRunning};
ghost use Rattle.journal_rules.specs.Known.{KnowsFacts};

use crate::entries::is_pick;
use crate::lasts::last_run;
use handoff_data::{Entry, Journals, SeatNo, TaskNo};
use journal_facts::Facts;

/// Whether in this journal the last run entry of the task before the index is a pick.
fn is_running(journals: &Journals, facts: &Facts, t: TaskNo, seat: SeatNo, index: u64) -> bool
    requires { KnowsFacts journals.now facts.now }
    ensures { IsTrue result ↔ IsRunning journals.now seat index t }
{
    match last_run(journals, facts, t, seat, index) {
        Some(last) => is_pick(last),
        None => false,
    }
}

/// Whether a task goes to sleep or ends only while it runs.
pub fn leaves_while_running(
    journals: &Journals,
    facts: &Facts,
    seat: SeatNo,
    index: u64,
    entry: Entry,
) -> bool
    requires { KnowsFacts journals.now facts.now }
    ensures { IsTrue result ↔ LeavesWhileRunning journals.now seat index entry }
{
    match entry {
        Entry::Sleep { t, .. } => is_running(journals, facts, t, seat, index),
        Entry::Die { t, .. } => is_running(journals, facts, t, seat, index),
        _ => true,
    }
}
