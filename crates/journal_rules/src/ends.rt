//! Whether tasks have ended.

ghost use Rattle.std.specs.Prelude.{◌+◌, ◌<◌, ◌^◌, ◌↔◌, IsTrue};
ghost use Rattle.handoff_data.specs.History.{History};
ghost use Rattle.handoff_data.specs.Legal.{DiesLast, FinishesLast, HasEnded};
ghost use Rattle.journal_rules.specs.Known.{KnowsFacts};

use crate::asked::{is_end, is_finish};
use crate::lasts::{highest_change, highest_run};
use handoff_data::{Journals, TaskNo};
use journal_facts::Facts;

/// Whether the change of the task with the highest number is its end.
fn dies_last(facts: &Facts, t: TaskNo) -> bool
    requires not_last { t + 1 < 2 ^ 32 }
    ensures { (j : History) → KnowsFacts j facts.now → IsTrue result ↔ DiesLast j t }
{
    match highest_change(facts, t) {
        Some(m) => is_end(facts, t, m),
        None => false,
    }
}

/// Whether the run entry of the task with the highest number is a finish.
fn finishes_last(facts: &Facts, t: TaskNo) -> bool
    requires not_last { t + 1 < 2 ^ 32 }
    ensures { (j : History) → KnowsFacts j facts.now → IsTrue result ↔ FinishesLast j t }
{
    match highest_run(facts, t) {
        Some(n) => is_finish(facts, t, n),
        None => false,
    }
}

/// Whether the task has ended.
pub fn has_ended(journals: &Journals, facts: &Facts, t: TaskNo) -> bool
    requires knows { KnowsFacts journals.now facts.now }
    requires task { t < journals.now.tasks }
    ensures { IsTrue result ↔ HasEnded journals.now t }
{
    // A number behind a reference has its range once it is read; t + 1 then has room.
    let _tasks = journals.tasks;
    dies_last(facts, t) && finishes_last(facts, t)
}
