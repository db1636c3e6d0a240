//! The last entry of a task, in one journal or in all.

ghost use Rattle.std.specs.Prelude.{◌+◌, ◌<◌, ◌^◌, IfSome, IfNone};
ghost use Rattle.handoff_data.specs.History.{History};
ghost use Rattle.handoff_data.specs.Numbers.{change_of as change_spec, run_of as run_spec};
ghost use Rattle.journal_rules.specs.Order.{IsLast, HasNone, IsHighestOf, IsNowhere};
ghost use Rattle.journal_rules.specs.Known.{KnowsFacts};

use crate::entries::entry_at;
use handoff_data::{Entry, Journals, SeatNo, TaskNo};
use journal_facts::{Facts, Kind, highest, last_index};

/// The last change of the task before the index of this journal, if there is one.
pub fn last_change(
    journals: &Journals,
    facts: &Facts,
    t: TaskNo,
    seat: SeatNo,
    index: u64,
) -> Option<Entry>
    requires { KnowsFacts journals.now facts.now }
    ensures last { IfSome result (IsLast change_spec journals.now seat index t) }
    ensures none { IfNone result (HasNone change_spec journals.now seat index t) }
{
    let last = last_index(facts, Kind::ChangeIn, t, seat, index)?;
    entry_at(journals, seat, last)
}

/// The last run entry of the task before the index of this journal, if there is one.
pub fn last_run(
    journals: &Journals,
    facts: &Facts,
    t: TaskNo,
    seat: SeatNo,
    index: u64,
) -> Option<Entry>
    requires { KnowsFacts journals.now facts.now }
    ensures last { IfSome result (IsLast run_spec journals.now seat index t) }
    ensures none { IfNone result (HasNone run_spec journals.now seat index t) }
{
    let last = last_index(facts, Kind::RunIn, t, seat, index)?;
    entry_at(journals, seat, last)
}

/// The highest number of a change of the task, if it has one. It holds of whatever journals the facts are of.
pub fn highest_change(facts: &Facts, t: TaskNo) -> Option<u64>
    requires not_last { t + 1 < 2 ^ 32 }
    ensures highest { (j : History) → KnowsFacts j facts.now → IfSome result (IsHighestOf change_spec j t) }
    ensures none { (j : History) → KnowsFacts j facts.now → IfNone result (IsNowhere change_spec j t) }
{
    let last = highest(facts, Kind::Change, t)?;
    Some(last.number)
}

/// The highest number of a run entry of the task, likewise.
pub fn highest_run(facts: &Facts, t: TaskNo) -> Option<u64>
    requires not_last { t + 1 < 2 ^ 32 }
    ensures highest { (j : History) → KnowsFacts j facts.now → IfSome result (IsHighestOf run_spec j t) }
    ensures none { (j : History) → KnowsFacts j facts.now → IfNone result (IsNowhere run_spec j t) }
{
    let last = highest(facts, Kind::Run, t)?;
    Some(last.number)
}
