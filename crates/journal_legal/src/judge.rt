use crate::breaks::{breaks_cause, breaks_order, breaks_standing};
use handoff_data::{Entry, Journals, NoMemory, SeatNo, TaskNo};
use journal_facts::{Facts, facts_of, members_of};
use journal_rules::{Mark, no_marks, note_taken};
use std::alloc::Global;

/// What is known of the journals that are judged, and which listings their entries were found to take so far.
#[derive(Debug, Drop)]
pub struct Judge {
    facts: Facts,
    members: Facts,
    marks: Vec<Option<Mark>>,
}

impl Judge {
    ghost use Rattle.std.specs.Prelude.{◌+◌, ◌<◌, ◌^◌, ◌↔◌, length, IsTrue, IfOk, IfSome, IfNone};
    ghost use Rattle.handoff_data.specs.Legal.{HasNoBad, HasEnded};
    ghost use Rattle.handoff_data.specs.Positions.{Stands};
    ghost use Rattle.journal_legal.specs.Judging.{IsJudgeAt, KeepsAll, EarlierKeepAll, IsLowestBroken};

    /// A judge of these journals, before their first entry. It takes time n log n in the number n of entries, and
    /// memory linear in it.
    pub fn new(alloc: Global, journals: &Journals) -> Result<Judge, NoMemory>
        requires { length journals.now.seats < 2 ^ 32 }
        ensures { IfOk result (IsJudgeAt journals.now 0 0) }
    {
        Ok(Judge {
            facts: facts_of(alloc, journals.seats.as_slice())?,
            members: members_of(alloc, journals.seats.as_slice())?,
            marks: no_marks(alloc, journals)?,
        })
    }

    /// The judge goes on to the first entry of a later seat's journal. It costs nothing.
    pub fn enter(&self, journals: &Journals, before: SeatNo, index: u64, seat: SeatNo)
        requires at { IsJudgeAt journals.now before index self.now }
        requires later { before < seat }
        ensures { IsJudgeAt journals.now seat 0 self.now }
    {}

    /// The lowest rule that the entry breaks, which stands at this position, where each earlier entry keeps all
    /// rules. If it breaks none, the judge has gone through it.
    pub fn first_broken(
        &mut self,
        journals: &Journals,
        seat: SeatNo,
        index: u64,
        entry: Entry,
    ) -> Option<u32>
        requires at { IsJudgeAt journals.now seat index self.old }
        requires stands { Stands journals.now seat index entry }
        requires earlier { EarlierKeepAll journals.now seat index }
        ensures broken { IfSome result (IsLowestBroken journals.now seat index entry) }
        ensures kept { IfNone result (KeepsAll journals.now seat index entry) }
        ensures next { IfNone result (IsJudgeAt journals.now seat (index + 1) self.new) }
    {
        let facts = &self.facts;
        if let Some(rule) = breaks_cause(journals, facts, seat, index, entry) {
            return Some(rule);
        }
        if let Some(rule) = breaks_order(
            journals,
            facts,
            self.marks.as_slice(),
            seat,
            index,
            entry,
        ) {
            return Some(rule);
        }
        if let Some(rule) = breaks_standing(journals, facts, &self.members, seat, index, entry) {
            return Some(rule);
        }
        note_taken(
            journals,
            &self.facts,
            self.marks.as_mut_slice(),
            seat,
            index,
            entry,
        );
        None
    }

    /// Whether the task has ended, where each entry keeps all rules.
    pub fn has_ended(&self, journals: &Journals, seat: SeatNo, index: u64, t: TaskNo) -> bool
        requires at { IsJudgeAt journals.now seat index self.now }
        requires no_bad { HasNoBad journals.now }
        requires task { t < journals.now.tasks }
        ensures { IsTrue result ↔ HasEnded journals.now t }
    {
        journal_rules::has_ended(journals, &self.facts, t)
    }
}
