//! The lowest rule that an entry breaks, in three parts: what it names and follows, its order, its outage and masks.

ghost use Rattle.std.specs.Prelude.{IfSome, IfNone};
ghost use Rattle.journal_legal.specs.Judging.{KeepsAll, KeepsBelow, EarlierKeepAll, IsLowestBroken};
ghost use Rattle.journal_rules.specs.Known.{KnowsFacts, KnowsMembers};
ghost use Rattle.journal_rules.specs.Marks.{AreMarks};

use handoff_data::{Entry, Journals, SeatNo};
use journal_facts::Facts;
use journal_rules::{
    Mark, caused, chained, done_stood, in_range, leaves_while_running, listed_in_order,
    masked_and_stood, not_repeated, outage_leaves_none, rises_in_journal, runs_alternate,
};

/// The lowest of rules 1 to 4 that the entry breaks: what it names is in range, its numbers are new, and what it
/// follows is there.
pub fn breaks_cause(
    journals: &Journals,
    facts: &Facts,
    seat: SeatNo,
    index: u64,
    entry: Entry,
) -> Option<u32>
    requires { KnowsFacts journals.now facts.now }
    ensures broken { IfSome result (IsLowestBroken journals.now seat index entry) }
    ensures kept { IfNone result (KeepsBelow 5 journals.now seat index entry) }
{
    if !in_range(journals, seat, index, entry) {
        return Some(1);
    }
    if !not_repeated(journals, facts, seat, index, entry) {
        return Some(2);
    }
    if !chained(journals, facts, seat, index, entry) {
        return Some(3);
    }
    if !caused(journals, facts, seat, index, entry) {
        return Some(4);
    }
    None
}

/// The lowest of rules 5 to 8 that the entry breaks, where it keeps the lower ones: in its journal numbers rise and
/// runs alternate, a task leaves only while it runs, and a remote list is taken in its order.
pub fn breaks_order(
    journals: &Journals,
    facts: &Facts,
    marks: &[Option<Mark>],
    seat: SeatNo,
    index: u64,
    entry: Entry,
) -> Option<u32>
    requires facts { KnowsFacts journals.now facts.now }
    requires marks { AreMarks journals.now seat index marks.now }
    requires earlier { EarlierKeepAll journals.now seat index }
    requires lower { KeepsBelow 5 journals.now seat index entry }
    ensures broken { IfSome result (IsLowestBroken journals.now seat index entry) }
    ensures kept { IfNone result (KeepsBelow 9 journals.now seat index entry) }
{
    if !rises_in_journal(journals, facts, seat, index, entry) {
        return Some(5);
    }
    if !runs_alternate(journals, facts, seat, index, entry) {
        return Some(6);
    }
    if !leaves_while_running(journals, facts, seat, index, entry) {
        return Some(7);
    }
    if !listed_in_order(journals, facts, marks, seat, index, entry) {
        return Some(8);
    }
    None
}

/// The lowest of rules 9 to 11 that the entry breaks, where it keeps the lower ones: an outage leaves nothing listed,
/// and a task stands where its mask allows.
pub fn breaks_standing(
    journals: &Journals,
    facts: &Facts,
    members: &Facts,
    seat: SeatNo,
    index: u64,
    entry: Entry,
) -> Option<u32>
    requires facts { KnowsFacts journals.now facts.now }
    requires members { KnowsMembers journals.now members.now }
    requires earlier { EarlierKeepAll journals.now seat index }
    requires lower { KeepsBelow 9 journals.now seat index entry }
    ensures broken { IfSome result (IsLowestBroken journals.now seat index entry) }
    ensures kept { IfNone result (KeepsAll journals.now seat index entry) }
{
    if !outage_leaves_none(journals, facts, seat, index, entry) {
        return Some(9);
    }
    if !masked_and_stood(journals, facts, members, seat, index, entry) {
        return Some(10);
    }
    if !done_stood(journals, facts, seat, index, entry) {
        return Some(11);
    }
    None
}
