//! The walk over all entries, and the ends of all tasks.
ghost use Rattle.std.specs.Prelude.{◌≡◌, ◌+◌, ◌<◌, ◌^◌, ℕ, Some, length, slice_get, IfOk, IfSome, IfNone};
ghost use Rattle.handoff_data.specs.Legal.{HasNoBad, HasEnded};
ghost use Rattle.journal_legal.specs.Verdicts.{IsFirstBad, IsLowestUnended, IsVerdict};
ghost use Rattle.journal_legal.specs.Judging.{IsJudgeAt, EarlierKeepAll};

use crate::judge::Judge;
use crate::verdict::Verdict;
use handoff_data::{Entry, Journals, NoMemory, SeatNo, TaskNo};
use std::alloc::Global;

/// The verdict on the journals. It takes time n log n in the number n of entries, and memory linear in it.
///
/// The order of positions is that of the seats, and in one journal that of the indexes. Where no entry is bad, a task
/// whose change with the highest number isn't a `Die`, or whose run entry with the highest number isn't a `Finish`,
/// hasn't ended; nor has a task without any.
pub fn legal(alloc: Global, journals: &Journals) -> Result<Verdict, NoMemory>
    requires few { length journals.now.seats < 2 ^ 32 }
    ensures verdict { IfOk result (IsVerdict journals.now) }
{
    let mut judge = Judge::new(alloc, journals)?;
    if let Some(bad) = first_bad(journals, &mut judge) {
        return Ok(Verdict::FirstBad {
            seat: bad.seat,
            index: bad.index,
            rule: bad.rule,
        });
    }
    match first_unended(journals, &judge, journals.seats.len() as SeatNo) {
        Some(t) => Ok(Verdict::Unended { t }),
        None => Ok(Verdict::Legal),
    }
}

// A bad entry, and the lowest rule that it breaks.
#[derive(Clone, Copy, Debug)]
struct Bad {
    seat: SeatNo,
    index: u64,
    rule: u32,
}

// The first bad entry. If there is none, the judge has gone through all.
fn first_bad(journals: &Journals, judge: &mut Judge) -> Option<Bad>
    requires few { length journals.now.seats < 2 ^ 32 }
    requires at { IsJudgeAt journals.now 0 0 judge.old }
    ensures bad { IfSome result (λ bad. IsFirstBad journals.now bad.seat bad.index bad.rule) }
    ensures none { IfNone result (HasNoBad journals.now) }
    ensures past { IfNone result (IsJudgeAt journals.now (length journals.now.seats) 0 judge.new) }
{
    for (i, journal) in journals.seats.iter().enumerate() {
        let seat = i as SeatNo;
        let bad = first_bad_in(journals, judge, seat, journal.as_slice());
        if bad.is_some() {
            return bad;
        }
        judge.enter(journals, seat, journal.as_slice().len() as u64, seat + 1);
    }
    None
}

// The first bad entry of this seat's journal.
fn first_bad_in(
    journals: &Journals,
    judge: &mut Judge,
    seat: SeatNo,
    entries: &[Entry],
) -> Option<Bad>
    requires at { IsJudgeAt journals.now seat 0 judge.old }
    requires journal { slice_get journals.now.seats seat ≡ Some entries.now }
    requires earlier { EarlierKeepAll journals.now seat 0 }
    ensures bad { IfSome result (λ bad. IsFirstBad journals.now bad.seat bad.index bad.rule) }
    ensures none { IfNone result (EarlierKeepAll journals.now (seat + 1) 0) }
    ensures past { IfNone result (IsJudgeAt journals.now seat (length entries.now) judge.new) }
{
    for (i, entry) in entries.iter().enumerate() {
        let index = i as u64;
        if let Some(rule) = judge.first_broken(journals, seat, index, *entry) {
            return Some(Bad { seat, index, rule });
        }
    }
    None
}

// The lowest task that hasn't ended, where no entry is bad and the judge has gone through all.
fn first_unended(journals: &Journals, judge: &Judge, seat: SeatNo) -> Option<TaskNo>
    requires at { IsJudgeAt journals.now seat 0 judge.now }
    requires no_bad { HasNoBad journals.now }
    ensures unended { IfSome result (IsLowestUnended journals.now) }
    ensures ended { IfNone result ((t : ℕ) → t < journals.now.tasks → HasEnded journals.now t) }
{
    for t in 0..journals.tasks {
        if !judge.has_ended(journals, seat, 0, t) {
            return Some(t);
        }
    }
    None
}
