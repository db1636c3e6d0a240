//! The questions.

ghost use Rattle.std.specs.Prelude.{◌≡◌, ◌+◌, ◌<◌, ◌≤◌, ◌^◌, ◌↔◌, ℕ, length, slice_index_or, IsTrue, IfSome, IfNone};
ghost use Rattle.std.specs.Prelude.{Contains};
ghost use Rattle.std.specs.List.{AllWithin};
ghost use Rattle.handoff_data.specs.Positions.{IsEarlier};
ghost use Rattle.journal_facts.specs.declared.fact.Fact.{Fact};
ghost use Rattle.journal_facts.specs.Facts.{here_on};
ghost use Rattle.journal_facts.specs.Answers.{HasFront, IsOn, Tells, TellsOn, TellsBefore, TellsEarlier, TellsFrom};
ghost use Rattle.journal_facts.specs.Answers.{IsLastIndex, IsHighest};

use crate::fact::{Fact, Kind};
use crate::facts::Facts;
use crate::searching::{all_from, first_from, last_before};
use handoff_data::{CpuNo, SeatNo};

/// Whether the two kinds are one.
fn same_kind(a: Kind, b: Kind) -> bool
    ensures { IsTrue result ↔ (a ≡ b) }
{
    a == b
}

/// Whether the fact has this kind, subject and number.
fn has_front(fact: Fact, kind: Kind, subject: u32, number: u64) -> bool
    ensures { IsTrue result ↔ HasFront fact kind subject number }
{
    same_kind(fact.kind, kind) && fact.subject == subject && fact.number == number
}

/// Whether the fact has this kind, subject, number and processor.
fn is_on(fact: Fact, kind: Kind, subject: u32, number: u64, cpu: CpuNo) -> bool
    ensures { IsTrue result ↔ IsOn fact kind subject number cpu }
{
    has_front(fact, kind, subject, number) && fact.cpu == cpu
}

/// Whether the fact's place is in the journal of this seat, before the index.
fn stands_before(fact: Fact, seat: SeatNo, index: u64) -> bool
    ensures { IsTrue result ↔ ((fact.seat ≡ seat) × (fact.index < index)) }
{
    fact.seat == seat && fact.index < index
}

/// Whether the fact's place is earlier than this one.
fn stands_earlier(fact: Fact, seat: SeatNo, index: u64) -> bool
    ensures { IsTrue result ↔ IsEarlier fact.seat fact.index seat index }
{
    fact.seat < seat || stands_before(fact, seat, index)
}

/// Whether some fact of this kind has this subject and number.
pub fn is_told(facts: &Facts, kind: Kind, subject: u32, number: u64) -> bool
    ensures { IsTrue result ↔ Tells facts.now kind subject number }
{
    let key = Fact {
        kind,
        subject,
        number,
        cpu: 0,
        seat: 0,
        index: 0,
    };
    match first_from(facts, key) {
        Some(fact) => has_front(fact, kind, subject, number),
        None => false,
    }
}

/// Whether some fact of this kind has this subject, number and processor.
pub fn is_told_on(facts: &Facts, kind: Kind, subject: u32, number: u64, cpu: CpuNo) -> bool
    ensures { IsTrue result ↔ TellsOn facts.now kind subject number cpu }
{
    let key = Fact {
        kind,
        subject,
        number,
        cpu,
        seat: 0,
        index: 0,
    };
    match first_from(facts, key) {
        Some(fact) => is_on(fact, kind, subject, number, cpu),
        None => false,
    }
}

/// Whether some fact of this kind has this subject, number, processor and seat, and an index below this one.
pub fn is_told_before(
    facts: &Facts,
    kind: Kind,
    subject: u32,
    number: u64,
    cpu: CpuNo,
    seat: SeatNo,
    index: u64,
) -> bool
    ensures { IsTrue result ↔ TellsBefore facts.now kind subject number cpu seat index }
{
    let key = Fact {
        kind,
        subject,
        number,
        cpu,
        seat,
        index: 0,
    };
    match first_from(facts, key) {
        Some(fact) => {
            is_on(fact, kind, subject, number, cpu) && stands_before(fact, seat, index)
        }
        None => false,
    }
}

/// Whether some fact of this kind has this subject and number, names no processor, and stands at an earlier
/// position than this one.
pub fn is_told_earlier(
    facts: &Facts,
    kind: Kind,
    subject: u32,
    number: u64,
    seat: SeatNo,
    index: u64,
) -> bool
    ensures { IsTrue result ↔ TellsEarlier facts.now kind subject number seat index }
{
    let key = Fact {
        kind,
        subject,
        number,
        cpu: 0,
        seat: 0,
        index: 0,
    };
    match first_from(facts, key) {
        Some(fact) => { is_on(fact, kind, subject, number, 0) && stands_earlier(fact, seat, index) }
        None => false,
    }
}

/// Whether some fact of this kind has this subject and at least this number.
pub fn is_told_from(facts: &Facts, kind: Kind, subject: u32, number: u64) -> bool
    ensures { IsTrue result ↔ TellsFrom facts.now kind subject number }
{
    let key = Fact {
        kind,
        subject,
        number,
        cpu: 0,
        seat: 0,
        index: 0,
    };
    match first_from(facts, key) {
        Some(fact) => same_kind(fact.kind, kind) && fact.subject == subject,
        None => false,
    }
}

/// Whether the fact has this kind and subject, no number and no processor, and is of this seat.
fn is_in_journal(fact: Fact, kind: Kind, subject: u32, seat: SeatNo) -> bool
    ensures { IsTrue result ↔ (IsOn fact kind subject 0 0 × (fact.seat ≡ seat)) }
{
    is_on(fact, kind, subject, 0, 0) && fact.seat == seat
}

/// Of the facts of this kind with this subject, with no number and no processor, the last of this seat with an
/// index below this one.
pub fn last_index(facts: &Facts, kind: Kind, subject: u32, seat: SeatNo, index: u64) -> Option<u64>
    ensures last { IfSome result (IsLastIndex facts.now kind subject seat index) }
    ensures none { IfNone result ((k : ℕ) → k < index → ¬ Contains facts.now (here_on kind seat k subject 0 0)) }
{
    let key = Fact {
        kind,
        subject,
        number: 0,
        cpu: 0,
        seat,
        index,
    };
    match last_before(facts, key) {
        Some(fact) => {
            if is_in_journal(fact, kind, subject, seat) {
                Some(fact.index)
            } else {
                None
            }
        }
        None => None,
    }
}

/// Whether the fact has this kind and subject.
fn is_about(fact: Fact, kind: Kind, subject: u32) -> bool
    ensures { IsTrue result ↔ ((fact.kind ≡ kind) × (fact.subject ≡ subject)) }
{
    same_kind(fact.kind, kind) && fact.subject == subject
}

/// Of the facts of this kind with this subject, one with the highest number.
pub fn highest(facts: &Facts, kind: Kind, subject: u32) -> Option<Fact>
    requires not_last { subject + 1 < 2 ^ 32 }
    ensures highest { IfSome result (IsHighest facts.now kind subject) }
    ensures none { IfNone result ((number : ℕ) → ¬ Tells facts.now kind subject number) }
{
    let key = Fact {
        kind,
        subject: subject + 1,
        number: 0,
        cpu: 0,
        seat: 0,
        index: 0,
    };
    match last_before(facts, key) {
        Some(fact) => {
            if is_about(fact, kind, subject) {
                Some(fact)
            } else {
                None
            }
        }
        None => None,
    }
}

/// How many facts at the front have this kind, subject, number and processor.
fn count_on(rest: &[Fact], kind: Kind, subject: u32, number: u64, cpu: CpuNo) -> usize
    ensures bound { result ≤ length rest.now }
    ensures on { AllWithin (λ f. IsOn f kind subject number cpu) rest.now 0 result }
    ensures end { (d : Fact) → result < length rest.now
        → ¬ IsOn (slice_index_or rest.now result d) kind subject number cpu }
{
    for (i, fact) in rest.iter().enumerate() {
        if !is_on(*fact, kind, subject, number, cpu) {
            return i;
        }
    }
    rest.len()
}

/// The facts of this kind with this subject, number and processor.
pub fn facts_on(facts: &Facts, kind: Kind, subject: u32, number: u64, cpu: CpuNo) -> &[Fact]
    ensures { (f : Fact) → Contains result.now f ↔ (Contains facts.now f × IsOn f kind subject number cpu) }
{
    let key = Fact {
        kind,
        subject,
        number,
        cpu,
        seat: 0,
        index: 0,
    };
    let rest = all_from(facts, key);
    let count = count_on(rest, kind, subject, number, cpu);
    &rest[..count]
}
