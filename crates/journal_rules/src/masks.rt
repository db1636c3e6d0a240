//! Rules 10 and 11: masks, where tasks stood under them, and which requests are done.

ghost use Rattle.std.specs.Prelude.{◌≡◌, None, Some, ◌-◌, ◌<◌, ◌≤◌, ◌⊎◌, ◌↔◌, ℕ, Option, IsTrue};
ghost use Rattle.handoff_data.specs.declared.entry.Entry.TheVariants as entry;
ghost use Rattle.handoff_data.specs.declared.mask.CpuMask.{CpuMask};
ghost use Rattle.handoff_data.specs.History.{History};
ghost use Rattle.handoff_data.specs.Mask.{HasCpu};
ghost use Rattle.handoff_data.specs.Positions.{IsBefore, IsSomewhere};
ghost use Rattle.handoff_data.specs.Rules.{DoneStood, MaskAllows, MaskedAndStood, StoodAt};
ghost use Rattle.journal_rules.specs.Known.{KnowsFacts, KnowsMembers};

use crate::asked::{
    is_end, is_end_on, is_listed_to, is_masked, is_masked_before, is_member, is_queued, is_sleep,
    is_sleep_on, is_stood_from,
};
use handoff_data::{CpuMask, CpuNo, Entry, Journals, SeatNo, TaskNo};
use journal_facts::Facts;

/// Whether change `m` of the task left it off its queue.
fn left_off(facts: &Facts, t: TaskNo, m: u64) -> bool
    ensures { (j : History) → KnowsFacts j facts.now → IsTrue result ↔ StoodAt j t m None }
{
    if is_sleep(facts, t, m) {
        return true;
    }
    is_end(facts, t, m)
}

/// Whether change `m` of the task left it on the processor's queue, maybe busy on the processor, or listed to it.
fn left_on(facts: &Facts, t: TaskNo, m: u64, c: CpuNo) -> bool
    ensures { (j : History) → KnowsFacts j facts.now → IsTrue result ↔ StoodAt j t m (Some c) }
{
    if is_queued(facts, t, m, c) {
        return true;
    }
    if is_sleep_on(facts, t, m, c) {
        return true;
    }
    if is_end_on(facts, t, m, c) {
        return true;
    }
    if !is_sleep(facts, t, m) {
        return false;
    }
    is_listed_to(facts, t, m, c)
}

/// Whether change `m` of the task left it there.
fn stood_at(facts: &Facts, t: TaskNo, m: u64, at: Option<CpuNo>) -> bool
    ensures { (j : History) → KnowsFacts j facts.now → IsTrue result ↔ StoodAt j t m at }
{
    match at {
        Some(c) => left_on(facts, t, m, c),
        None => left_off(facts, t, m),
    }
}

/// Whether the task has mask `r`, where mask 0 is there from the start.
fn has_mask(facts: &Facts, t: TaskNo, r: u64) -> bool
    ensures { (j : History) → KnowsFacts j facts.now → IsTrue result ↔ MaskAllows j t r None }
{
    if r == 0 {
        return true;
    }
    is_masked(facts, t, r)
}

/// Whether mask `r` of the task has the processor, where mask 0 has all.
fn mask_has(members: &Facts, cpus: u32, t: TaskNo, r: u64, c: CpuNo) -> bool
    ensures { (j : History) → KnowsMembers j members.now → cpus ≡ j.cpus → IsTrue result ↔ MaskAllows j t r (Some c) }
{
    if r == 0 {
        return c < cpus;
    }
    is_member(members, t, r, c)
}

/// Whether mask `r` of the task allows this place.
fn mask_allows(
    facts: &Facts,
    members: &Facts,
    cpus: u32,
    t: TaskNo,
    r: u64,
    at: Option<CpuNo>,
) -> bool
    ensures { (j : History) → KnowsFacts j facts.now → KnowsMembers j members.now → cpus ≡ j.cpus → IsTrue result
        ↔ MaskAllows j t r at }
{
    match at {
        Some(c) => mask_has(members, cpus, t, r, c),
        None => has_mask(facts, t, r),
    }
}

/// Whether the task's mask `r` is its first, or there is the mask before it.
fn follows_mask(facts: &Facts, t: TaskNo, r: u64) -> bool
    ensures { (j : History) → KnowsFacts j facts.now → IsTrue result
        ↔ ((r ≡ 1) ⊎ ((0 < r) × ((mask' : CpuMask) × IsSomewhere j (entry.Mask t (r - 1) mask')))) }
{
    if r == 1 {
        return true;
    }
    if r == 0 {
        return false;
    }
    is_masked(facts, t, r - 1)
}

/// Whether the mask has a processor.
fn has_some(mask: CpuMask) -> bool
    ensures { IsTrue result ↔ ((c : ℕ) × HasCpu mask c) }
{
    match mask.lowest() {
        Some(_) => true,
        None => false,
    }
}

/// Whether the mask may be the task's mask `r`.
fn may_mask(facts: &Facts, t: TaskNo, r: u64, mask: CpuMask) -> bool
    ensures { (j : History) → KnowsFacts j facts.now → (seat index : ℕ) → IsTrue result
        ↔ MaskedAndStood j seat index (entry.Mask t r mask) }
{
    if !has_some(mask) {
        return false;
    }
    follows_mask(facts, t, r)
}

/// Whether the task may have stood there, by its change `m` and under its mask `r`.
fn may_stand(
    facts: &Facts,
    members: &Facts,
    cpus: u32,
    t: TaskNo,
    r: u64,
    m: u64,
    at: Option<CpuNo>,
) -> bool
    ensures { (j : History) → KnowsFacts j facts.now → KnowsMembers j members.now → cpus ≡ j.cpus → (seat index : ℕ)
        → IsTrue result ↔ MaskedAndStood j seat index (entry.Stood t r m at) }
{
    if !stood_at(facts, t, m, at) {
        return false;
    }
    mask_allows(facts, members, cpus, t, r, at)
}

/// Whether a task's masks are numbered from 1 and none is empty, and a task stood where its change left it, and
/// its mask allows that.
pub fn masked_and_stood(
    journals: &Journals,
    facts: &Facts,
    members: &Facts,
    seat: SeatNo,
    index: u64,
    entry: Entry,
) -> bool
    requires facts { KnowsFacts journals.now facts.now }
    requires members { KnowsMembers journals.now members.now }
    ensures { IsTrue result ↔ MaskedAndStood journals.now seat index entry }
{
    let cpus = journals.cpus;
    match entry {
        Entry::Mask { t, r, mask } => may_mask(facts, t, r, mask),
        Entry::Stood { t, r, m, at } => may_stand(facts, members, cpus, t, r, m, at),
        _ => true,
    }
}

/// Whether the request that made mask `r` of the task may be done at this place.
fn may_be_done(facts: &Facts, t: TaskNo, r: u64, seat: SeatNo, index: u64) -> bool
    ensures { (j : History) → KnowsFacts j facts.now → IsTrue result ↔ DoneStood j seat index (entry.Done t r) }
{
    if !is_masked_before(facts, t, r, seat, index) {
        return false;
    }
    is_stood_from(facts, t, r)
}

/// Whether a request is done after its mask was set, and the task stood under that mask or a later one.
pub fn done_stood(
    journals: &Journals,
    facts: &Facts,
    seat: SeatNo,
    index: u64,
    entry: Entry,
) -> bool
    requires { KnowsFacts journals.now facts.now }
    ensures { IsTrue result ↔ DoneStood journals.now seat index entry }
{
    match entry {
        Entry::Done { t, r } => may_be_done(facts, t, r, seat, index),
        _ => true,
    }
}
