//! Rule 1: what an entry names is in range.

ghost use Rattle.std.specs.Prelude.{◌≡◌, ◌<◌, ◌↔◌, ℕ, true, IfSome, IsTrue};
ghost use Rattle.handoff_data.specs.Mask.{HasCpu};
ghost use Rattle.handoff_data.specs.Rules.{InRange};

use handoff_data::{CpuMask, CpuNo, Entry, Journals, SeatNo, TaskNo};

/// Whether each processor of the mask is below `cpus`.
fn mask_is_below(mask: CpuMask, cpus: u32) -> bool
    ensures { IsTrue result ↔ ((c : ℕ) → HasCpu mask c → c < cpus) }
{
    for c in cpus..mask.limit() {
        if mask.contains(c) {
            return false;
        }
    }
    true
}

/// Whether the task and the processor are in range.
fn are_in(journals: &Journals, t: TaskNo, c: CpuNo) -> bool
    ensures { IsTrue result ↔ ((t < journals.now.tasks) × (c < journals.now.cpus)) }
{
    t < journals.tasks && c < journals.cpus
}

/// Whether the task and the processor are in range, and the processor's own journal is that of the seat.
fn are_own(journals: &Journals, t: TaskNo, c: CpuNo, seat: SeatNo) -> bool
    ensures { IsTrue result ↔ ((t < journals.now.tasks) × (c < journals.now.cpus) × (c ≡ seat)) }
{
    t < journals.tasks && c < journals.cpus && c == seat
}

/// Whether a queueing is in range.
fn is_queueing_in(journals: &Journals, t: TaskNo, c: CpuNo, by_list: bool, seat: SeatNo) -> bool
    ensures { IsTrue result ↔ ((t < journals.now.tasks) × (c < journals.now.cpus) × (by_list ≡ true → c ≡ seat)) }
{
    t < journals.tasks && c < journals.cpus && (!by_list || c == seat)
}

/// Whether the task is in range, and so is the place where it stood.
fn is_place_in(journals: &Journals, t: TaskNo, at: Option<CpuNo>) -> bool
    ensures { IsTrue result ↔ ((t < journals.now.tasks) × IfSome at (λ c. c < journals.now.cpus)) }
{
    match at {
        Some(c) => are_in(journals, t, c),
        None => t < journals.tasks,
    }
}

/// Whether the task is in range, and so is its mask.
fn is_mask_in(journals: &Journals, t: TaskNo, mask: CpuMask) -> bool
    ensures { IsTrue result ↔ ((t < journals.now.tasks) × ((c : ℕ) → HasCpu mask c → c < journals.now.cpus)) }
{
    t < journals.tasks && mask_is_below(mask, journals.cpus)
}

/// Whether the processor is in range, and its own journal is that of the seat.
fn is_own(journals: &Journals, c: CpuNo, seat: SeatNo) -> bool
    ensures { IsTrue result ↔ ((c < journals.now.cpus) × (c ≡ seat)) }
{
    c < journals.cpus && c == seat
}

/// Whether tasks, processors and masks are in range, and what only a processor itself does stands in its own
/// journal.
pub fn in_range(journals: &Journals, seat: SeatNo, index: u64, entry: Entry) -> bool
    ensures { IsTrue result ↔ InRange journals.now seat index entry }
{
    match entry {
        Entry::New { t, c, .. } => are_in(journals, t, c),
        Entry::List { t, c, .. } => are_in(journals, t, c),
        Entry::Out { t, c, .. } => are_in(journals, t, c),
        Entry::In { t, c, .. } => are_in(journals, t, c),
        Entry::Enq { t, c, by_list, .. } => is_queueing_in(journals, t, c, by_list, seat),
        Entry::Sleep { t, c, .. } => are_own(journals, t, c, seat),
        Entry::Die { t, c, .. } => are_own(journals, t, c, seat),
        Entry::Pick { t, c, .. } => are_own(journals, t, c, seat),
        Entry::Finish { t, c, .. } => are_own(journals, t, c, seat),
        Entry::Wake { t, .. } => t < journals.tasks,
        Entry::Done { t, .. } => t < journals.tasks,
        Entry::Refused { t, .. } => t < journals.tasks,
        Entry::Mask { t, mask, .. } => is_mask_in(journals, t, mask),
        Entry::Stood { t, at, .. } => is_place_in(journals, t, at),
        Entry::Offline { c, .. } => is_own(journals, c, seat),
        Entry::Up { c, .. } => is_own(journals, c, seat),
    }
}
