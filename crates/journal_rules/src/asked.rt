//! Questions to the facts, in the words of the rules. Each answer holds of whatever journals the facts are of.

ghost use Rattle.std.specs.Prelude.{◌≡◌, ◌≤◌, ◌↔◌, ℕ, Option, IsTrue};
ghost use Rattle.handoff_data.specs.declared.entry.Entry.TheVariants as entry;
ghost use Rattle.handoff_data.specs.declared.mask.CpuMask.{CpuMask};
ghost use Rattle.handoff_data.specs.History.{History};
ghost use Rattle.handoff_data.specs.Mask.{HasCpu};
ghost use Rattle.handoff_data.specs.Positions.{IsIn, IsBefore, IsSomewhere};
ghost use Rattle.handoff_data.specs.Rules.{IsQueued, IsSleep, IsListed};
ghost use Rattle.journal_rules.specs.Known.{KnowsFacts, KnowsMembers};

use handoff_data::{CpuNo, SeatNo, TaskNo};
use journal_facts::{Facts, Kind, is_told, is_told_before, is_told_from, is_told_on};

/// Whether change `m` of the task put it on the queue of the processor.
pub fn is_queued(facts: &Facts, t: TaskNo, m: u64, c: CpuNo) -> bool
    ensures { (j : History) → KnowsFacts j facts.now → IsTrue result ↔ IsQueued j t m c }
{
    is_told_on(facts, Kind::Queued, t, m, c)
}

/// Whether the task went to sleep by its change `m`.
pub fn is_sleep(facts: &Facts, t: TaskNo, m: u64) -> bool
    ensures { (j : History) → KnowsFacts j facts.now → IsTrue result ↔ IsSleep j t m }
{
    is_told(facts, Kind::Slept, t, m)
}

/// Whether the task went to sleep by its change `m` on the processor.
pub fn is_sleep_on(facts: &Facts, t: TaskNo, m: u64, c: CpuNo) -> bool
    ensures { (j : History) → KnowsFacts j facts.now → IsTrue result ↔ IsSomewhere j (entry.Sleep t m c) }
{
    is_told_on(facts, Kind::Slept, t, m, c)
}

/// Whether the task ended by its change `m`.
pub fn is_end(facts: &Facts, t: TaskNo, m: u64) -> bool
    ensures { (j : History) → KnowsFacts j facts.now → IsTrue result ↔ ((c : ℕ) × IsSomewhere j (entry.Die t m c)) }
{
    is_told(facts, Kind::Died, t, m)
}

/// Whether the task ended by its change `m` on the processor.
pub fn is_end_on(facts: &Facts, t: TaskNo, m: u64, c: CpuNo) -> bool
    ensures { (j : History) → KnowsFacts j facts.now → IsTrue result ↔ IsSomewhere j (entry.Die t m c) }
{
    is_told_on(facts, Kind::Died, t, m, c)
}

/// Whether change `m` of the task took it off a queue, in the journal of this seat.
pub fn is_out_in(facts: &Facts, t: TaskNo, m: u64, seat: SeatNo) -> bool
    ensures { (j : History) → KnowsFacts j facts.now → IsTrue result ↔ ((c : ℕ) × IsIn j seat (entry.Out t m c)) }
{
    is_told_before(facts, Kind::Left, t, m, 0, seat, 1)
}

/// Whether the wake from sleep `m` of the task stands before the index of this journal.
pub fn is_woken_before(facts: &Facts, t: TaskNo, m: u64, seat: SeatNo, index: u64) -> bool
    ensures { (j : History) → KnowsFacts j facts.now → IsTrue result ↔ IsBefore j seat index (entry.Wake t m) }
{
    is_told_before(facts, Kind::Wake, t, m, 0, seat, index)
}

/// Whether some entry lists the task after its change `m`.
pub fn is_listed(facts: &Facts, t: TaskNo, m: u64) -> bool
    ensures { (j : History) → KnowsFacts j facts.now → IsTrue result ↔ IsListed j t m }
{
    is_told(facts, Kind::Listing, t, m)
}

/// Whether some entry lists the task after its change `m` to the processor.
pub fn is_listed_to(facts: &Facts, t: TaskNo, m: u64, c: CpuNo) -> bool
    ensures { (j : History) → KnowsFacts j facts.now → IsTrue result ↔ ((e : ℕ) × IsSomewhere j (entry.List t m c e)) }
{
    is_told_on(facts, Kind::ListedTo, t, m, c)
}

/// Whether run `n` of the task is a finish.
pub fn is_finish(facts: &Facts, t: TaskNo, n: u64) -> bool
    ensures { (j : History) → KnowsFacts j facts.now → IsTrue result ↔ ((c : ℕ) × IsSomewhere j (entry.Finish t n c)) }
{
    is_told(facts, Kind::Finished, t, n)
}

/// Whether run `n` of the task is a pick on the processor that stands before the index of this journal.
pub fn is_picked_before(
    facts: &Facts,
    t: TaskNo,
    n: u64,
    c: CpuNo,
    seat: SeatNo,
    index: u64,
) -> bool
    ensures { (j : History) → KnowsFacts j facts.now → IsTrue result ↔ IsBefore j seat index (entry.Pick t n c) }
{
    is_told_before(facts, Kind::Picked, t, n, c, seat, index)
}

/// Whether the task has a mask of this number.
pub fn is_masked(facts: &Facts, t: TaskNo, r: u64) -> bool
    ensures { (j : History) → KnowsFacts j facts.now → IsTrue result
        ↔ ((mask : CpuMask) × IsSomewhere j (entry.Mask t r mask)) }
{
    is_told(facts, Kind::Mask, t, r)
}

/// Whether mask `r` of the task stands before the index of this journal.
pub fn is_masked_before(facts: &Facts, t: TaskNo, r: u64, seat: SeatNo, index: u64) -> bool
    ensures { (j : History) → KnowsFacts j facts.now → IsTrue result
        ↔ ((mask : CpuMask) × IsBefore j seat index (entry.Mask t r mask)) }
{
    is_told_before(facts, Kind::Mask, t, r, 0, seat, index)
}

/// Whether the task stood under a mask of at least this number.
pub fn is_stood_from(facts: &Facts, t: TaskNo, r: u64) -> bool
    ensures { (j : History) → KnowsFacts j facts.now → IsTrue result
        ↔ ((r' m : ℕ) × (at : Option ℕ) × (r ≤ r') × IsSomewhere j (entry.Stood t r' m at)) }
{
    is_told_from(facts, Kind::Stood, t, r)
}

/// Whether mask `r` of the task has the processor, by the list of the processors that masks have.
pub fn is_member(members: &Facts, t: TaskNo, r: u64, c: CpuNo) -> bool
    ensures { (j : History) → KnowsMembers j members.now → IsTrue result
        ↔ ((mask : CpuMask) × IsSomewhere j (entry.Mask t r mask) × HasCpu mask c) }
{
    is_told_on(members, Kind::Member, t, r, c)
}
