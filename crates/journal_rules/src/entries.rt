//! Entries at their places, and their numbers.

ghost use Rattle.std.specs.Prelude.{◌≡◌, ◌↔◌, ℕ, IsTrue};
ghost use Rattle.handoff_data.specs.declared.entry.Entry.TheVariants as variant;
ghost use Rattle.handoff_data.specs.Numbers.{change_of as change_spec, run_of as run_spec};
ghost use Rattle.handoff_data.specs.Positions.{entry_at as entry_spec};

use handoff_data::{Entry, Journals, SeatNo, TaskNo};

/// What stands at the index of this seat's journal, if anything.
pub fn entry_at(journals: &Journals, seat: SeatNo, index: u64) -> Option<Entry>
    ensures { result ≡ entry_spec journals.now seat index }
{
    let journal = journals.seats.get(seat as usize)?;
    journal.as_slice().get(index as usize).copied()
}

/// The task and the number of a change, which is an entry of the task's `on_rq` word.
pub fn change_of(entry: Entry) -> Option<(TaskNo, u64)>
    ensures { result ≡ change_spec entry }
{
    match entry {
        Entry::New { t, m, .. }
        | Entry::Sleep { t, m, .. }
        | Entry::Enq { t, m, .. }
        | Entry::Out { t, m, .. }
        | Entry::In { t, m, .. }
        | Entry::Die { t, m, .. } => Some((t, m)),
        _ => None,
    }
}

/// The task and the number of a run entry, which is an entry of the task's `on_cpu` word.
pub fn run_of(entry: Entry) -> Option<(TaskNo, u64)>
    ensures { result ≡ run_spec entry }
{
    match entry {
        Entry::Pick { t, n, .. } | Entry::Finish { t, n, .. } => Some((t, n)),
        _ => None,
    }
}

/// Whether the entry is a pick.
pub fn is_pick(entry: Entry) -> bool
    ensures { IsTrue result ↔ ((t n c : ℕ) × (entry ≡ variant.Pick t n c)) }
{
    matches!(entry, Entry::Pick { .. })
}
