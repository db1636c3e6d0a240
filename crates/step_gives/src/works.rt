//! Giving the works of a stopper.

ghost use Rattle.std.specs.Prelude.{◌≡◌, ◌↔◌, IsTrue};
ghost use Rattle.core_data.specs.Columns.{Columns, columns};
ghost use Rattle.core_kinds.specs.Locks.{MayGiveWorks};

use core_data::{Core, WorksVal};
use handoff_data::{CpuNo, SeatNo};
use step_stores::{cpus, seats, works_lock, works_out};

/// Whether two lists have the same works.
fn is_same(a: &WorksVal, b: &WorksVal) -> bool
    ensures { IsTrue result ↔ (a.now ≡ b.now) }
{
    a.items == b.items
}

/// Whether seat s may give the lock of the works of processor c with this value: it has the lock, and the works are
/// those that it took.
pub fn may_give_works(core: &Core, s: SeatNo, c: CpuNo, val: &WorksVal) -> bool
    ensures { IsTrue result ↔ MayGiveWorks (columns core.now) s c val.now }
{
    if (s as usize) >= seats(core) || (c as usize) >= cpus(core) {
        return false;
    }
    if works_lock(core, c) != Some(s) {
        return false;
    }
    match works_out(core, s, c) {
        Some(taken) => is_same(taken, val),
        None => false,
    }
}
