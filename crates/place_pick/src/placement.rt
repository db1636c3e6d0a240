//! Placement by masks of processors. In each call `cpus_ptr` is the task's allowed pointer, `disabled` whether the task
//! is migration-disabled, and `active` and `online` are the processors that take tasks and those that are up.

ghost use Rattle.std.specs.Prelude.{ℕ, IsTrue, IsNone, IfSome, ◌↔◌, if◌then◌else◌};
ghost use Rattle.handoff_data.specs.Mask.{HasCpu};
ghost use Rattle.place_pick.specs.Placement.{IsAllowed, HasAllowed, HasNoAllowed, IsSelected, IsPlaced};

use handoff_data::{CpuMask, CpuNo};

// The processors that the task may be put on.
fn allowed_cpus(cpus_ptr: &CpuMask, disabled: bool, active: &CpuMask, online: &CpuMask) -> CpuMask
    ensures { (k : ℕ) → HasCpu result k ↔ IsAllowed k cpus_ptr.now disabled active.now online.now }
{
    if disabled {
        cpus_ptr.and(online)
    } else {
        cpus_ptr.and(active)
    }
}

/// Whether the task may be put on processor `c`. After `is_cpu_allowed` of Linux's `kernel/sched/core.c`, for a task
/// that is no kernel thread.
pub fn allowed(
    c: CpuNo,
    cpus_ptr: &CpuMask,
    disabled: bool,
    active: &CpuMask,
    online: &CpuMask,
) -> bool
    ensures { IsTrue result ↔ IsAllowed c cpus_ptr.now disabled active.now online.now }
{
    allowed_cpus(cpus_ptr, disabled, active, online).contains(c)
}

/// The processor on which a task is put that was last on `prev`: `prev` where that is allowed, and else the lowest that
/// is. None exactly where none is allowed. After `select_task_rq` of Linux's `kernel/sched/core.c`; where
/// `select_idle_sibling` of `kernel/sched/fair.c` looks for an idle processor near the last one, the last one is kept.
pub fn select(
    prev: CpuNo,
    cpus_ptr: &CpuMask,
    disabled: bool,
    active: &CpuMask,
    online: &CpuMask,
) -> Option<CpuNo>
    ensures selected { IfSome result (IsSelected prev cpus_ptr.now disabled active.now online.now) }
    ensures none { IsNone result ↔ HasNoAllowed cpus_ptr.now disabled active.now online.now }
{
    let cpus = allowed_cpus(cpus_ptr, disabled, active, online);
    if cpus.contains(prev) {
        Some(prev)
    } else {
        cpus.lowest()
    }
}

/// The processor on which a task is put that was last on `prev`, and the mask to which the task's is widened: what
/// `select` gives, with the mask as it is (None); and where none is allowed the lowest active processor, with
/// `possible`. After `select_fallback_rq` of Linux's `kernel/sched/core.c`, without its steps by node and cpuset.
///
/// Processor 0 has to be active, so that there is one to fall back on. A migration-disabled task has to be allowed
/// somewhere, and keeps its mask.
pub fn fallback(
    prev: CpuNo,
    cpus_ptr: &CpuMask,
    disabled: bool,
    active: &CpuMask,
    online: &CpuMask,
    possible: &CpuMask,
) -> (CpuNo, Option<CpuMask>)
    requires first_active { HasCpu active.now 0 }
    requires pinned_allowed { IsTrue disabled → HasAllowed cpus_ptr.now disabled active.now online.now }
    ensures placed { IsPlaced prev cpus_ptr.now disabled active.now online.now possible.now result.0 result.1 }
    ensures pinned { IsTrue disabled → IsNone result.1 }
    ensures usable { HasCpu (if disabled then online.now else active.now) result.0 }
{
    match select(prev, cpus_ptr, disabled, active, online) {
        Some(c) => (c, None),
        None => (active.lowest().unwrap(), Some(*possible)),
    }
}
