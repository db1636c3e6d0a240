//! How a table begins: every seat stands between two calls.
ghost use Rattle.std.specs.Prelude.{◌≡◌, ◌+◌, ◌<◌, ◌≤◌, map, IfOk, IfSome};
ghost use Rattle.std.specs.List.{All};
ghost use Rattle.task_words.specs.End.{HasEachSeat};
ghost use Rattle.task_words.specs.Seats.{IsBetween};
ghost use Rattle.task_words.specs.Views.{IsOf};

use handoff_data::{NoMemory, Shape};
use std::alloc::Global;
use task_words::{Kept, Pass, Wk};

/// A table of so many processors, tasks with such a body each, and conditions, and the passes of its processors in
/// their order; NoMemory where there is none for it.
pub fn begin<B: Kept + Copy>(
    alloc: Global,
    cpus: u32,
    tasks: u32,
    conds: u32,
    body: B,
) -> Result<(Wk<B>, Vec<Pass>), NoMemory>
    requires cpus { (0 < cpus) × (cpus ≤ 16) }
    requires tasks { tasks ≤ 200 }
    requires conditions { conds ≤ 400 }
    ensures of { IfOk result (λ r. All (IsOf r.0) r.1.items) }
    ensures each { IfOk result (λ r. HasEachSeat (r.0.shape.cpus + r.0.shape.agents) (map (λ p. p.seat) r.1.items)) }
    ensures between { IfOk result (λ r. All IsBetween r.1.items) }
    ensures cpus { IfOk result (λ r. r.0.shape.cpus ≡ cpus) }
    ensures tasks { IfOk result (λ r. r.0.shape.tasks ≡ tasks) }
    ensures conditions { IfOk result (λ r. r.0.shape.conds ≡ conds) }
    ensures agents { IfOk result (λ r. r.0.shape.agents ≡ 0) }
{
    let shape = Shape {
        cpus,
        caches: cpus,
        tasks,
        conds,
        agents: 0,
    };
    let bodies = Vec::from_elem(alloc, body, tasks as usize)?;
    Wk::new(alloc, &shape, bodies)
}

/// A table of one processor, with the pass of its seat; None where there is no memory for it.
pub fn one_seat<B: Kept + Copy>(
    alloc: Global,
    tasks: u32,
    conds: u32,
    body: B,
) -> Option<(Wk<B>, Pass)>
    requires tasks { tasks ≤ 200 }
    requires conditions { conds ≤ 400 }
    ensures of { IfSome result (λ r. IsOf r.0 r.1) }
    ensures between { IfSome result (λ r. IsBetween r.1) }
    ensures first { IfSome result (λ r. r.1.seat ≡ 0) }
    ensures cpus { IfSome result (λ r. r.0.shape.cpus ≡ 1) }
    ensures agents { IfSome result (λ r. r.0.shape.agents ≡ 0) }
    ensures tasks { IfSome result (λ r. r.0.shape.tasks ≡ tasks) }
    ensures conditions { IfSome result (λ r. r.0.shape.conds ≡ conds) }
{
    let Ok((wk, mut passes)) = begin(alloc, 1, tasks, conds, body) else {
        return None;
    };
    let Some(pass) = passes.pop() else {
        return None;
    };
    if pass.seat() != 0 {
        return None;
    }
    Some((wk, pass))
}

/// A table of two processors, with the passes of their seats; None where there is no memory for it.
pub fn two_seats<B: Kept + Copy>(
    alloc: Global,
    tasks: u32,
    conds: u32,
    body: B,
) -> Option<(Wk<B>, Pass, Pass)>
    requires tasks { tasks ≤ 200 }
    requires conditions { conds ≤ 400 }
    ensures of { IfSome result (λ r. IsOf r.0 r.1 × IsOf r.0 r.2) }
    ensures between { IfSome result (λ r. IsBetween r.1 × IsBetween r.2) }
    ensures seats { IfSome result (λ r. (r.1.seat ≡ 0) × (r.2.seat ≡ 1)) }
    ensures cpus { IfSome result (λ r. r.0.shape.cpus ≡ 2) }
    ensures agents { IfSome result (λ r. r.0.shape.agents ≡ 0) }
    ensures tasks { IfSome result (λ r. r.0.shape.tasks ≡ tasks) }
    ensures conditions { IfSome result (λ r. r.0.shape.conds ≡ conds) }
{
    let Ok((wk, mut passes)) = begin(alloc, 2, tasks, conds, body) else {
        return None;
    };
    let (Some(second), Some(first)) = (passes.pop(), passes.pop()) else {
        return None;
    };
    if first.seat() != 0 || second.seat() != 1 {
        return None;
    }
    Some((wk, first, second))
}
