//! A table to switch on.
ghost use Rattle.std.specs.Prelude.{◌≡◌, ◌<◌, ◌≤◌, IfSome};
ghost use Rattle.bench_switch.specs.Ready.{IsUnused};

use std::alloc::Global;
use task_words::{Pass, Wk};
use uses_switch::{Turns, begin};

/// A table of one processor, and so many tasks and conditions, with the pass of its seat.
pub fn lone_table(alloc: Global, tasks: u32, conds: u32) -> Option<(Wk<Turns>, Pass)>
    requires tasks { tasks ≤ 200 }
    requires conds { conds ≤ 400 }
    ensures unused { IfSome result (λ r. IsUnused r.0 r.1) }
    ensures tasks { IfSome result (λ r. r.0.shape.tasks ≡ tasks) }
    ensures conds { IfSome result (λ r. r.0.shape.conds ≡ conds) }
{
    let Ok((wk, mut passes)) = begin(alloc, 1, tasks, conds, 1) else {
        return None;
    };
    let Some(pass) = passes.pop() else {
        return None;
    };
    if pass.seat() != 0 {
        return None;
    }
    Some((wk, pass))
}
