//! A table to wake tasks on.
ghost use Rattle.std.specs.Prelude.{◌≡◌, ◌≤◌, IfSome};
ghost use Rattle.bench_wake.specs.Ready.{IsReady};

use std::alloc::Global;
use task_words::{Pass, Wk};
use uses_words::one_seat;

/// A table of one processor, and so many tasks and conditions, with the pass of its seat.
pub fn lone_table(alloc: Global, tasks: u32, conds: u32) -> Option<(Wk<()>, Pass)>
    requires tasks { tasks ≤ 200 }
    requires conds { conds ≤ 400 }
    ensures ready { IfSome result (λ r. IsReady r.0 r.1) }
    ensures tasks { IfSome result (λ r. r.0.shape.tasks ≡ tasks) }
    ensures conds { IfSome result (λ r. r.0.shape.conds ≡ conds) }
{
    one_seat(alloc, tasks, conds, ())
}
