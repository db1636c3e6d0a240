//! A table to step on.
ghost use Rattle.std.specs.Prelude.{◌≡◌, ◌<◌, ◌≤◌, IfOk, IfSome};
ghost use Rattle.std.specs.List.{All};
ghost use Rattle.bench_steps.specs.Small.{IsSmall};
ghost use Rattle.task_words.specs.Seats.{IsBetween};
ghost use Rattle.task_words.specs.Views.{IsOf};

use handoff_data::NoMemory;
use std::alloc::Global;
use task_words::{Pass, Wk};
use uses_words::{begin, one_seat};

/// A table of so many processors and tasks, and of one condition, with the passes of its seats. Answers `NoMemory`
/// where memory runs out.
pub fn small_table(alloc: Global, cpus: u32, tasks: u32) -> Result<(Wk<()>, Vec<Pass>), NoMemory>
    requires cpus { (0 < cpus) × (cpus ≤ 16) }
    requires tasks { (0 < tasks) × (tasks ≤ 200) }
    ensures of { IfOk result (λ r. All (IsOf r.0) r.1.items) }
    ensures between { IfOk result (λ r. All IsBetween r.1.items) }
    ensures small { IfOk result (λ r. IsSmall r.0.shape) }
    ensures tasks { IfOk result (λ r. r.0.shape.tasks ≡ tasks) }
    ensures cpus { IfOk result (λ r. r.0.shape.cpus ≡ cpus) }
{
    begin(alloc, cpus, tasks, 1, ())
}

/// A table of one processor, one task and one condition, with the pass of its seat.
pub fn small_seat(alloc: Global) -> Option<(Wk<()>, Pass)>
    ensures of { IfSome result (λ r. IsOf r.0 r.1) }
    ensures between { IfSome result (λ r. IsBetween r.1) }
    ensures small { IfSome result (λ r. IsSmall r.0.shape) }
{
    one_seat(alloc, 1, 1, ())
}
