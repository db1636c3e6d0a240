//! How a table begins: no seat has a current task.
ghost use Rattle.std.specs.Prelude.{◌≡◌, ◌<◌, ◌≤◌, IfOk};
ghost use Rattle.std.specs.List.{All};
ghost use Rattle.task_words.specs.Views.{IsOf};
ghost use Rattle.uses_switch.specs.Seated.{IsIdle};

use crate::bodies::Turns;
use handoff_data::{NoMemory, Shape};
use std::alloc::Global;
use task_words::{Pass, Wk};

/// A table of so many processors, tasks and conditions, each body with so many turns to run, and the passes of its
/// processors in their order. `NoMemory` comes where memory is refused.
#[tactic(auto, using(crate::proofs::Opened::firsts_idle))]
pub fn begin(
    alloc: Global,
    cpus: u32,
    tasks: u32,
    conds: u32,
    turns: u32,
) -> Result<(Wk<Turns>, Vec<Pass>), NoMemory>
    requires cpus { (0 < cpus) × (cpus ≤ 16) }
    requires tasks { tasks ≤ 200 }
    requires conditions { conds ≤ 400 }
    ensures of { IfOk result (λ r. All (IsOf r.0) r.1.items) }
    ensures idle { IfOk result (λ r. All IsIdle r.1.items) }
    ensures cpus { IfOk result (λ r. r.0.shape.cpus ≡ cpus) }
    ensures tasks { IfOk result (λ r. r.0.shape.tasks ≡ tasks) }
    ensures conditions { IfOk result (λ r. r.0.shape.conds ≡ conds) }
    ensures agents { IfOk result (λ r. r.0.shape.agents ≡ 0) }
{
    let shape = Shape {
        cpus,
        caches: cpus,
        tasks,
        conds,
        agents: 0,
    };
    let bodies = Vec::from_elem(alloc, Turns { left: turns }, tasks as usize)?;
    Wk::new(alloc, &shape, bodies)
}
