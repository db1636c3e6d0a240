//! The end of a run: the journals are one legal history, and the bodies have put out what the tasks say.
ghost use Rattle.std.specs.Prelude.{◌≡◌, ◌+◌, map, All, IfOk};
ghost use Rattle.handoff_data.specs.Legal.{IsLegal};
ghost use Rattle.pipe_tasks.specs.Tasks.{forest_lines};
ghost use Rattle.pipe_bodies.specs.Nets.{begun_tasks};
ghost use Rattle.run_cells.specs.Ends.{IsTableOf, AllDied, kept_of};
ghost use Rattle.task_words.specs.Closing.{IsDone, journals_in};
ghost use Rattle.task_words.specs.Views.{IsOf};
ghost use Rattle.word_table.specs.End.{HasEachSeat};

use crate::cell::{Cell, into_bodies};
use handoff_data::{Lines, NoMemory};
use pipe_bodies::{Work, law_lastings, settle};
use std::alloc::Global;
use task_script::TaskDef;
use task_words::{Pass, Wk};

/// Ends a run whose tasks have all died: what each body kept, which are the lines of the tasks with the plans with
/// which their bodies began, or NoMemory. The journals of the passes are one legal history. The table began with bodies
/// that were joined as the tasks say; each seat's pass is there, in any order, and has given all back.
pub fn finish_run<W: Work>(
    alloc: Global,
    tasks: &[TaskDef],
    wk: Wk<Cell<W>>,
    passes: Vec<Pass>,
) -> Result<Vec<Lines>, NoMemory>
    requires of { All (IsOf wk) passes.items }
    requires all { HasEachSeat (wk.shape.cpus + wk.shape.agents) (map (λ p. p.seat) passes.items) }
    requires done { All IsDone passes.items }
    requires table { IsTableOf tasks.now wk.lasting }
    requires died { AllDied (journals_in wk.shape passes.items) wk.shape.tasks }
    ensures lines { IfOk result (λ r. r.items ≡ forest_lines (begun_tasks tasks.now (kept_of wk.lasting))) }
    ensures legal { IsLegal (journals_in wk.shape passes.items) }
{
    law_lastings();
    let closed = wk.close(passes);
    let bodies = into_bodies(alloc, closed.bodies)?;
    settle(alloc, tasks, bodies)
}
