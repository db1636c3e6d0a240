//! A work that counts its lines.
use handoff_data::{Line, Lines, NoMemory};
use pipe_tasks::end_plan;
use std::alloc::Global;
use task_script::Plan;
use wk_run::Work;

/// A work that puts out how many lines there were, as the task `tally` does. Its state is the count so far.
#[derive(Drop)]
pub struct CountLines {
    alloc: Global,
    count: u64,
}

impl CountLines {
    ghost use Rattle.std.specs.Prelude.{◌≡◌};
    ghost use Rattle.task_script.specs.declared.plan.Plan.TheVariants as plan;

    /// The work before its first line. No memory is taken.
    pub fn new(alloc: Global) -> CountLines
        ensures { ⟦<CountLines as Work>⟧.meaning result ≡ plan.Tally 0 }
    {
        CountLines { alloc, count: 0 }
    }
}

impl Work for CountLines {
    ghost use Rattle.task_script.specs.declared.plan.Plan.TheVariants as plan;

    // A caller says what the work means: the count so far is the plan's.
    ghost meaning = { λ w. plan.Tally w.count };

    fn eat(&mut self, _line: &Line, _out: &mut Lines) -> Result<(), NoMemory> {
        self.count = self.count.saturating_add(1);
        Ok(())
    }

    fn end(&mut self, out: &mut Lines) -> Result<(), NoMemory> {
        end_plan(self.alloc, &mut Plan::Tally { n: self.count }, 0, out)?;
        Ok(())
    }

    fn has_one_side(&self) {}
}
