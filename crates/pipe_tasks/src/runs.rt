ghost use Rattle.std.specs.Prelude.{◌≡◌, [], IfOk};
ghost use Rattle.task_script.specs.Plan.{sides};
ghost use Rattle.pipe_tasks.specs.Plans.{lines_of};

use crate::steps::{end_plan, make_line, step_plan};
use handoff_data::{Lines, NoMemory};
use std::alloc::Global;
use task_script::Plan;

// All lines of a source.
pub(crate) fn run_source(alloc: Global, plan: Plan) -> Result<Lines, NoMemory>
    requires { sides plan ≡ 0 }
    ensures { IfOk result (λ r. r ≡ lines_of plan [] []) }
{
    match plan {
        Plan::Lines { left } => Ok(left),
        plan => make_all(alloc, plan),
    }
}

fn make_all(alloc: Global, plan: Plan) -> Result<Lines, NoMemory>
    requires { sides plan ≡ 0 }
    ensures { IfOk result (λ r. r ≡ lines_of plan [] []) }
{
    let mut plan = plan;
    let mut out = Lines::new(alloc);
    while let Some(line) = make_line(alloc, &mut plan)? {
        out.push(line)?;
    }
    Ok(out)
}

// All lines of a plan that reads one side, of the lines of that side. Lines are taken from the front of the queue, and
// what the plan says is put at its end.
pub(crate) fn run_plan(alloc: Global, plan: Plan, lines: Lines) -> Result<Lines, NoMemory>
    requires { sides plan ≡ 1 }
    ensures { IfOk result (λ r. r ≡ lines_of plan lines []) }
{
    let mut plan = plan;
    let mut lines = lines;
    let count = lines.len();
    for _taken in 0..count {
        let Some(line) = lines.pop() else {
            unreachable!()
        };
        step_plan(alloc, &mut plan, 0, line, &mut lines)?;
    }
    end_plan(alloc, &mut plan, 0, &mut lines)?;
    Ok(lines)
}
