ghost use Rattle.std.specs.Prelude.{◌≡◌, [], Some, IfOk, if◌then◌else◌};
ghost use Rattle.task_script.specs.Plan.{sides};
ghost use Rattle.pipe_tasks.specs.Plans.{wants, lines_of};
ghost use Rattle.pipe_tasks.specs.Joins.{Advances};

use crate::steps::{end_plan, step_plan};
use handoff_data::{Lines, NoMemory};
use std::alloc::Global;
use task_script::Plan;

// All lines of a plan that reads two sides, of the lines of each.
pub(crate) fn run_join(
    alloc: Global,
    plan: Plan,
    first: Lines,
    second: Lines,
) -> Result<Lines, NoMemory>
    requires { sides plan ≡ 2 }
    ensures { IfOk result (λ r. r ≡ lines_of plan first second) }
{
    let mut plan = plan;
    let mut first = first;
    let mut second = second;
    let mut out = Lines::new(alloc);
    'items: loop {
        let goes_on = advance(alloc, &mut plan, &mut first, &mut second, &mut out)?;
        if !goes_on {
            return Ok(out);
        }
    }
}

// Gives a plan one item of the side that it wants, and answers whether the plan goes on.
fn advance(
    alloc: Global,
    plan: &mut Plan,
    first: &mut Lines,
    second: &mut Lines,
    out: &mut Lines,
) -> Result<bool, NoMemory>
    requires { sides plan.old ≡ 2 }
    ensures { IfOk result
        (λ on. Advances plan.old first.old second.old out.old on plan.new first.new second.new out.new) }
{
    if wants_first(plan) {
        match first.pop() {
            Some(line) => {
                step_plan(alloc, plan, 0, line, out)?;
                Ok(true)
            }
            None => end_plan(alloc, plan, 0, out),
        }
    } else {
        match second.pop() {
            Some(line) => {
                step_plan(alloc, plan, 1, line, out)?;
                Ok(true)
            }
            None => end_plan(alloc, plan, 1, out),
        }
    }
}

fn wants_first(plan: &Plan) -> bool
    requires { sides plan.now ≡ 2 }
    ensures { wants plan.now ≡ (if result then Some 0 else Some 1) }
{
    match plan {
        Plan::Cat { side } | Plan::Weave { side, .. } => *side == 0,
        _ => unreachable!(),
    }
}
