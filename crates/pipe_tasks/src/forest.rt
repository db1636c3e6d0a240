ghost use Rattle.std.specs.Prelude.{◌≡◌, ◌≢◌, ◌<◌, [], length, All, AllPairs, IfOk, OnOk, slice_index_or, slice_set};
ghost use Rattle.task_script.specs.Plan.{sides};
ghost use Rattle.task_script.specs.Forest.{IsForest};
ghost use Rattle.pipe_tasks.specs.Plans.{lines_of};
ghost use Rattle.pipe_tasks.specs.Tasks.{first_input, second_input, emptied, forest_lines};

use crate::joins::run_join;
use crate::runs::{run_plan, run_source};
use handoff_data::{Lines, NoMemory, TaskNo};
use std::alloc::Global;
use std::mem;
use task_script::{Plan, Script, TaskDef};

/// Runs the tasks of a script one after another, each to its end before the next begins, and answers the lines of each
/// task that no other reads, with no lines in the place of a task that is read. Each task is evaluated once: its lines
/// are moved to its reader, which frees those that it doesn't pass on. Answers `NoMemory` where memory runs out.
pub fn run_forest(alloc: Global, script: Script) -> Result<Vec<Lines>, NoMemory>
    requires { IsForest script.tasks }
    ensures { IfOk result (λ r. r.items ≡ forest_lines script.tasks) }
{
    let Script { tasks, .. } = script;
    let tasks = tasks.into_vec();
    let mut done = Vec::with_capacity(alloc, tasks.len())?;
    for task in tasks {
        let TaskDef { plan, from, .. } = task;
        let lines = run_reader(alloc, plan, from.as_slice(), &mut done)?;
        done.push(lines)?;
    }
    Ok(done)
}

// All lines of a task, which takes those of the tasks that it reads.
fn run_reader(
    alloc: Global,
    plan: Plan,
    from: &[TaskNo],
    done: &mut Vec<Lines>,
) -> Result<Lines, NoMemory>
    requires sides { length from.now ≡ sides plan }
    requires earlier { All (λ t. t < length done.old.items) from.now }
    requires once { AllPairs (λ s t. s ≢ t) from.now }
    ensures lines { IfOk result
        (λ r. r ≡ lines_of plan (first_input from.now done.old.items) (second_input from.now done.old.items)) }
    ensures taken { OnOk result (done.new.items ≡ emptied from.now done.old.items) }
{
    match from {
        [] => run_source(alloc, plan),
        [only] => {
            let lines = take_lines(alloc, done, *only);
            run_plan(alloc, plan, lines)
        }
        [first, second] => {
            let left = take_lines(alloc, done, *first);
            let right = take_lines(alloc, done, *second);
            run_join(alloc, plan, left, right)
        }
        _ => unreachable!(),
    }
}

fn take_lines(alloc: Global, done: &mut Vec<Lines>, task: TaskNo) -> Lines
    requires { task < length done.old.items }
    ensures lines { result ≡ slice_index_or done.old.items task [] }
    ensures taken { done.new.items ≡ slice_set done.old.items task [] }
{
    mem::replace(&mut done[task as usize], Lines::new(alloc))
}
