// The works of a caller, by number to the tasks that have them.
ghost use Rattle.std.specs.Prelude.{◌≡◌, Some, None, IsSome, IfSome, IfOk, OnOk, length, map};
ghost use Rattle.std.specs.Option.{option_map};
ghost use Rattle.task_script.specs.Plan.{sides};
ghost use Rattle.task_script.specs.Valid.{AreCustoms};
ghost use Rattle.pipe_tasks.specs.Tasks.{plan_by};
ghost use Rattle.pipe_bodies.specs.Courses.{plan_in, is_left, dealt_plan, left_after, seen_works};
ghost use Rattle.pipe_bodies.specs.Nets.{plan_for};

use crate::custom::Custom;
use crate::parts::Course;
use handoff_data::NoMemory;
use pipe_tasks::{Work, copy_plan};
use std::alloc::Global;
use std::mem;
use task_script::TaskDef;

// The works, each to be taken once.
fn all_works<W: Work>(alloc: Global, customs: Vec<W>) -> Result<Vec<Option<W>>, NoMemory>
    ensures { IfOk result (λ r. seen_works W.meaning r.items ≡ map Some (map W.meaning customs.items)) }
{
    let mut works = Vec::with_capacity(alloc, customs.len())?;
    for custom in customs {
        works.push(Some(custom))?;
    }
    Ok(works)
}

// The work of this number, which is still there.
fn take_work<W: Work>(works: &mut Vec<Option<W>>, number: u32) -> W
    requires there { IsSome (is_left (seen_works W.meaning works.old.items) number) }
    ensures work { Some (W.meaning result) ≡ is_left (seen_works W.meaning works.old.items) number }
    ensures left { seen_works W.meaning works.new.items
        ≡ left_after (seen_works W.meaning works.old.items) (Some number) }
{
    let Some(work) = mem::replace(&mut works[number as usize], None) else {
        unreachable!()
    };
    work
}

// The course of a task: its work, or a copy of its plan.
fn course_of<W: Work>(
    alloc: Global,
    task: &TaskDef,
    works: &mut Vec<Option<W>>,
) -> Result<Course<W>, NoMemory>
    requires there { IfSome task.now.custom (λ n. IsSome (is_left (seen_works W.meaning works.old.items) n)) }
    requires one { IsSome task.now.custom → sides task.now.plan ≡ 1 }
    ensures plan { IfOk result (λ c.
        Some (plan_in c) ≡ dealt_plan (seen_works W.meaning works.old.items) task.now.custom task.now.plan) }
    ensures sides { IfOk result (λ c. sides (plan_in c) ≡ sides task.now.plan) }
    ensures left { OnOk result (seen_works W.meaning works.new.items
        ≡ left_after (seen_works W.meaning works.old.items) task.now.custom) }
{
    match task.custom {
        Some(number) => Ok(Course::Brought(Custom::new(take_work(works, number)))),
        None => Ok(Course::Own(copy_plan(alloc, &task.plan)?)),
    }
}

// A course for each task: the work that it has, or a copy of its plan. The other works are dropped.
pub(crate) fn courses_of<W: Work>(
    alloc: Global,
    tasks: &[TaskDef],
    customs: Vec<W>,
) -> Result<Vec<Course<W>>, NoMemory>
    requires customs { AreCustoms (length customs.items) tasks.now }
    ensures plans { IfOk result (λ r.
        map plan_in r.items ≡ map (plan_by (map W.meaning customs.items)) tasks.now) }
    ensures sides { IfOk result (λ r. map sides (map plan_in r.items) ≡ map sides (map plan_for tasks.now)) }
{
    let mut works = all_works(alloc, customs)?;
    let mut courses = Vec::with_capacity(alloc, tasks.len())?;
    for task in tasks {
        courses.push(course_of(alloc, task, &mut works)?)?;
    }
    Ok(courses)
}
