// The bodies of a script, joined by rings.
ghost use Rattle.std.specs.Prelude.{◌≡◌, ◌<◌, ◌^◌, ℕ, List, [], ◌∷◌, ◌++◌, length, map, OnOk, IfOk};
ghost use Rattle.task_script.specs.Plan.{sides};
ghost use Rattle.task_script.specs.Forest.{IsForest};
ghost use Rattle.pipe_bodies.specs.Courses.{plan_in};
ghost use Rattle.pipe_bodies.specs.Rings.{in_ring, got, known};
ghost use Rattle.pipe_bodies.specs.Bodies.{IsFresh, IsOfRoom, HasRoom};
ghost use Rattle.pipe_bodies.specs.Nets.{IsNet, IsReading, IsFree, IsBegun, Links, Built, reads_on};
ghost use Rattle.pipe_bodies.specs.Nets.{part_of, output_of, lasting_of, with_plan, with_plans, begun_tasks};

use crate::body::Body;
use crate::dealing::courses_of;
use crate::item::Item;
use crate::parts::Course;
use crate::settling::others;
use handoff_data::{NoMemory, TaskNo};
use pipe_tasks::Work;
use rtrb::{Consumer, RingBuffer};
use std::alloc::Global;
use task_script::{Script, TaskDef, law_script};

// A new ring from the first task of a list, if there is one.
fn link<W: Work>(
    alloc: Global,
    room: u32,
    from: &[TaskNo],
    bodies: &mut Vec<Body<W>>,
) -> Result<Option<Consumer<Item>>, NoMemory>
    requires free { IsFree from.now (map output_of bodies.old.items) }
    requires begun { All (IsBegun room) bodies.old.items }
    ensures links { IfOk result (λ c. Links from.now (map output_of bodies.old.items)
        (map output_of bodies.new.items) (in_ring c)) }
    ensures empty { IfOk result (λ c. (got c ≡ []) × (known c ≡ [])) }
    ensures rooms { IfOk result (λ c. IsOfRoom room (in_ring c)) }
    ensures parts { OnOk result (map part_of bodies.new.items ≡ map part_of bodies.old.items) }
    ensures begun { OnOk result (All (IsBegun room) bodies.new.items) }
{
    match from {
        [x, ..] => {
            let (producer, consumer) = RingBuffer::new(alloc, room as usize)?;
            bodies[*x as usize].join(producer);
            Ok(Some(consumer))
        }
        [] => Ok(None),
    }
}

// One more body, joined to those of earlier tasks.
fn build_one<W: Work>(
    alloc: Global,
    room: u32,
    task: &TaskDef,
    number: TaskNo,
    course: Course<W>,
    bodies: &mut Vec<Body<W>>,
) -> Result<(), NoMemory>
    requires sides { length task.now.from ≡ sides (plan_in course) }
    requires number { number ≡ length bodies.old.items }
    requires built { (ds : List TaskDef) × (reads : List ℕ) × IsReading (length ds) reads task.now.from
        × Built ds reads (map part_of bodies.old.items) (map output_of bodies.old.items) }
    requires begun { All (IsBegun room) bodies.old.items }
    ensures built { (ds : List TaskDef) (reads : List ℕ) → IsReading (length ds) reads task.now.from
        → Built ds reads (map part_of bodies.old.items) (map output_of bodies.old.items)
        → OnOk result (Built (ds ++ with_plan task.now (plan_in course) ∷ []) (reads_on task.now.from reads)
        (map part_of bodies.new.items) (map output_of bodies.new.items)) }
    ensures begun { OnOk result (All (IsBegun room) bodies.new.items) }
    ensures count { OnOk result (length bodies.new.items ≡ length bodies.old.items + 1) }
{
    let from = task.from.as_slice();
    let left = link(alloc, room, from, bodies)?;
    let right = link(alloc, room, others(from), bodies)?;
    bodies.push(Body::new(alloc, number, course, left, right))?;
    Ok(())
}

ghost use Rattle.std.specs.Prelude.{◌+◌, All};

/// The rings of tasks, and a body for each, which begins with its course.
///
/// The courses are as many as the tasks, in their order, and the tasks with the plans of the courses are a forest. The
/// bodies are joined as these say (`IsNet`): each has the number of its task, the plan of its course, and an end of the
/// ring to each task that it reads and from the one that reads it. Each ring has room for `room` items (`HasRoom`), and
/// no body has had a turn (`IsFresh`). Answers `NoMemory` where memory runs out.
pub fn build_courses<W: Work>(
    alloc: Global,
    room: u32,
    tasks: &[TaskDef],
    courses: Vec<Course<W>>,
) -> Result<Vec<Body<W>>, NoMemory>
    requires forest { IsForest (with_plans tasks.now (map plan_in courses.items)) }
    requires count { length tasks.now < 2 ^ 32 }
    requires courses { length courses.items ≡ length tasks.now }
    ensures net { IfOk result (λ r.
        IsNet (with_plans tasks.now (map plan_in courses.items)) (map lasting_of r.items)) }
    ensures rooms { IfOk result (λ r. All (HasRoom room) (map lasting_of r.items)) }
    ensures fresh { IfOk result (λ r. All IsFresh r.items) }
{
    let mut bodies = Vec::new(alloc);
    let mut courses = courses.into_iter();
    let mut number = 0;
    for task in tasks {
        let Some(course) = courses.next() else {
            unreachable!()
        };
        build_one(alloc, room, task, number, course, &mut bodies)?;
        number += 1;
    }
    Ok(bodies)
}

ghost use Rattle.task_script.specs.Script.{IsScript};
ghost use Rattle.pipe_tasks.specs.Tasks.{meant_tasks};

/// Text tasks that are joined by rings.
pub struct Net;

impl Net {
    /// The rings of a script, which have its room, and a body for each of its tasks, which has had no turn. The script
    /// stays: each body has a copy of its plan, and that of a task of `custom` has the work of the task's number, for
    /// what that means as it is handed in. A work that no task has is dropped. Answers `NoMemory` where memory runs
    /// out.
    pub fn build<W: Work>(
        alloc: Global,
        script: &Script,
        customs: Vec<W>,
    ) -> Result<Vec<Body<W>>, NoMemory>
        requires script { (bytes : List ℕ) × IsScript (length customs.items) bytes script.now }
        ensures net { IfOk result (λ r.
            IsNet (meant_tasks (map W.meaning customs.items) script.now.tasks) (map lasting_of r.items)) }
        ensures begun { IfOk result (λ r. begun_tasks script.now.tasks (map lasting_of r.items)
            ≡ meant_tasks (map W.meaning customs.items) script.now.tasks) }
        ensures rooms { IfOk result (λ r. All (HasRoom script.now.room) (map lasting_of r.items)) }
        ensures fresh { IfOk result (λ r. All IsFresh r.items) }
    {
        law_script();
        // A number behind a reference has its range once it is read.
        let _range = script.shape.tasks;
        let tasks = script.tasks.as_slice();
        let courses = courses_of(alloc, tasks, customs)?;
        build_courses(alloc, script.room, tasks, courses)
    }
}
