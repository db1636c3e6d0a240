// What the bodies of a net put out, once all have ended.
ghost use Rattle.std.specs.Prelude.{◌≡◌, [], ◌++◌, map};
ghost use Rattle.rtrb.specs.Ring.{known_items};
ghost use Rattle.pipe_bodies.specs.Rings.{in_ring, out_ring, got, known};
ghost use Rattle.pipe_bodies.specs.Nets.{sent_by, IsSide, input_past};

use crate::item::Item;
use rtrb::{Consumer, Producer};

// Compares what came in with what was sent.
fn look(input: &mut Option<Consumer<Item>>, output: &mut Option<Producer<Item>>)
    requires { in_ring input.old ≡ out_ring output.old }
    ensures got { got input.new ≡ got input.old }
    ensures ring { out_ring output.new ≡ out_ring output.old }
    ensures past { sent_by output.new ≡ sent_by output.old }
    ensures fifo { got input.new ++ known input.new ≡ sent_by output.new }
{
    if let (Some(consumer), Some(producer)) = (input, output) {
        consumer.slots_beside(producer);
    }
}

// Compares what came in on a side with what was sent by the task that it reads, if it reads one.
fn look_at(
    input: &mut Option<Consumer<Item>>,
    outputs: &mut Vec<Option<Producer<Item>>>,
    from: &[TaskNo],
)
    requires { IsSide from.now (in_ring input.old) (map out_ring outputs.old.items) }
    ensures got { got input.new ≡ got input.old }
    ensures rings { map out_ring outputs.new.items ≡ map out_ring outputs.old.items }
    ensures pasts { map sent_by outputs.new.items ≡ map sent_by outputs.old.items }
    ensures fifo { got input.new ++ known input.new ≡ input_past from.now (map sent_by outputs.old.items) }
{
    match from {
        [x, ..] => look(input, &mut outputs[*x as usize]),
        [] => (),
    }
}

// The tasks after the first.
pub(crate) fn others(from: &[TaskNo]) -> &[TaskNo]
    ensures { result.now ≡ other_tasks from.now }
{
    match from {
        [_, rest @ ..] => rest,
        [] => from,
    }
}

ghost use Rattle.pipe_bodies.specs.Nets.{others as other_tasks};

// One body apart, after those of earlier tasks.
fn settle_one<W: Work>(
    task: &TaskDef,
    body: Body<W>,
    outputs: &mut Vec<Option<Producer<Item>>>,
    kept: &mut Vec<Lines>,
) -> Result<(), NoMemory>
    requires ended { HasEnded body }
    requires joint { IsJoint (with_plan task.now body.lasting.begun) body.lasting (map out_ring outputs.old.items) }
    ensures rings { OnOk result (map out_ring outputs.new.items ≡ map out_ring outputs.old.items
        ++ output_of body ∷ []) }
    ensures kept { OnOk result (kept.new.items ≡ kept.old.items ++ kept_of body ∷ []) }
    ensures lines { (done : List (List Line)) → AllPutOut (map out_ring outputs.old.items)
        (map sent_by outputs.old.items) kept.old.items done → OnOk result (AllPutOut
        (map out_ring outputs.new.items) (map sent_by outputs.new.items) kept.new.items (done
        ++ task_lines (with_plan task.now body.lasting.begun) done ∷ [])) }
{
    let mut parts = body.apart();
    look_at(&mut parts.left, outputs, task.from.as_slice());
    look_at(&mut parts.right, outputs, others(task.from.as_slice()));
    let Parts {
        left: _,
        right: _,
        output,
        kept: lines,
        said: _,
        held: _,
        plan: _,
        ended: _,
    } = parts;
    outputs.push(output)?;
    kept.push(lines)?;
    Ok(())
}

ghost use Rattle.std.specs.Prelude.{List, ◌∷◌, OnOk};
ghost use Rattle.pipe_tasks.specs.Words.{Line};
ghost use Rattle.pipe_tasks.specs.Tasks.{task_lines, forest_lines};
ghost use Rattle.pipe_bodies.specs.Nets.{HasEnded, IsJoint, output_of, kept_of, AllPutOut};

use crate::body::Body;
use crate::parts::Parts;
use handoff_data::{Lines, NoMemory, TaskNo};
use pipe_tasks::Work;
use task_script::TaskDef;

/// Takes apart bodies that have all ended, and answers what each of them kept: the lines of each task that no other
/// reads, and none in the place of a task that is read. It is what the tasks put out with the plans with which the
/// bodies began. Answers `NoMemory` where memory runs out.
pub fn settle<W: Work>(
    alloc: Global,
    tasks: &[TaskDef],
    bodies: Vec<Body<W>>,
) -> Result<Vec<Lines>, NoMemory>
    requires net { IsNet (begun_tasks tasks.now (map lasting_of bodies.items)) (map lasting_of bodies.items) }
    requires ended { All HasEnded bodies.items }
    ensures kept { IfOk result (λ r. r.items ≡ map kept_of bodies.items) }
    ensures forest { IfOk result (λ r.
        r.items ≡ forest_lines (begun_tasks tasks.now (map lasting_of bodies.items))) }
{
    let mut outputs = Vec::new(alloc);
    let mut kept = Vec::new(alloc);
    let mut bodies = bodies.into_iter();
    for task in tasks {
        let Some(body) = bodies.next() else {
            unreachable!()
        };
        settle_one(task, body, &mut outputs, &mut kept)?;
    }
    Ok(kept)
}

ghost use Rattle.std.specs.Prelude.{All, IfOk};
ghost use Rattle.pipe_bodies.specs.Nets.{IsNet, lasting_of, with_plan, begun_tasks};

use std::alloc::Global;
