//! Tables of the smallest and the largest shape are made and closed.
ghost use Rattle.handoff_data.specs.Shape.{IsShape};

use crate::{Closed, Pass, Wk};
use handoff_data::{NoMemory, Shape, State};
use std::alloc::Global;
use std::test::Fail;

// Whether each pass is that of the next seat, and has an empty turn with all its room and no current task.
fn are_new(passes: &[Pass], tasks: u32) -> bool {
    let spare = 4 * tasks as usize + 16;
    (0..passes.len()).all(|s| {
        let pass = &passes[s];
        pass.seat() as usize == s
            && pass.current().is_none()
            && pass.turn().get(0).is_none()
            && pass.spare() == spare
    })
}

// What is left of a new table, None where its passes aren't as they should be.
fn made_and_closed(alloc: Global, shape: &Shape) -> Result<Option<Closed<()>>, NoMemory>
    requires { IsShape shape.now }
{
    let bodies = Vec::from_elem(alloc, (), shape.tasks as usize)?;
    let (wk, passes) = Wk::new(alloc, shape, bodies)?;
    let seats = shape.cpus + shape.agents;
    let new = passes.len() == seats as usize && are_new(&passes, shape.tasks);
    let closed = wk.close(passes);
    Ok(if new { Some(closed) } else { None })
}

#[test]
fn new_tables_are_closed(rt: HostRuntime) -> Result<(), Fail> {
    let smallest = Shape {
        cpus: 1,
        caches: 1,
        tasks: 1,
        conds: 0,
        agents: 0,
    };
    let largest = Shape {
        cpus: 16,
        caches: 4,
        tasks: 200,
        conds: 400,
        agents: 4,
    };
    for shape in [smallest, largest] {
        let Some(closed) = made_and_closed(rt.alloc(), &shape)? else {
            return Err(Fail::from("a pass that isn't new"));
        };
        assert!(rt; closed.states.len() == shape.tasks as usize);
        assert!(rt; closed.states.iter().all(|state| *state == State::TASK_NEW));
        assert!(rt; closed.conds.len() == shape.conds as usize);
        assert!(rt; closed.conds.iter().all(|count| *count == 0));
    }
    Ok(())
}
