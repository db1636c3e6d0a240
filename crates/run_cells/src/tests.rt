//! What no clause says: the map of a script that is written out, and the bodies of its cells.
use super::*;
use handoff_data::{NoMemory, TaskNo};
use pipe_bodies::{Body, Net, NoWork};
use std::alloc::Global;
use std::test::Fail;
use task_script::read_script;

const SCRIPT: &str =
    "cpus 2\ntask a count 2\ntask b upper from a\ntask c count 1\ntask d cat from b c\nend\n";

fn inputs(left: Option<TaskNo>, right: Option<TaskNo>) -> Inputs {
    Inputs { left, right }
}

fn find(net: &NetMap, t: TaskNo) -> Option<Inputs> {
    if (t as usize) < net.len() {
        Some(net.get(t))
    } else {
        None
    }
}

// The map of the script, and how many of its bodies come back out of their cells without having ended.
fn map_and_bodies(alloc: Global) -> Result<(NetMap, usize), NoMemory> {
    let Ok(script) = read_script(alloc, SCRIPT.as_bytes(), 0) else {
        return Err(NoMemory);
    };
    let net = NetMap::of(alloc, &script)?;
    let bodies: Vec<Body<NoWork>> = Net::build(alloc, &script, Vec::new(alloc))?;
    let bodies = into_bodies(alloc, into_cells(alloc, bodies)?)?;
    let count = bodies.iter().filter(|body| !body.has_ended()).count();
    Ok((net, count))
}

#[test]
fn conditions_are_those_of_the_tasks_that_are_read(rt: HostRuntime) -> Result<(), Fail> {
    let (net, count) = map_and_bodies(rt.alloc())?;
    assert_eq!(rt; count, 4);
    let expected = [
        inputs(None, None),
        inputs(Some(0), None),
        inputs(None, None),
        inputs(Some(1), Some(2)),
    ];
    assert_eq!(rt; net.len(), expected.len());
    for (t, sides) in expected.iter().enumerate() {
        assert_eq!(rt; find(&net, t as TaskNo), Some(*sides));
    }
    let last = inputs(Some(1), Some(2));
    assert_eq!(rt; last.of(0), Some(1));
    assert_eq!(rt; last.of(1), Some(2));
    assert_eq!(rt; put_out(3), 6);
    assert_eq!(rt; taken_from(3), 7);
    Ok(())
}
