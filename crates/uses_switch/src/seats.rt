//! The seats that a test begins with.
ghost use Rattle.std.specs.Prelude.{◌≡◌, ◌<◌, ◌≤◌, IfOk};
ghost use Rattle.task_words.specs.Views.{IsOf};
ghost use Rattle.uses_switch.specs.Seated.{IsIdle};

use crate::bodies::Turns;
use crate::opening::begin;
use std::alloc::Global;
use std::test::Fail;
use task_words::{Pass, Wk};

/// A table of one processor and one condition, whose tasks have one turn to run, and the pass of its seat.
pub fn one_seat(alloc: Global, tasks: u32) -> Result<(Wk<Turns>, Pass), Fail>
    requires tasks { tasks ≤ 200 }
    ensures of { IfOk result (λ r. IsOf r.0 r.1) }
    ensures idle { IfOk result (λ r. IsIdle r.1) }
    ensures processor { IfOk result (λ r. r.1.seat < r.0.shape.cpus) }
    ensures tasks { IfOk result (λ r. r.0.shape.tasks ≡ tasks) }
    ensures conditions { IfOk result (λ r. r.0.shape.conds ≡ 1) }
{
    let (wk, mut passes) = begin(alloc, 1, tasks, 1, 1)?;
    let Some(pass) = passes.pop() else {
        return Err(Fail::from("no pass"));
    };
    if pass.seat() != 0 {
        return Err(Fail::from("another seat"));
    }
    Ok((wk, pass))
}

/// A table of two processors, one task with one turn to run and two conditions, and the passes of its seats.
pub fn two_seats(alloc: Global) -> Result<(Wk<Turns>, Pass, Pass), Fail>
    ensures of { IfOk result (λ r. IsOf r.0 r.1) }
    ensures of_other { IfOk result (λ r. IsOf r.0 r.2) }
    ensures idle { IfOk result (λ r. IsIdle r.1) }
    ensures idle_other { IfOk result (λ r. IsIdle r.2) }
    ensures cpus { IfOk result (λ r. r.0.shape.cpus ≡ 2) }
    ensures tasks { IfOk result (λ r. r.0.shape.tasks ≡ 1) }
    ensures conditions { IfOk result (λ r. r.0.shape.conds ≡ 2) }
    ensures seats { IfOk result (λ r. r.1.seat ≡ 0) }
{
    let (wk, mut passes) = begin(alloc, 2, 1, 2, 1)?;
    let Some(other) = passes.pop() else {
        return Err(Fail::from("no pass"));
    };
    let Some(pass) = passes.pop() else {
        return Err(Fail::from("no second pass"));
    };
    if pass.seat() != 0 {
        return Err(Fail::from("another seat"));
    }
    Ok((wk, pass, other))
}
