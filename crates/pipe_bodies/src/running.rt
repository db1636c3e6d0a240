// A whole run on one thread.
ghost use Rattle.std.specs.Prelude.{◌≡◌, ◌<◌, ◌↔◌, map, All, IsTrue, IsOk, IfOk, IfSome, IsSome};
ghost use Rattle.pipe_tasks.specs.Tasks.{forest_lines};
ghost use Rattle.pipe_bodies.specs.Nets.{IsNet, HasEnded, lasting_of, begun_tasks};

use crate::body::Body;
use crate::settling::settle;
use handoff_data::{Lines, NoMemory};
use pipe_tasks::Work;
use std::alloc::Global;
use task_script::TaskDef;

/// Whether each body has put its end out.
pub fn have_ended<W: Work>(bodies: &[Body<W>]) -> bool
    ensures { IsTrue result ↔ All HasEnded bodies.now }
{
    bodies.iter().all(|body| body.has_ended())
}

// One turn of each body.
fn round<W: Work>(bodies: &mut Vec<Body<W>>) -> Result<(), NoMemory>
    ensures lasting { map lasting_of bodies.new.items ≡ map lasting_of bodies.old.items }
    ensures ended { All HasEnded bodies.old.items → IsOk result × All HasEnded bodies.new.items }
{
    for i in 0..bodies.len() {
        // The round ends by its number of turns, not by verdicts.
        let _verdict = bodies[i].turn()?;
    }
    Ok(())
}

// One turn of the body at a place, counted round.
fn turn_one<W: Work>(bodies: &mut Vec<Body<W>>, place: usize) -> Result<(), NoMemory>
    ensures lasting { map lasting_of bodies.new.items ≡ map lasting_of bodies.old.items }
    ensures ended { All HasEnded bodies.old.items → IsOk result × All HasEnded bodies.new.items }
{
    let count = bodies.len();
    if count > 0 {
        let index = place % count;
        // The list of turns goes on whatever came of this one.
        let _verdict = bodies[index].turn()?;
    }
    Ok(())
}

/// Gives the bodies a turn each, round after round, until all have ended, for at most so many rounds. Answers what each
/// kept, which is what the tasks put out with the plans with which the bodies began, or none where the rounds weren't
/// enough. Answers `NoMemory` where memory runs out.
pub fn run_bodies<W: Work>(
    alloc: Global,
    tasks: &[TaskDef],
    bodies: Vec<Body<W>>,
    rounds: u64,
) -> Result<Option<Vec<Lines>>, NoMemory>
    requires { IsNet (begun_tasks tasks.now (map lasting_of bodies.items)) (map lasting_of bodies.items) }
    ensures lines { IfOk result (λ o. IfSome o (λ r.
        r.items ≡ forest_lines (begun_tasks tasks.now (map lasting_of bodies.items)))) }
    ensures ended { 0 < rounds → All HasEnded bodies.items → IfOk result (λ o. IsSome o) }
{
    let mut bodies = bodies;
    for _ in 0..rounds {
        round(&mut bodies)?;
        if have_ended(bodies.as_slice()) {
            return match settle(alloc, tasks, bodies) {
                Ok(lines) => Ok(Some(lines)),
                Err(_) => Err(NoMemory),
            };
        }
    }
    Ok(None)
}

/// Gives bodies turns in a random order, which the seed tells, until all have ended, for at most so many turns. Answers
/// what each kept, which is what the tasks put out with the plans with which the bodies began, or none where the turns
/// weren't enough. Answers `NoMemory` where memory runs out.
pub fn run_shuffled<W: Work>(
    alloc: Global,
    tasks: &[TaskDef],
    bodies: Vec<Body<W>>,
    seed: u64,
    turns: u64,
) -> Result<Option<Vec<Lines>>, NoMemory>
    requires { IsNet (begun_tasks tasks.now (map lasting_of bodies.items)) (map lasting_of bodies.items) }
    ensures lines { IfOk result (λ o. IfSome o (λ r.
        r.items ≡ forest_lines (begun_tasks tasks.now (map lasting_of bodies.items)))) }
    ensures ended { 0 < turns → All HasEnded bodies.items → IfOk result (λ o. IsSome o) }
{
    let mut bodies = bodies;
    let mut state = seed;
    for _ in 0..turns {
        // A linear congruential generator, whose low bits are poor.
        state = state
            .wrapping_mul(6_364_136_223_846_793_005)
            .wrapping_add(1_442_695_040_888_963_407);
        turn_one(&mut bodies, (state >> 33) as usize)?;
        if have_ended(bodies.as_slice()) {
            return match settle(alloc, tasks, bodies) {
                Ok(lines) => Ok(Some(lines)),
                Err(_) => Err(NoMemory),
            };
        }
    }
    Ok(None)
}
