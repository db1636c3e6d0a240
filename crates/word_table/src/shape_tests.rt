//! Tables of the smallest and the largest shape, and one of bodies that have ended, are made and closed.
ghost use Rattle.std.specs.Prelude.{◌≡◌, [], ◌∷◌, false, length, IfOk};
ghost use Rattle.std.specs.List.{All};
ghost use Rattle.handoff_data.specs.Shape.{IsShape};
ghost use Rattle.word_table.specs.Gathered.{IsGatheredOf};
ghost use Rattle.word_table.specs.Views.{IsOf};

use crate::{Closed, Gathered, Kept, Token, Words};
use handoff_data::{NoMemory, Shape, State};
use std::alloc::Global;
use std::test::Fail;

#[derive(Drop)]
struct Numbered(u32);

impl Kept for Numbered {
    ghost lasting = { λ body. body.0 ∷ [] };

    ghost ended = { λ _. false };
}

// One for each task, numbered in their order.
fn numbered_bodies(alloc: Global, tasks: u32) -> Result<Vec<Numbered>, NoMemory>
    ensures { IfOk result (λ v. length v.items ≡ tasks) }
{
    let mut bodies = Vec::new(alloc);
    for t in 0..tasks {
        bodies.push(Numbered(t))?;
    }
    Ok(bodies)
}

// All tokens back.
fn gather_all<B: Kept>(words: &Words<B>, tokens: Vec<Token>) -> Gathered<B>
    requires of { All (IsOf words.now) tokens.items }
    ensures of { IsGatheredOf words.now result }
    ensures tokens { result.tokens ≡ tokens.items }
{
    let mut tokens = tokens;
    let mut gathered = words.gather();
    while let Some(token) = tokens.pop() {
        words.take_back(&mut gathered, token);
    }
    gathered
}

fn made_and_closed<B: Kept>(
    alloc: Global,
    shape: &Shape,
    bodies: Vec<B>,
) -> Result<Closed<B>, NoMemory>
    requires shape { IsShape shape.now }
    requires tasks { length bodies.items ≡ shape.now.tasks }
    ensures bodies { IfOk result (λ c. length c.bodies.items ≡ shape.now.tasks) }
    ensures states { IfOk result (λ c. length c.states.items ≡ shape.now.tasks) }
    ensures conds { IfOk result (λ c. length c.conds.items ≡ shape.now.conds) }
{
    let (words, tokens) = Words::new(alloc, shape, bodies)?;
    let gathered = gather_all(&words, tokens);
    Ok(words.close(gathered))
}

#[test]
fn new_tables_are_closed(rt: HostRuntime) -> Result<(), Fail> {
    let smallest = Shape {
        cpus: 1,
        caches: 1,
        tasks: 0,
        conds: 0,
        agents: 0,
    };
    let largest = Shape {
        cpus: 16,
        caches: 4,
        tasks: 200,
        conds: 400,
        agents: 4,
    };
    for shape in [smallest, largest] {
        let bodies = numbered_bodies(rt.alloc(), shape.tasks)?;
        let closed = made_and_closed(rt.alloc(), &shape, bodies)?;
        assert!(rt; closed.bodies.len() == shape.tasks as usize);
        for t in 0..shape.tasks {
            assert_eq!(rt; closed.bodies[t as usize].0, t);
        }
        assert!(rt; closed.states.iter().all(|state| *state == State::TASK_NEW));
        assert!(rt; closed.conds.iter().all(|count| *count == 0));
    }
    Ok(())
}

#[test]
fn a_table_begins_with_bodies_that_have_ended(rt: HostRuntime) -> Result<(), Fail> {
    let shape = Shape {
        cpus: 2,
        caches: 1,
        tasks: 3,
        conds: 1,
        agents: 1,
    };
    let bodies = Vec::from_elem(rt.alloc(), (), 3)?;
    let closed = made_and_closed(rt.alloc(), &shape, bodies)?;
    assert!(rt; closed.bodies.len() == 3);
    assert!(rt; closed.states.iter().all(|state| *state == State::TASK_NEW));
    Ok(())
}
