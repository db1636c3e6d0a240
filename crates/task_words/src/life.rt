//! How a shared table begins.
ghost use Rattle.std.specs.Prelude.{◌≡◌, ◌+◌, [], map, length, IfOk};
ghost use Rattle.std.specs.List.{All};
ghost use Rattle.handoff_data.specs.Shape.{IsShape};
ghost use Rattle.task_words.specs.Closing.{empty_turn, new_pass, first_passes, IsDone};
ghost use Rattle.task_words.specs.Views.{IsOf};
ghost use Rattle.word_table.specs.End.{HasEachSeat};

use crate::pass::{Pass, Turn};
use crate::wk::Wk;
use handoff_data::{NoMemory, Shape};
use std::alloc::Global;
use word_table::{Kept, Token, Words};

// With room for four entries a task and sixteen.
fn empty_turn(alloc: Global, tasks: u32) -> Result<Turn, NoMemory>
    ensures { IfOk result (λ t. t ≡ empty_turn tasks) }
{
    let entries = Vec::with_capacity(alloc, 4 * tasks as usize + 16)?;
    Ok(Turn { entries })
}

// The pass of a seat that did nothing yet.
fn pass_of(alloc: Global, token: Token, tasks: u32) -> Result<Pass, NoMemory>
    requires trace { token.trace ≡ [] }
    requires tasks { token.shape.tasks ≡ tasks }
    ensures { IfOk result (λ p. p ≡ new_pass token.of token.shape token.lasting token.seat) }
{
    let turn = empty_turn(alloc, tasks)?;
    Ok(Pass {
        token,
        current: None,
        turn,
    })
}

// The passes of such seats, in the same order.
fn passes_of(alloc: Global, tokens: Vec<Token>, tasks: u32) -> Result<Vec<Pass>, NoMemory>
    requires traces { All (λ t. t.trace ≡ []) tokens.items }
    requires tasks { All (λ t. t.shape.tasks ≡ tasks) tokens.items }
    ensures { IfOk result (λ v. v.items ≡ map (λ t. new_pass t.of t.shape t.lasting t.seat) tokens.items) }
{
    let mut passes = Vec::with_capacity(alloc, tokens.len())?;
    for token in tokens {
        passes.push_reserved(pass_of(alloc, token, tasks)?);
    }
    Ok(passes)
}

impl<B: Kept> Wk<B> {
    /// A new table of this shape, with these bodies of its tasks, and the passes of its seats in their order, each
    /// without a current task. Each task is TASK_NEW and may run on each processor; each processor is active; each lock
    /// is free. All memory of the table is taken here.
    pub fn new(alloc: Global, shape: &Shape, bodies: Vec<B>) -> Result<(Wk<B>, Vec<Pass>), NoMemory>
        requires shape { IsShape shape.now }
        requires tasks { length bodies.items ≡ shape.now.tasks }
        ensures shape { IfOk result (λ r. r.0.shape ≡ shape.now) }
        ensures lasting { IfOk result (λ r. r.0.lasting ≡ map B.lasting bodies.items) }
        ensures passes { IfOk result
            (λ r. r.1.items ≡ first_passes r.0.name r.0.shape r.0.lasting (shape.now.cpus + shape.now.agents)) }
        ensures of { IfOk result (λ r. All (IsOf r.0) r.1.items) }
        ensures each { IfOk result
            (λ r. HasEachSeat (shape.now.cpus + shape.now.agents) (map (λ p. p.seat) r.1.items)) }
        ensures done { IfOk result (λ r. All IsDone r.1.items) }
    {
        let (words, tokens) = Words::new(alloc, shape, bodies)?;
        let passes = passes_of(alloc, tokens, shape.tasks)?;
        Ok((Wk { words }, passes))
    }
}
