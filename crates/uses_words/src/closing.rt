//! How a table of one seat or of two ends.
ghost use Rattle.std.specs.Prelude.{◌≡◌, ◌∷◌, [], IfOk};
ghost use Rattle.task_words.specs.Seats.{IsBetween};
ghost use Rattle.task_words.specs.Views.{IsOf};

use handoff_data::NoMemory;
use std::alloc::Global;
use task_words::{Closed, Kept, Pass, Wk};

fn alone(alloc: Global, pass: Pass) -> Result<Vec<Pass>, NoMemory>
    ensures { IfOk result (λ v. v.items ≡ pass ∷ []) }
{
    let mut passes = Vec::with_capacity(alloc, 1)?;
    passes.push_reserved(pass);
    Ok(passes)
}

/// What is left of a table of one seat; NoMemory where there is none for the list of its pass.
pub fn close_one<B: Kept>(alloc: Global, wk: Wk<B>, pass: Pass) -> Result<Closed<B>, NoMemory>
    requires of { IsOf wk pass }
    requires first { pass.seat ≡ 0 }
    requires cpus { wk.shape.cpus ≡ 1 }
    requires agents { wk.shape.agents ≡ 0 }
    requires between { IsBetween pass }
{
    let passes = alone(alloc, pass)?;
    Ok(wk.close(passes))
}

fn pair(alloc: Global, first: Pass, second: Pass) -> Result<Vec<Pass>, NoMemory>
    ensures { IfOk result (λ v. v.items ≡ first ∷ second ∷ []) }
{
    let mut passes = Vec::with_capacity(alloc, 2)?;
    passes.push_reserved(first);
    passes.push_reserved(second);
    Ok(passes)
}

/// What is left of a table of two seats; NoMemory where there is none for the list of their passes.
pub fn close_both<B: Kept>(
    alloc: Global,
    wk: Wk<B>,
    first: Pass,
    second: Pass,
) -> Result<Closed<B>, NoMemory>
    requires of { IsOf wk first × IsOf wk second }
    requires seats { (first.seat ≡ 0) × (second.seat ≡ 1) }
    requires cpus { wk.shape.cpus ≡ 2 }
    requires agents { wk.shape.agents ≡ 0 }
    requires between { IsBetween first × IsBetween second }
{
    let passes = pair(alloc, first, second)?;
    Ok(wk.close(passes))
}
