//! A step that a seat can repeat which holds nothing.
ghost use Rattle.bench_steps.specs.Small.{IsSmall};
ghost use Rattle.task_words.specs.Seats.{HoldsNothing};
ghost use Rattle.task_words.specs.Views.{IsOf, IsSame, IsOneSeat};

use std::sync::Wait;
use task_words::{Pass, Wk};

/// A step, or some that leave the seat as it was, of the first task, processor and condition.
pub trait Step {
    fn once<R: Wait>(rt: &R, wk: &Wk<()>, pass: &mut Pass)
        requires of { IsOf wk.now pass.old }
        requires small { IsSmall wk.now.shape }
        requires nothing { HoldsNothing pass.old.trace }
        ensures same { IsSame pass.old pass.new }
        ensures nothing { HoldsNothing pass.new.trace };
}

/// Makes a step so many times.
pub fn repeat<S: Step, R: Wait>(rt: &R, wk: &Wk<()>, pass: &mut Pass, count: u32)
    requires of { IsOf wk.now pass.old }
    requires small { IsSmall wk.now.shape }
    requires nothing { HoldsNothing pass.old.trace }
    ensures same { IsSame pass.old pass.new }
    ensures nothing { HoldsNothing pass.new.trace }
{
    for _ in 0..count {
        S::once(rt, wk, pass);
    }
}
