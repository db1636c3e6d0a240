//! The body of the current task.
ghost use Rattle.std.specs.Prelude.{◌≡◌, ◌<◌, ◌∷◌, [], slice_index_or, unwrap_or};
ghost use Rattle.task_words.specs.Views.{IsOf, IsSame};
ghost use Rattle.task_words.specs.Bodies.{IsBodyHome, IsBodyOut};
ghost use Rattle.word_steps.specs.Folds.{current_task};
ghost use Rattle.word_steps.specs.Records.{OutBody, HomeBody};

use crate::pass::Pass;
use crate::wk::Wk;
use word_table::{BodyOut, Kept};

/// Takes the body of the seat's current task out of its slot.
pub fn body_out<B: Kept>(wk: &Wk<B>, pass: &mut Pass) -> BodyOut<B>
    requires of { IsOf wk.now pass.old }
    requires may { IsBodyHome pass.old.seat pass.old.trace }
    ensures same { IsSame pass.old pass.new }
    ensures trace { pass.new.trace ≡ OutBody (unwrap_or (current_task pass.old.seat pass.old.trace) 0)
        (B.ended result.body) ∷ pass.old.trace }
    ensures of { result.of ≡ wk.now.name }
    ensures task { result.task ≡ unwrap_or (current_task pass.old.seat pass.old.trace) 0 }
    ensures lasting { B.lasting result.body ≡ slice_index_or pass.old.lasting
        (unwrap_or (current_task pass.old.seat pass.old.trace) 0) [] }
{
    let Some(t) = pass.current else {
        unreachable!()
    };
    word_table::body_out(&wk.words, &mut pass.token, t)
}

/// Puts the body of the seat's current task back in its slot. It keeps what it keeps for good, and where it had ended
/// it has still.
pub fn body_home<B: Kept>(wk: &Wk<B>, pass: &mut Pass, out: BodyOut<B>)
    requires of { IsOf wk.now pass.old }
    requires out_of { out.of ≡ wk.now.name }
    requires task { out.task ≡ unwrap_or (current_task pass.old.seat pass.old.trace) 0 }
    requires may { IsBodyOut pass.old.seat pass.old.trace (B.ended out.body) }
    requires lasting { B.lasting out.body ≡ slice_index_or pass.old.lasting
        (unwrap_or (current_task pass.old.seat pass.old.trace) 0) [] }
    ensures same { IsSame pass.old pass.new }
    ensures trace { pass.new.trace ≡ HomeBody (unwrap_or (current_task pass.old.seat pass.old.trace) 0)
        (B.ended out.body) ∷ pass.old.trace }
{
    word_table::body_home(&wk.words, &mut pass.token, out);
}
