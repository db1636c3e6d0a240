ghost use Rattle.std.specs.Prelude.{◌≡◌, ℕ, Some};
ghost use Rattle.handoff_data.specs.declared.shape.Shape.{Shape};
ghost use Rattle.handoff_data.specs.declared.state.State.{State};
ghost use Rattle.task_words.specs.Folds.{current_task};
ghost use Rattle.task_words.specs.Views.{PassView};
ghost use Rattle.ttwu_core.specs.Orders.{IsReadAndMadeRunnable, IsReadAndStored, IsClaimedAndQueued};
ghost use Rattle.ttwu_core.specs.Own.{DidWakeOwn};
ghost use Rattle.ttwu_core.specs.Wakes.{DidWake};
ghost use Rattle.ttwu_core.specs.declared.answers.How.TheVariants as how;
ghost use Rattle.ttwu_core.specs.declared.answers.Wake.TheVariants as wake;

/// A task that was still queued, or is the waker's own, was read in a state that has a bit of the mask, and
/// TASK_RUNNING was stored after that. One that was off every queue was claimed, and then queued on the processor of
/// the answer. A law: the call does nothing.
pub fn law_woken()
    ensures runnable { (t : ℕ) (mask : State) (shape : Shape) (old new : PassView)
        → DidWake t mask shape old new (wake.Woke how.Runnable) → IsReadAndMadeRunnable t mask old.trace new.trace }
    ensures queued { (t c : ℕ) (mask : State) (shape : Shape) (old new : PassView)
        → DidWake t mask shape old new (wake.Woke (how.Queued c)) → IsClaimedAndQueued t c old.trace new.trace }
    ensures own { (t : ℕ) (mask : State) (old new : PassView) → current_task old.seat old.trace ≡ Some t
        → DidWakeOwn mask old new (wake.Woke how.Own) → IsReadAndStored t mask old.trace new.trace }
{}
