//! What a turn of a processor means.
ghost use Rattle.std.specs.Prelude.{◌≡◌, ℕ, ◌*◌, ◌+◌, List, Some, false};
ghost use Rattle.handoff_data.specs.declared.shape.Shape.{Shape};
ghost use Rattle.pipe_bodies.specs.declared.verdict.Then.TheVariants as verdict;
ghost use Rattle.pipe_bodies.specs.declared.verdict.Verdict.{Verdict};
ghost use Rattle.run_cells.specs.NetMaps.{side_of};
ghost use Rattle.run_cells.specs.declared.net_map.Inputs.{Inputs};
ghost use Rattle.run_turns.specs.Laws.{inputs_at, raises_of, HasRaised, WasPickedAndRun, HasIdled, HasWaited};
ghost use Rattle.run_turns.specs.Laws.{HasDiedNow};
ghost use Rattle.run_turns.specs.Standing.{IsAtRest};
ghost use Rattle.run_turns.specs.Turns.{DidTurn};
ghost use Rattle.run_turns.specs.declared.turn.Turned.TheVariants as turned;
ghost use Rattle.task_words.specs.Views.{PassView};
ghost use Rattle.word_steps.specs.Folds.{owes_walk};

/// A turn is idle exactly where nothing was at the front of the own queue. Else the task that was there had a turn of
/// its body, and by the verdict of that body these conditions were raised, in this order, and no others: that of what
/// was taken, and that of what was put out. After a turn that was answered no condition is owed a walk. A law: the call
/// does nothing.
pub fn law_turn()
    ensures idle { (shape : Shape) (net : List Inputs) (old new : PassView) → DidTurn shape net turned.Idle old new
        → HasIdled old new }
    ensures ran { (shape : Shape) (net : List Inputs) (t : ℕ) (v : Verdict) (old new : PassView)
        → DidTurn shape net (turned.Ran t v) old new → WasPickedAndRun t old new }
    ensures raised { (shape : Shape) (net : List Inputs) (t : ℕ) (v : Verdict) (old new : PassView)
        → DidTurn shape net (turned.Ran t v) old new → HasRaised (raises_of (inputs_at net t) t v) old.trace new.trace }
    ensures paid { (new : PassView) (k : ℕ) → IsAtRest new → owes_walk new.trace k ≡ false }
{}

/// How the task goes on whose body had a turn. Where it waits for an item of the task x, it was asked to sleep at 2x,
/// and where it waits for room, at 2t + 1: with a value that this call had loaded before the body's turn. Where its end
/// was put out, it died in this call. A law: the call does nothing.
pub fn law_went_on()
    ensures waits_in { (shape : Shape) (net : List Inputs) (t side x : ℕ) (v : Verdict) (old new : PassView)
        → DidTurn shape net (turned.Ran t v) old new → v.then ≡ verdict.WaitIn side
        → side_of (inputs_at net t) side ≡ Some x → HasWaited t (2 * x) old new }
    ensures waits_out { (shape : Shape) (net : List Inputs) (t : ℕ) (v : Verdict) (old new : PassView)
        → DidTurn shape net (turned.Ran t v) old new → v.then ≡ verdict.WaitOut → HasWaited t (2 * t + 1) old new }
    ensures exits { (shape : Shape) (net : List Inputs) (t : ℕ) (v : Verdict) (old new : PassView)
        → DidTurn shape net (turned.Ran t v) old new → v.then ≡ verdict.Exit → HasDiedNow t old new }
{}
