//! What the calls mean for those who wait.
ghost use Rattle.std.specs.Prelude.{◌≡◌, ℕ, ◌<◌, ◌↔◌, Bool, List, Option, Some, None};
ghost use Rattle.handoff_data.specs.declared.shape.Shape.{Shape};
ghost use Rattle.handoff_data.specs.declared.state.State.{State};
ghost use Rattle.task_words.specs.Records.{Rec};
ghost use Rattle.task_words.specs.Views.{PassView};
ghost use Rattle.wait_queue.specs.Entering.{IsPrepared, IsFinished};
ghost use Rattle.wait_queue.specs.Laws.{IsStoredWithin, IsGone, HasMetAll, IsEnough, NoneWoken};
ghost use Rattle.wait_queue.specs.Walks.{IsWalked};

/// After `prepare` an entry of the current task stands in the wait queue, and its state was stored under the lock with
/// the entry in; after `finish` it has none there, and the others' entries are as they were. A law: the call does
/// nothing.
pub fn law_prepared()
    ensures prepared { (k s : ℕ) (exclusive : Bool) (state : State) (old new : List Rec)
        → IsPrepared k exclusive state s old new → IsStoredWithin k exclusive state s old new }
    ensures finished { (k s : ℕ) (old new : List Rec) → IsFinished k s old new → IsGone k s old new }
{}

/// A walk that wasn't asked for a number met every entry; one that was met all, or ended as that many true exclusive
/// wakes were made, and made no more. It answers 0 exactly where none of the entries that it met gave a true wake. A
/// law: the call does nothing.
pub fn law_walked()
    ensures all { (shape : Shape) (k woken : ℕ) (old new : PassView)
        → IsWalked shape k None old new woken → HasMetAll shape k old new }
    ensures asked { (shape : Shape) (k n woken : ℕ) (old new : PassView) → 0 < n
        → (w : IsWalked shape k (Some n) old new woken) → IsEnough n w.meetings w.rest }
    ensures none { (shape : Shape) (k woken : ℕ) (limit : Option ℕ) (old new : PassView)
        → (w : IsWalked shape k limit old new woken) → (woken ≡ 0) ↔ NoneWoken w.meetings }
{}
