//! Takes and gives of locks and bodies are no kinds of step on one word, so what `Kind` asks of those is said here of
//! these, as laws: there is nothing to run.
ghost use Rattle.std.specs.Prelude.{ℕ, List, Bool};
ghost use Rattle.handoff_data.specs.declared.shape.Shape.{Shape};
ghost use Rattle.word_kinds.specs.Slots.{TakeIsEvent, GiveIsEvent, OutIsEvent, HomeIsEvent};
ghost use Rattle.word_rule.specs.Sorts.{Sort};
ghost use Rattle.word_steps.specs.Decode.{Homes};
ghost use Rattle.word_steps.specs.Records.{Rec};
ghost use Rattle.word_steps.specs.declared.val.Val.{Val};

/// A lock that is taken, and one that is given, is one event of the core that the words show.
pub fn locks_make_events()
    ensures takes { (shape : Shape) (words : ℕ → ℕ → ℕ) (homes : Homes) (traces : ℕ → List Rec) (s n : ℕ) (sort : Sort)
        (v : Val) → TakeIsEvent shape words homes traces s n sort v }
    ensures gives { (shape : Shape) (words : ℕ → ℕ → ℕ) (homes : Homes) (traces : ℕ → List Rec) (s n : ℕ) (sort : Sort)
        (taken given : Val) → GiveIsEvent shape words homes traces s n sort taken given }
{}

/// A body that is taken out, and one that comes home, is one event of that core.
pub fn bodies_make_events()
    ensures out { (shape : Shape) (words : ℕ → ℕ → ℕ) (homes : Homes) (traces : ℕ → List Rec) (s t : ℕ)
        → OutIsEvent shape words homes traces s t }
    ensures home { (shape : Shape) (words : ℕ → ℕ → ℕ) (homes : Homes) (traces : ℕ → List Rec) (s t : ℕ) (ended : Bool)
        → HomeIsEvent shape words homes traces s t ended }
{}
