//! What a shared table knows of the bodies that it keeps.
ghost use Rattle.std.specs.Prelude.{ℕ, List, [], Bool, true};

/// A task's body, as a table of tasks keeps it from its making to its close.
pub trait Kept: Send + Drop {
    /// What it keeps for good.
    ghost lasting: { Self → List ℕ };

    /// Whether it has ended.
    ghost ended: { Self → Bool };
}

/// A body that does nothing, and has ended.
impl Kept for () {
    ghost lasting = { λ _. [] };

    ghost ended = { λ _. true };
}
