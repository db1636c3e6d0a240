//! A kind of step on one word, with its laws.
ghost use Rattle.std.specs.Prelude.{◌≡◌, ℕ, ◌<◌, ◌≤◌};
ghost use Rattle.handoff_data.specs.declared.shape.Shape.{Shape};
ghost use Rattle.word_steps.specs.Words.{STRIDE};
ghost use Rattle.word_table.specs.Kinds.{Note, May, Told, LeavesSlots, MakesEvents, KeepsRule};
ghost use Rattle.word_table.specs.Layout.{rows_of};

/// A kind of step on one word of a number's, in one column. In `note`, `may` and `told` stand the seat, its trace as it
/// was, the number, and then in `note` the word after and the word found, in `may` the word found and the word after,
/// in `told` the word found.
pub trait Kind {
    ghost col: { ℕ };
    // The numbers are below it: tasks, processors, conditions or seats.
    ghost bound: { Shape → ℕ };
    // Its record.
    ghost note: { Note };
    // When it may be made.
    ghost may: { May };
    // What is known of the word found.
    ghost told: { Told };

    /// The column of its word.
    fn column() -> usize
        ensures { result ≡ col };

    ghost low: { col < STRIDE };

    ghost rows: { (shape : Shape) → bound shape ≤ rows_of shape };

    // It takes no slot and gives none.
    ghost quiet: { LeavesSlots note };

    // Each step of it is one event of the core, and its record is that event's.
    ghost event: { MakesEvents col bound note may };

    // It keeps the rule.
    ghost keep: { KeepsRule col bound note may told };
}
