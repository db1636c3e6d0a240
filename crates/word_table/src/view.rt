//! What a seat of the table knows.
ghost use Rattle.std.specs.Prelude.{List};
ghost use Rattle.std.specs.Borrow.{ftrue};
ghost use Rattle.word_table.specs.Parts.{Part, Known};

use std::marker::Model;

/// One part, or none where it is spent, or more where it took in others. No value of it is made.
pub struct View {
    pub ghost parts: { List Part },
    pub ghost known: { Known },
}

impl Model for View {
    ghost also_owns = { λ _. ftrue };
}
