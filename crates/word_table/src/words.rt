//! The table with its shape.
ghost use Rattle.std.specs.Prelude.{◌≡◌};
ghost use Rattle.handoff_data.specs.Shape.{IsShape};

use crate::rule::Board;
use handoff_data::{Kept, Shape, State};
use std::marker::Model;

/// The words and slots of a machine. Contracts see its name, its shape, and what each task's body keeps for good.
#[derive(Drop)]
pub struct Words<B: Kept> {
    pub(crate) table: Board<B>,
    pub(crate) shape: Shape,
    // Room for what `close` gives.
    pub(crate) states: Vec<State>,
    pub(crate) conds: Vec<u64>,
}

impl<B: Kept> Model for Words<B> {
    ghost use Rattle.word_table.specs.Views.{WordsView};

    ghost Value = { WordsView };

    ghost use Rattle.std.specs.Prelude.{◌≡◌, ◌+◌, ◌*◌, length};
    ghost use Rattle.handoff_data.specs.Shape.{IsShape};
    ghost use Rattle.word_steps.specs.Words.{STRIDE};
    ghost use Rattle.word_table.specs.Layout.{SLOTS, rows_of};
    ghost use Rattle.word_table.specs.End.{HasRoom};
    ghost use Rattle.word_table.specs.Ruled.{lastings};

    ghost view = { λ w. record {
      name = w.table.shared.table_id;
      shape = w.shape;
      lasting = lastings B.lasting w.table.shared.key;
    } };

    ghost invariant = { λ w. (w.table.shared.table_id.words ≡ STRIDE * rows_of w.shape)
        × (w.table.shared.table_id.slots ≡ SLOTS * rows_of w.shape + 1)
        × (length w.table.shared.key.bodies.value.items ≡ w.shape.tasks) × (w.table.shared.key.shape ≡ w.shape)
        × IsShape w.shape × HasRoom w.shape.tasks w.states × HasRoom w.shape.conds w.conds };
}

impl<B: Kept> Words<B> {
    /// The shape of the machine.
    pub fn shape(&self) -> Shape
        ensures shape { result ≡ self.now.shape }
        ensures valid { IsShape self.now.shape }
    {
        self.shape
    }
}
