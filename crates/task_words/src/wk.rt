//! The shared table.
ghost use Rattle.std.specs.Prelude.{◌≡◌};
ghost use Rattle.handoff_data.specs.Shape.{IsShape};

use handoff_data::Shape;
use std::marker::Model;
use word_table::{Kept, Words};

/// All words and slots of a machine, which its threads share. Contracts see which table it is, its shape, and what each
/// task's body keeps for good.
#[derive(Drop)]
pub struct Wk<B: Kept> {
    pub(crate) words: Words<B>,
}

impl<B: Kept> Model for Wk<B> {
    ghost use Rattle.word_table.specs.Views.{WordsView};

    ghost Value = { WordsView };

    ghost use Rattle.handoff_data.specs.Shape.{IsShape};

    ghost view = { λ w. w.words };

    ghost invariant = { λ w. IsShape w.words.shape };
}

impl<B: Kept> Wk<B> {
    /// The shape of the machine.
    pub fn shape(&self) -> Shape
        ensures shape { result ≡ self.now.shape }
        ensures valid { IsShape self.now.shape }
    {
        self.words.shape()
    }
}
