//! What a seat's thread holds.
ghost use Rattle.std.specs.Prelude.{◌≡◌};

use crate::view::View;
use atomic_table::Badge;
use std::marker::Model;

/// The token of one seat, which has no slot in its hand. Contracts see its table, its number and its trace.
#[derive(Drop)]
pub struct Token {
    pub(crate) badge: Badge<View>,
    pub(crate) seat: u32,
}

impl Model for Token {
    ghost use Rattle.word_table.specs.Views.{TokenView};

    ghost Value = { TokenView };

    ghost use Rattle.word_table.specs.Shown.{token_view, IsToken};

    ghost view = { token_view };

    ghost invariant = { IsToken };
}

impl Token {
    /// The seat's number.
    pub fn seat(&self) -> u32
        ensures { result ≡ self.now.seat }
    {
        self.seat
    }
}
