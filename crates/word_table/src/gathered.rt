//! The tokens that come back at a table's end.
//!
//! | Token | Made by | Ended by | So that nobody forgets to |
//! |---|---|---|---|
//! | `Gathered` | `Words::gather` | `Words::close` | take the token of each seat back |
//! | `Token` | `Words::new`, one a seat | `Words::take_back` | come back, with nothing out |
ghost use Rattle.std.specs.Prelude.{◌≡◌, ◌∷◌, []};
ghost use Rattle.word_table.specs.Gathered.{IsGatheredOf};
ghost use Rattle.word_table.specs.Plays.{sat};
ghost use Rattle.word_table.specs.Views.{IsOf};

use crate::plays::{Enter, Gather};
use crate::slot::Slot;
use crate::token::Token;
use crate::view::View;
use crate::words::Words;
use atomic_table::Seat;
use handoff_data::Kept;
use std::marker::Model;

/// The tokens that a table has taken back, as one seat. It has no `Drop`, so it ends in `Words::close`. Contracts see
/// its table and the tokens, newest first.
pub struct Gathered<B: Kept> {
    pub(crate) seat: Seat<Slot<B>, View>,
}

impl<B: Kept> Model for Gathered<B> {
    ghost use Rattle.word_table.specs.Gathered.{GatheredView};

    ghost Value = { GatheredView };

    ghost use Rattle.word_table.specs.Gathered.{gathered_view, IsGathered};

    ghost view = { λ g. gathered_view g.seat.table_id g.seat.me.0 };

    ghost invariant = { λ g. IsGathered g.seat.table_id g.seat.me };
}

fn seat_of<B: Kept>(token: Token) -> Seat<Slot<B>, View>
    ensures id { result.table_id ≡ token.of }
    ensures me { result.me ≡ sat (record { shape = token.shape; lasting = token.lasting }) token.seat token.trace }
{
    let Token { badge, seat: _ } = token;
    badge.into_seat()
}

impl<B: Kept> Words<B> {
    /// Begins the table's end: no token has come back. It takes no memory.
    pub fn gather(&self) -> Gathered<B>
        ensures of { IsGatheredOf self.now result }
        ensures none { result.tokens ≡ [] }
    {
        let (_, seat) = self.table.shared.load_new_seat::<Enter>(0);
        Gathered { seat }
    }

    /// Takes the token of a seat back. It takes no memory.
    pub fn take_back(&self, gathered: &mut Gathered<B>, token: Token)
        requires of { IsOf self.now token }
        requires gathered { IsGatheredOf self.now gathered.old }
        ensures of { IsGatheredOf self.now gathered.new }
        ensures tokens { gathered.new.tokens ≡ token ∷ gathered.old.tokens }
    {
        self.table
            .shared
            .join_seat::<Gather>(&mut gathered.seat, seat_of(token));
    }
}
