//! The token of a seat, with the entries of its turn.
//!
//! | Token | Made by | Ended by | So that nobody forgets to |
//! |---|---|---|---|
//! | `Pass` | `Wk::new`, one a seat | `Wk::close` | give back what a seat holds: `close` wants all, holding nothing |
//! | an entry of the `Turn` | calls that make entries | `Pass::clear_turn` | tell it, and have room for the next ones |
//!
//! A turn of entries is no turn of a body (`Body::turn`). A pass has a `Drop`; one that is let go leaves a table that
//! nobody can close.
ghost use Rattle.std.specs.Prelude.{◌≡◌, ◌+◌, ◌*◌, ◌++◌, ◌<◌, [], length, slice_get, IfSome};
ghost use Rattle.task_words.specs.Views.{logged};
ghost use Rattle.word_steps.specs.Folds.{current_task, journal};

use handoff_data::{Entry, SeatNo, TaskNo};
use std::marker::Model;
use word_table::Token;

/// The entries that a pass's calls have made since the turn was last cleared, oldest first.
#[derive(Drop)]
pub struct Turn {
    pub(crate) entries: Vec<Entry>,
}

impl Model for Turn {
    ghost use Rattle.task_words.specs.Views.{TurnView};

    ghost Value = { TurnView };

    ghost use Rattle.std.specs.Prelude.{◌-◌};
    ghost use Rattle.std.specs.Vec.{vec_capacity, vec_len};

    ghost view = { λ t. record { entries = t.entries.items; spare = vec_capacity t.entries - vec_len t.entries } };
}

impl Turn {
    /// Entry `i` of the turn; none where there are not so many.
    pub fn get(&self, i: usize) -> Option<Entry>
        ensures { result ≡ slice_get self.now.entries i }
    {
        self.entries.get(i).copied()
    }

    // One entry more.
    pub(crate) fn log(&mut self, entry: Entry)
        requires spare { 0 < self.old.spare }
        ensures { self.new ≡ logged entry self.old }
    {
        self.entries.push_reserved(entry);
    }
}

/// The token of one seat: who has it makes that seat's steps. Contracts see the table, the seat's number, all that the
/// seat did, newest first, the turn, and the entries told before it. The journal of the seat is these and the turn's.
#[derive(Drop)]
pub struct Pass {
    pub(crate) token: Token,
    // Its current task, as its trace has it.
    pub(crate) current: Option<TaskNo>,
    pub(crate) turn: Turn,
}

impl Model for Pass {
    ghost use Rattle.task_words.specs.Views.{PassView};

    ghost Value = { PassView };

    ghost use Rattle.task_words.specs.Shown.{pass_view, IsPass};

    ghost view = { pass_view };

    ghost invariant = { IsPass };
}

impl Pass {
    /// The seat's number.
    pub fn seat(&self) -> SeatNo
        ensures { result ≡ self.now.seat }
    {
        self.token.seat()
    }

    /// The task that the seat runs, if it runs one.
    pub fn current(&self) -> Option<TaskNo>
        ensures current { result ≡ current_task self.now.seat self.now.trace }
        ensures task { IfSome result (λ t. t < self.now.shape.tasks) }
    {
        self.current
    }

    /// How many more entries the turn has room for.
    pub fn spare(&self) -> usize
        ensures spare { result ≡ self.now.turn.spare }
        ensures room { length self.now.turn.entries + self.now.turn.spare ≡ 4 * self.now.shape.tasks + 16 }
    {
        self.turn.entries.capacity() - self.turn.entries.len()
    }

    /// The entries of the turn: the last ones of the seat's journal.
    pub fn turn(&self) -> &Turn
        ensures turn { result.now ≡ self.now.turn }
        ensures tied { journal self.now.seat self.now.trace ≡ self.now.told ++ self.now.turn.entries }
    {
        &self.turn
    }

    /// Forgets the entries of the turn, which are told with it, so that the whole journal is. The room of the turn is
    /// then free: for four entries a task and sixteen. What the seat did stays.
    pub fn clear_turn(&mut self)
        ensures cleared { self.new ≡ record self.old {
          turn = record {
            entries = [];
            spare = 4 * self.old.shape.tasks + 16;
          };
          told = self.old.told ++ self.old.turn.entries;
        } }
        ensures all { self.new.told ≡ journal self.old.seat self.old.trace }
    {
        self.turn.entries.clear();
    }
}
