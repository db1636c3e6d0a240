//! The place of each task.

use crate::moves::{may_move, moved, task_of};
use handoff_data::{Entry, NoMemory, Place, Q, SeatNo, TaskNo};
use std::alloc::Global;
use std::marker::Model;

/// An entry that is no move from the place of its task.
#[derive(Clone, Copy, Debug, PartialEq, Eq)]
pub struct Illegal {
    pub entry: Entry,
    pub place: Place,
}

/// The place of each task. Contracts see it as the list of the places, by the tasks' numbers.
#[derive(Debug, Drop)]
pub struct Table {
    places: Vec<Place>,
}

impl Model for Table {
    ghost use Rattle.std.specs.Prelude.{List};
    ghost use Rattle.handoff_data.specs.declared.place.Place.{Place};

    ghost Value = { List Place };

    ghost view = { λ table. table.places.items };
}

impl Table {
    ghost use Rattle.std.specs.Prelude.{◌≡◌, ◌<◌, Some, length, slice_get, replicate, IfOk, IfSome, OnOk, OnErr, IfErr};
    ghost use Rattle.handoff_data.specs.Moves.{MovesFrom, task_of as task_named};
    ghost use Rattle.place_table.specs.Table.{start_place, Applies, IsIllegal};

    /// A table of this many tasks, each of them new and not busy. Answers `NoMemory` where memory runs out.
    pub fn new(alloc: Global, tasks: u32) -> Result<Table, NoMemory>
        ensures { IfOk result (λ table. table ≡ replicate tasks start_place) }
    {
        let start = Place { q: Q::New, b: None };
        Ok(Table {
            places: vec![in alloc; start; tasks as usize]?,
        })
    }

    /// How many tasks there are.
    pub fn len(&self) -> usize
        ensures { result ≡ length self.now }
    {
        self.places.len()
    }

    /// Where the task is.
    pub fn place(&self, t: TaskNo) -> Place
        requires { t < length self.now }
        ensures { slice_get self.now t ≡ Some result }
    {
        self.places[t as usize]
    }

    /// Makes the move of an entry of this seat, whose numbers aren't looked at. An entry that is no move changes
    /// nothing. `Illegal` comes exactly where the entry isn't a move from its task's place, and changes nothing.
    pub fn apply(&mut self, seat: SeatNo, entry: Entry) -> Result<(), Illegal>
        requires { IfSome (task_named entry) (λ t. t < length self.old) }
        ensures ok { OnOk result (Applies seat self.old entry self.new) }
        ensures illegal { IfErr result (λ illegal. IsIllegal seat self.old entry illegal) }
        ensures err { OnErr result (self.new ≡ self.old) }
    {
        let Some(t) = task_of(entry) else {
            return Ok(());
        };
        let place = self.places[t as usize];
        if !may_move(seat, place, entry) {
            return Err(Illegal { entry, place });
        }
        self.places[t as usize] = moved(seat, place, entry);
        Ok(())
    }
}
