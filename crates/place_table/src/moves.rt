//! The table of moves.

ghost use Rattle.std.specs.Prelude.{◌≡◌, ◌↔◌, IsTrue};
ghost use Rattle.handoff_data.specs.Moves.{MovesFrom, moved as place_after, task_of as task_named};

use handoff_data::{Entry, Place, Q, SeatNo, TaskNo};

/// The task that an entry speaks of.
pub fn task_of(entry: Entry) -> Option<TaskNo>
    ensures { result ≡ task_named entry }
{
    match entry {
        Entry::New { t, .. }
        | Entry::Sleep { t, .. }
        | Entry::Wake { t, .. }
        | Entry::List { t, .. }
        | Entry::Enq { t, .. }
        | Entry::Out { t, .. }
        | Entry::In { t, .. }
        | Entry::Die { t, .. }
        | Entry::Pick { t, .. }
        | Entry::Finish { t, .. }
        | Entry::Mask { t, .. }
        | Entry::Stood { t, .. }
        | Entry::Done { t, .. }
        | Entry::Refused { t, .. } => Some(t),
        Entry::Offline { .. } | Entry::Up { .. } => None,
    }
}

/// Whether an entry of this seat is a move from this place, or no move at all.
pub fn may_move(seat: SeatNo, place: Place, entry: Entry) -> bool
    ensures { IsTrue result ↔ MovesFrom seat place entry }
{
    let Place { q, b } = place;
    match entry {
        Entry::New { .. } => q == Q::New && b == None,
        Entry::Pick { c, .. } | Entry::Out { c, .. } => q == Q::On(c) && b == None,
        Entry::Sleep { c, .. } | Entry::Die { c, .. } => q == Q::On(c) && b == Some(c),
        Entry::Finish { c, .. } => b == Some(c),
        Entry::Wake { .. } => q == Q::Off,
        Entry::List { c, .. } => q == Q::Waking(seat) && (b == None || b == Some(c)),
        Entry::Enq {
            c,
            by_list: true,
            ..
        } => q == Q::Listed(c) && b == None,
        Entry::Enq { by_list: false, .. } => q == Q::Waking(seat) && b == None,
        Entry::In { .. } => q == Q::Moving(seat) && b == None,
        Entry::Mask { .. }
        | Entry::Stood { .. }
        | Entry::Done { .. }
        | Entry::Offline { .. }
        | Entry::Up { .. }
        | Entry::Refused { .. } => true,
    }
}

/// Where the task is after an entry of this seat.
pub fn moved(seat: SeatNo, place: Place, entry: Entry) -> Place
    ensures { result ≡ place_after seat place entry }
{
    let Place { q, b } = place;
    match entry {
        Entry::New { c, .. } | Entry::Enq { c, .. } | Entry::In { c, .. } => Place {
            q: Q::On(c),
            b: None,
        },
        Entry::Pick { c, .. } => Place {
            q: Q::On(c),
            b: Some(c),
        },
        Entry::Sleep { c, .. } => Place {
            q: Q::Off,
            b: Some(c),
        },
        Entry::Finish { .. } => Place { q, b: None },
        Entry::Wake { .. } => Place {
            q: Q::Waking(seat),
            b,
        },
        Entry::List { c, .. } => Place { q: Q::Listed(c), b },
        Entry::Out { .. } => Place {
            q: Q::Moving(seat),
            b: None,
        },
        Entry::Die { c, .. } => Place {
            q: Q::Dead,
            b: Some(c),
        },
        Entry::Mask { .. }
        | Entry::Stood { .. }
        | Entry::Done { .. }
        | Entry::Offline { .. }
        | Entry::Up { .. }
        | Entry::Refused { .. } => place,
    }
}
