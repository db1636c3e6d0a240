//! Seats are dealt to workers, and taken back.
ghost use Rattle.std.specs.Prelude.{◌≡◌, ◌<◌, ◌≤◌, ◌++◌, ◌∷◌, [], List, All, IfOk, IfNone, length, map, replicate};
ghost use Rattle.std.specs.Option.{option_to_list};
ghost use Rattle.std.specs.Vec.{vec_len, vec_capacity};
ghost use Rattle.run_rounds.specs.declared.seat.Seat.{Seat as SeatOf};
ghost use Rattle.run_script.specs.Dealt.{dealt};
ghost use Rattle.run_script.specs.Seated.{seats_of, HasRoom};

use handoff_data::NoMemory;
use run_rounds::{Seat, Worker};
use std::alloc::Global;

// A worker without seats, with room for so many.
fn worker_of<G>(alloc: Global, room: usize) -> Result<Worker<G>, NoMemory>
    ensures none { IfOk result (λ w. seats_of w ≡ []) }
    ensures room { IfOk result (HasRoom room) }
{
    Ok(Worker {
        seats: Vec::with_capacity(alloc, room)?,
        refused: false,
    })
}

/// So many workers without seats, each with room for so many; or NoMemory.
pub fn workers_of<G: Drop>(
    alloc: Global,
    count: usize,
    room: usize,
) -> Result<Vec<Worker<G>>, NoMemory>
    ensures none { IfOk result (λ ws. map seats_of ws.items ≡ replicate count []) }
    ensures room { IfOk result (λ ws. All (HasRoom room) ws.items) }
{
    let mut workers = Vec::with_capacity(alloc, count)?;
    for _ in 0..count {
        workers.push(worker_of(alloc, room)?)?;
    }
    Ok(workers)
}

// Gives a worker a seat more.
fn hand<G>(worker: &mut Worker<G>, seat: Seat<G>)
    requires room { vec_len worker.old.seats < vec_capacity worker.old.seats }
    ensures seats { seats_of worker.new ≡ seats_of worker.old ++ seat ∷ [] }
    ensures capacity { vec_capacity worker.new.seats ≡ vec_capacity worker.old.seats }
{
    worker.seats.push_reserved(seat);
}

/// Deals the seats to the workers, from the last one down: seat s to worker s mod workers. It takes no memory.
pub fn deal<G>(seats: &mut Vec<Seat<G>>, workers: &mut Vec<Worker<G>>)
    requires some { 0 < length workers.old.items }
    requires none { map seats_of workers.old.items ≡ replicate (length workers.old.items) [] }
    requires room { All (HasRoom (length seats.old.items)) workers.old.items }
    ensures none { seats.new.items ≡ [] }
    ensures dealt { map seats_of workers.new.items ≡ dealt (length workers.old.items) 0 seats.old.items }
    ensures count { length workers.new.items ≡ length workers.old.items }
    ensures capacity { vec_capacity seats.new ≡ vec_capacity seats.old }
{
    let count = workers.len();
    while let Some(seat) = seats.pop() {
        let s = seats.len();
        hand(&mut workers[s % count], seat);
    }
}

// Takes a worker's last seat.
fn take_last<G>(worker: &mut Worker<G>) -> Option<Seat<G>>
    ensures taken { seats_of worker.old ≡ seats_of worker.new ++ option_to_list result }
    ensures none { IfNone result (seats_of worker.old ≡ []) }
{
    worker.seats.pop()
}

/// Takes the seats back that were dealt to the workers, so many, in their order. It takes no memory.
pub fn gather<G>(workers: &mut Vec<Worker<G>>, seats: &mut Vec<Seat<G>>, count: usize)
    requires some { 0 < length workers.old.items }
    requires dealt { (all : List (SeatOf G)) × (length all ≡ count)
        × (map seats_of workers.old.items ≡ dealt (length workers.old.items) 0 all) }
    requires none { seats.old.items ≡ [] }
    requires room { count ≤ vec_capacity seats.old }
    ensures { (all : List (SeatOf G)) → length all ≡ count
        → map seats_of workers.old.items ≡ dealt (length workers.old.items) 0 all → seats.new.items ≡ all }
{
    let places = workers.len();
    for s in 0..count {
        let Some(seat) = take_last(&mut workers[s % places]) else {
            unreachable!()
        };
        seats.push_reserved(seat);
    }
}
