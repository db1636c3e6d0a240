//! The seats that a worker drives.
ghost use Rattle.std.specs.Prelude.{◌≡◌, false, IfOk, OnOk, OnErr, All};
ghost use Rattle.run_cells.specs.NetMaps.{IsNetMap};
ghost use Rattle.run_rounds.specs.Seats.{IsReady, Goes, GoOn, HasTurned, dead_after, has_run};

use crate::shared::Shared;
use crate::shift::Shift;
use handoff_data::{NoMemory, TaskNo};
use pipe_bodies::{Then, Work};
use run_cells::{Cell, Gate, NetMap};
use run_turns::{Turned, cpu_turn};
use std::sync::Wait;
use task_words::{Pass, Wk};

/// A seat: its pass, its gate if it has one, and the tasks that died there.
#[derive(Drop)]
pub struct Seat<G> {
    pub pass: Pass,
    pub gate: Option<G>,
    pub dead: Vec<TaskNo>,
}

/// The seats of one worker, and whether memory was refused.
#[derive(Drop)]
pub struct Worker<G> {
    pub seats: Vec<Seat<G>>,
    pub refused: bool,
}

// The most turns of a seat in a row, while the other seats of its worker wait.
const BURST: u32 = 64;

// The most bursts of all its seats that a worker makes in a round: twice its turns, so that it has as many looks in
// which no task runs.
const LOOKS: u32 = 8192;

// Puts the task that a turn ended on the list of the dead, if it ended one; whether a task ran.
fn note(shared: &Shared, dead: &mut Vec<TaskNo>, turned: Turned) -> Result<bool, NoMemory>
    ensures ran { IfOk result (λ ran. ran ≡ has_run turned) }
    ensures dead { OnOk result (dead.new.items ≡ dead_after turned dead.old.items) }
    ensures err { OnErr result (dead.new.items ≡ dead.old.items) }
{
    match turned {
        Turned::Idle => Ok(false),
        Turned::Ran { t, verdict } => {
            if verdict.then == Then::Exit {
                dead.push(t)?;
                shared.count_death();
            }
            Ok(true)
        }
    }
}

// One turn of a seat; whether a task ran.
fn turn<W: Work, G: Gate, R: Wait>(
    rt: &R,
    wk: &Wk<Cell<W>>,
    net: &NetMap,
    shared: &Shared,
    seat: &mut Seat<G>,
) -> Result<bool, NoMemory>
    requires net { IsNetMap net.now wk.now.shape }
    requires ready { IsReady wk.now seat.old }
    ensures goes { Goes G.told seat.old seat.new }
    ensures ready { OnOk result (IsReady wk.now seat.new) }
    ensures turned { IfOk result (λ ran. HasTurned wk.now.shape net.now ran seat.old seat.new) }
{
    let turned = cpu_turn(rt, wk, &mut seat.pass, net, &mut seat.gate)?;
    let ran = note(shared, &mut seat.dead, turned)?;
    Ok(ran)
}

// A burst of a seat: turns in a row while tasks run and the worker has turns left; whether a task ran.
fn burst<W: Work, G: Gate, R: Wait>(
    rt: &R,
    wk: &Wk<Cell<W>>,
    net: &NetMap,
    shared: &Shared,
    shift: &mut Shift,
    seat: &mut Seat<G>,
) -> Result<bool, NoMemory>
    requires net { IsNetMap net.now wk.now.shape }
    requires ready { IsReady wk.now seat.old }
    ensures goes { Goes G.told seat.old seat.new }
    ensures ready { OnOk result (IsReady wk.now seat.new) }
{
    for n in 0..BURST {
        if shift.is_used_up() {
            return Ok(n > 0);
        }
        if !turn(rt, wk, net, shared, seat)? {
            return Ok(n > 0);
        }
        shift.count_turn(shared);
    }
    Ok(true)
}

// A burst of each seat; whether a task ran.
fn bursts<W: Work, G: Gate, R: Wait>(
    rt: &R,
    wk: &Wk<Cell<W>>,
    net: &NetMap,
    shared: &Shared,
    shift: &mut Shift,
    seats: &mut Vec<Seat<G>>,
) -> Result<bool, NoMemory>
    requires net { IsNetMap net.now wk.now.shape }
    requires ready { All (IsReady wk.now) seats.old.items }
    ensures goes { GoOn G.told seats.old.items seats.new.items }
    ensures ready { OnOk result (All (IsReady wk.now) seats.new.items) }
{
    let mut ran = false;
    for i in 0..seats.len() {
        if burst(rt, wk, net, shared, shift, &mut seats[i])? {
            ran = true;
        }
    }
    Ok(ran)
}

// Bursts of all seats, one after another, until the worker leaves the round.
fn all_bursts<W: Work, G: Gate, R: Wait>(
    rt: &R,
    wk: &Wk<Cell<W>>,
    net: &NetMap,
    shared: &Shared,
    shift: &mut Shift,
    seats: &mut Vec<Seat<G>>,
) -> Result<(), NoMemory>
    requires net { IsNetMap net.now wk.now.shape }
    requires ready { All (IsReady wk.now) seats.old.items }
    ensures goes { GoOn G.told seats.old.items seats.new.items }
    ensures ready { OnOk result (All (IsReady wk.now) seats.new.items) }
{
    for _ in 0..LOOKS {
        let ran = bursts(rt, wk, net, shared, shift, seats)?;
        if !shift.goes_on(rt, shared, ran) {
            return Ok(());
        }
    }
    // A turn of another worker has taken longer than all these looks. All meet in the next round.
    shared.end_round();
    Ok(())
}

/// What a worker does in a round: at most 4,096 turns, and nothing more once memory is refused, which it then keeps.
pub fn drive<W: Work, G: Gate, R: Wait>(
    rt: &R,
    wk: &Wk<Cell<W>>,
    net: &NetMap,
    shared: &Shared,
    worker: &mut Worker<G>,
)
    requires net { IsNetMap net.now wk.now.shape }
    requires ready { All (IsReady wk.now) worker.old.seats.items }
    ensures goes { GoOn G.told worker.old.seats.items worker.new.seats.items }
    ensures ready { worker.new.refused ≡ false → All (IsReady wk.now) worker.new.seats.items }
{
    let mut shift = Shift::begin(shared);
    let refused = all_bursts(rt, wk, net, shared, &mut shift, &mut worker.seats).is_err();
    shift.end(shared, refused);
    worker.refused = refused;
}
