//! Rounds of all workers.
ghost use Rattle.std.specs.Prelude.{◌≡◌, ◌<◌, ◌↔◌, ℕ, IsTrue, true, false, OnOk, OnErr, All, Contains, length};
ghost use Rattle.run_cells.specs.NetMaps.{IsNetMap};
ghost use Rattle.run_rounds.specs.Seats.{IsReady, IsIdle, GoOn, AllGoOn, HasDiedAt, HasDiedSomewhere, IsOver};

use crate::seat::{Seat, Worker, drive};
use crate::shared::Shared;
use handoff_data::{NoMemory, TaskNo};
use pipe_bodies::Work;
use run_cells::{Cell, Gate, NetMap};
use std::sync::Wait;
use std::thread::{Threads, for_each_mut};
use task_words::Wk;

// A round: each worker drives its seats, in a thread of its own where one can be made.
fn round<W: Work, G: Gate + Send, R: Threads + Wait + Sync>(
    rt: &R,
    wk: &Wk<Cell<W>>,
    net: &NetMap,
    shared: &Shared,
    workers: &mut Vec<Worker<G>>,
)
    requires net { IsNetMap net.now wk.now.shape }
    requires ready { All (λ w. All (IsReady wk.now) w.seats.items) workers.old.items }
    ensures count { length workers.new.items ≡ length workers.old.items }
    ensures goes { AllGoOn G.told workers.old.items workers.new.items }
    ensures ready { All (λ w. w.refused ≡ false → All (IsReady wk.now) w.seats.items) workers.new.items }
{
    let count = workers.len();
    if count == 0 {
        return;
    }
    shared.begin_round();
    for_each_mut(
        rt,
        workers.as_mut_slice(),
        count,
        &|_, worker: &mut Worker<G>|
            requires net { IsNetMap net.now wk.now.shape }
            requires ready { All (IsReady wk.now) worker.old.seats.items }
            ensures goes { GoOn G.told worker.old.seats.items worker.new.seats.items }
            ensures ready { worker.new.refused ≡ false → All (IsReady wk.entry.now) worker.new.seats.items }
        { drive(rt, wk, net, shared, worker) },
    );
}

// Whether memory was refused to no worker.
fn is_granted<G>(workers: &[Worker<G>]) -> bool
    ensures { IsTrue result ↔ All (λ w. w.refused ≡ false) workers.now }
{
    workers.iter().all(|worker| !worker.refused)
}

// Whether t is on this list.
fn has(dead: &[TaskNo], t: TaskNo) -> bool
    ensures { result ≡ true → Contains dead.now t }
{
    for other in dead {
        if *other == t {
            return true;
        }
    }
    false
}

// Whether t has died at one of these seats.
fn has_died_at<G>(seats: &[Seat<G>], t: TaskNo) -> bool
    ensures { result ≡ true → HasDiedAt seats.now t }
{
    for seat in seats {
        if has(seat.dead.as_slice(), t) {
            return true;
        }
    }
    false
}

// Whether t has died at a seat of one of these workers.
fn has_died<G>(workers: &[Worker<G>], t: TaskNo) -> bool
    ensures { result ≡ true → HasDiedSomewhere workers.now t }
{
    for worker in workers {
        if has_died_at(worker.seats.as_slice(), t) {
            return true;
        }
    }
    false
}

// Whether no seat has a current task.
fn are_idle<G>(seats: &[Seat<G>]) -> bool
    ensures { IsTrue result ↔ All IsIdle seats.now }
{
    seats.iter().all(|seat| seat.pass.current().is_none())
}

fn are_all_idle<G>(workers: &[Worker<G>]) -> bool
    ensures { result ≡ true → All (λ w. All IsIdle w.seats.items) workers.now }
{
    for worker in workers {
        if !are_idle(worker.seats.as_slice()) {
            return false;
        }
    }
    true
}

// Whether each of so many tasks has died.
fn have_died<G>(workers: &[Worker<G>], tasks: u32) -> bool
    ensures { result ≡ true → (t : ℕ) → t < tasks → HasDiedSomewhere workers.now t }
{
    for t in 0..tasks {
        if !has_died(workers, t) {
            return false;
        }
    }
    true
}

// .. and no seat has a current task.
fn is_over<G>(workers: &[Worker<G>], tasks: u32) -> bool
    ensures { result ≡ true → IsOver tasks workers.now }
{
    if !have_died(workers, tasks) {
        return false;
    }
    are_all_idle(workers)
}

/// Rounds of the workers, one after another, until each task of the table has died and no seat has a current task, or
/// memory is refused to one of them.
pub fn run_rounds<W: Work, G: Gate + Send, R: Threads + Wait + Sync>(
    rt: &R,
    wk: &Wk<Cell<W>>,
    net: &NetMap,
    shared: &Shared,
    workers: &mut Vec<Worker<G>>,
) -> Result<(), NoMemory>
    requires net { IsNetMap net.now wk.now.shape }
    requires ready { All (λ w. All (IsReady wk.now) w.seats.items) workers.old.items }
    ensures count { length workers.new.items ≡ length workers.old.items }
    ensures goes { AllGoOn G.told workers.old.items workers.new.items }
    ensures ready { OnOk result (All (λ w. All (IsReady wk.now) w.seats.items) workers.new.items) }
    ensures over { OnOk result (IsOver wk.now.shape.tasks workers.new.items) }
    ensures refused { OnErr result (¬ (All (λ w. w.refused ≡ false) workers.new.items)) }
{
    let tasks = wk.shape().tasks;
    for _ in rt.forever() {
        round(rt, wk, net, shared, workers);
        if !is_granted(workers.as_slice()) {
            return Err(NoMemory);
        }
        if is_over(workers.as_slice(), tasks) {
            return Ok(());
        }
    }
    unreachable!()
}
