//! The tasks of a table are started.
ghost use Rattle.std.specs.Prelude.{◌≡◌, ◌<◌, All, OnOk, length};
ghost use Rattle.run_rounds.specs.Seats.{IsReady, Goes, GoOn};

use handoff_data::{CpuNo, NoMemory, TaskNo};
use run_cells::Gate;
use run_rounds::Seat;
use run_turns::start_told;
use std::sync::Wait;
use task_words::{Kept, Wk};

// Starts a task on a processor, by the pass of a seat.
#[tactic(auto, using(run_rounds::proofs::Keeping::goes_by))]
fn start_one<B: Kept, G: Gate, R: Wait>(
    rt: &R,
    wk: &Wk<B>,
    seat: &mut Seat<G>,
    t: TaskNo,
    c: CpuNo,
) -> Result<(), NoMemory>
    requires ready { IsReady wk.now seat.old }
    requires task { t < wk.now.shape.tasks }
    requires processor { c < wk.now.shape.cpus }
    ensures goes { Goes G.told seat.old seat.new }
    ensures ready { OnOk result (IsReady wk.now seat.new) }
{
    start_told(rt, wk, &mut seat.pass, &mut seat.gate, t, c)
}

/// Starts each task of the table, by its number, on the processor of that number mod processors, by the pass of that
/// processor, and tells its gate. NoMemory where a gate refuses.
pub fn start_all<B: Kept, G: Gate, R: Wait>(
    rt: &R,
    wk: &Wk<B>,
    seats: &mut Vec<Seat<G>>,
) -> Result<(), NoMemory>
    requires ready { All (IsReady wk.now) seats.old.items }
    requires count { length seats.old.items ≡ wk.now.shape.cpus }
    ensures goes { GoOn G.told seats.old.items seats.new.items }
    ensures ready { OnOk result (All (IsReady wk.now) seats.new.items) }
{
    let shape = wk.shape();
    for t in 0..shape.tasks {
        let c = t % shape.cpus;
        start_one(rt, wk, &mut seats[c as usize], t, c)?;
    }
    Ok(())
}
