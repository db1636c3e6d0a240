//! What the steps have in common.

ghost use Rattle.std.specs.Prelude.{◌≡◌, ◌<◌, ◌^◌, ◌↔◌, IsTrue, OnOk, true};
ghost use Rattle.core_data.specs.Columns.{Columns, columns, put_at};
ghost use Rattle.core_kinds.specs.Steps.{IsRunnable, is_sleep, stored_word, numbered_reads};

use core_data::{Act, Core, TaskReads};
use handoff_data::{NoMemory, SeatNo, State, TaskNo};
use step_stores::{note, reads, seats, set_reads, tasks};

/// Past this a number of changes doesn't rise.
pub const END: u64 = 1 << 60;

/// Whether seat and task are of the shape.
pub fn is_of_shape(core: &Core, s: SeatNo, t: TaskNo) -> bool
    ensures { IsTrue result ↔ ((s < (columns core.now).seats) × (t < (columns core.now).tasks)) }
{
    (s as usize) < seats(core) && (t as usize) < tasks(core)
}

/// Whether a task in this state may be queued: TASK_RUNNING or TASK_NEW.
pub fn is_runnable(state: State) -> bool
    ensures { IsTrue result ↔ IsRunnable state }
{
    state.0 == State::TASK_RUNNING.0 || state.0 == State::TASK_NEW.0
}

/// Whether this is a sleep state.
pub fn is_sleep(state: State) -> bool
    ensures { result ≡ is_sleep state }
{
    state.0 == 1 || state.0 == 2
}

/// What follows a store of a word of task t: what the seat has read of it holds no more. Answers `NoMemory` where
/// memory runs out.
pub fn renew(core: &mut Core, s: SeatNo, t: TaskNo) -> Result<(), NoMemory>
    requires { s < (columns core.old).seats }
    ensures { OnOk result (columns core.new ≡ stored_word (columns core.old) s t) }
{
    let old = reads(core, s, t);
    set_reads(
        core,
        s,
        TaskReads {
            t,
            state: None,
            rq: None,
            busy: None,
            number: old.number,
            cpu: old.cpu,
        },
    )?;
    note(core, s, Act::Renewed { t })?;
    note(core, s, Act::StoredWord { t })?;
    Ok(())
}
