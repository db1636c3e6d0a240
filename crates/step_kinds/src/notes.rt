//! What a seat notes where a test holds.

ghost use Rattle.std.specs.Prelude.{◌≡◌, ◌<◌, OnOk, true};
ghost use Rattle.core_data.specs.Columns.{Columns, columns};
ghost use Rattle.core_kinds.specs.Waking.{noted_if, logged_if, seen_if, slept_if, ran_if, tested_if};

use core_data::{Act, Core, Test};
use handoff_data::{CondNo, Entry, NoMemory, SeatNo, State, TaskNo};
use step_stores::{forget_sleep, log, note, put_seen, set_test};

/// Makes a step the latest of seat s, where `on`. Answers `NoMemory` where memory runs out.
pub fn note_if(core: &mut Core, s: SeatNo, act: Act, on: bool) -> Result<(), NoMemory>
    requires { s < (columns core.old).seats }
    ensures { OnOk result (columns core.new ≡ noted_if on (columns core.old) s act) }
{
    if on {
        note(core, s, act)?;
    }
    Ok(())
}

/// Adds an entry to the journal of seat s, where `on`. Answers `NoMemory` where memory runs out.
pub fn log_if(core: &mut Core, s: SeatNo, entry: Entry, on: bool) -> Result<(), NoMemory>
    requires { s < (columns core.old).seats }
    ensures { OnOk result (columns core.new ≡ logged_if on (columns core.old) s entry) }
{
    if on {
        log(core, s, entry)?;
    }
    Ok(())
}

/// Sets the state that seat s has read of its current task under the lock of its own queue, where `on`.
pub fn see_if(core: &mut Core, s: SeatNo, state: State, on: bool)
    requires { s < (columns core.old).seats }
    ensures { columns core.new ≡ seen_if on (columns core.old) s state }
{
    if on {
        put_seen(core, s, Some(state));
    }
}

/// What a store of a sleep state makes of what seat s knows: the tests of t are those after it.
fn sleep(core: &mut Core, s: SeatNo, t: TaskNo) -> Result<(), NoMemory>
    requires { s < (columns core.old).seats }
    ensures { OnOk result (columns core.new ≡ slept_if true (columns core.old) s t) }
{
    forget_sleep(core, s, t);
    note(core, s, Act::Slept { t })?;
    Ok(())
}

/// The same, where `on`. Answers `NoMemory` where memory runs out.
pub fn sleep_if(core: &mut Core, s: SeatNo, t: TaskNo, on: bool) -> Result<(), NoMemory>
    requires { s < (columns core.old).seats }
    ensures { OnOk result (columns core.new ≡ slept_if on (columns core.old) s t) }
{
    if on {
        sleep(core, s, t)?;
    }
    Ok(())
}

/// Notes that seat s passed task t, where `on`. Answers `NoMemory` where memory runs out.
pub fn run_if(core: &mut Core, s: SeatNo, t: TaskNo, on: bool) -> Result<(), NoMemory>
    requires { s < (columns core.old).seats }
    ensures { OnOk result (columns core.new ≡ ran_if on (columns core.old) s t) }
{
    if on {
        note(core, s, Act::Passed { t })?;
    }
    Ok(())
}

/// Sets `v` as what task t tested at condition k, where `on`. Answers `NoMemory` where memory runs out.
pub fn test_if(
    core: &mut Core,
    s: SeatNo,
    t: TaskNo,
    k: CondNo,
    v: u64,
    on: bool,
) -> Result<(), NoMemory>
    requires { s < (columns core.old).seats }
    ensures { OnOk result (columns core.new ≡ tested_if on (columns core.old) s t k v) }
{
    if on {
        set_test(core, s, Test { t, k, v })?;
    }
    Ok(())
}
