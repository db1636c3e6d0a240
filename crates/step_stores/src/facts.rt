//! What a seat knows by its own steps.

#![tactic(auto, unfolding(core_data::specs::Columns::columns))]

ghost use Rattle.std.specs.Prelude.{◌≡◌, ◌<◌};
ghost use Rattle.core_data.specs.Columns.{Columns, columns};

use core_data::{Act, Core};
use handoff_data::{CondNo, CpuNo, SeatNo, TaskNo};
use step_data::pos;

/// By the steps of seat s: whether a state of t that matches was read since its lock was taken.
pub fn matched(core: &Core, s: SeatNo, t: TaskNo) -> bool
    requires { s < (columns core.now).seats }
    ensures { result ≡ (columns core.now).has_matched s t }
{
    let row = &core.seats[s as usize];
    pos::is_since(&row.pos, Act::Matched { t }, Act::TookTask { t })
}

/// By the steps of seat s: whether a state of t that matches was read, and no word of t was stored since.
pub fn unstored(core: &Core, s: SeatNo, t: TaskNo) -> bool
    requires { s < (columns core.now).seats }
    ensures { result ≡ (columns core.now).is_unstored s t }
{
    let row = &core.seats[s as usize];
    pos::is_since(&row.pos, Act::Matched { t }, Act::Renewed { t })
}

/// By the steps of seat s: whether a matching state of t and then `on_rq` was read as 0, with no word of t
/// stored since.
pub fn saw_off(core: &Core, s: SeatNo, t: TaskNo) -> bool
    requires { s < (columns core.now).seats }
    ensures { result ≡ (columns core.now).saw_off s t }
{
    let row = &core.seats[s as usize];
    pos::is_since(&row.pos, Act::SawOff { t }, Act::Renewed { t })
}

/// By the steps of seat s: whether TASK_WAKING was stored, and t not queued since.
pub fn claimed(core: &Core, s: SeatNo, t: TaskNo) -> bool
    requires { s < (columns core.now).seats }
    ensures { result ≡ (columns core.now).is_claimed s t }
{
    let row = &core.seats[s as usize];
    pos::is_since(&row.pos, Act::Claimed { t }, Act::Queued { t })
}

/// By the steps of seat s: whether the busy word was read as clear since TASK_WAKING was stored.
pub fn clear(core: &Core, s: SeatNo, t: TaskNo) -> bool
    requires { s < (columns core.now).seats }
    ensures { result ≡ (columns core.now).saw_clear s t }
{
    let row = &core.seats[s as usize];
    pos::is_since(&row.pos, Act::SawClear { t }, Act::Claimed { t })
}

/// By the steps of seat s: whether a state that isn't TASK_WAKING was read, with no word of t stored since.
pub fn rest_state(core: &Core, s: SeatNo, t: TaskNo) -> bool
    requires { s < (columns core.now).seats }
    ensures { result ≡ (columns core.now).saw_rest s t }
{
    let row = &core.seats[s as usize];
    pos::is_since(&row.pos, Act::SawRest { t }, Act::Renewed { t })
}

/// By the steps of seat s: whether a state of t that isn't TASK_WAKING and then `on_rq` was read as 0, with no
/// word of t stored since.
pub fn rest_off(core: &Core, s: SeatNo, t: TaskNo) -> bool
    requires { s < (columns core.now).seats }
    ensures { result ≡ (columns core.now).saw_rest_off s t }
{
    let row = &core.seats[s as usize];
    pos::is_since(&row.pos, Act::SawRestOff { t }, Act::Renewed { t })
}

/// By the steps of seat s: whether t stored a sleep state since it was picked.
pub fn slept(core: &Core, s: SeatNo, t: TaskNo) -> bool
    requires { s < (columns core.now).seats }
    ensures { result ≡ (columns core.now).has_slept s t }
{
    let row = &core.seats[s as usize];
    pos::is_since(&row.pos, Act::Slept { t }, Act::Picked { t })
}

/// By the steps of seat s: whether the busy word of t was read as clear since the lock of queue c was taken.
pub fn idle(core: &Core, s: SeatNo, c: CpuNo, t: TaskNo) -> bool
    requires { s < (columns core.now).seats }
    ensures { result ≡ (columns core.now).saw_idle s c t }
{
    let row = &core.seats[s as usize];
    pos::is_since(&row.pos, Act::SawClear { t }, Act::TookQueue { c })
}

/// By the steps of seat s: whether t was queued since then.
pub fn added(core: &Core, s: SeatNo, c: CpuNo, t: TaskNo) -> bool
    requires { s < (columns core.now).seats }
    ensures { result ≡ (columns core.now).has_added s c t }
{
    let row = &core.seats[s as usize];
    pos::is_since(&row.pos, Act::Queued { t }, Act::TookQueue { c })
}

/// By the steps of seat s: whether t was passed since the lock of wait queue k was taken.
pub fn passed(core: &Core, s: SeatNo, k: CondNo, t: TaskNo) -> bool
    requires { s < (columns core.now).seats }
    ensures { result ≡ (columns core.now).has_passed s k t }
{
    let row = &core.seats[s as usize];
    pos::is_since(&row.pos, Act::Passed { t }, Act::TookWait { k })
}

/// By the steps of seat s: whether t stored its state since then, as the current task.
pub fn own_stored(core: &Core, s: SeatNo, k: CondNo, t: TaskNo) -> bool
    requires { s < (columns core.now).seats }
    ensures { result ≡ (columns core.now).has_own_stored s k t }
{
    let row = &core.seats[s as usize];
    pos::is_since(&row.pos, Act::OwnStored { t }, Act::TookWait { k })
}

/// By the steps of seat s: whether t stored a sleep state since then, as the current task.
pub fn slept_in(core: &Core, s: SeatNo, k: CondNo, t: TaskNo) -> bool
    requires { s < (columns core.now).seats }
    ensures { result ≡ (columns core.now).has_slept_in s k t }
{
    let row = &core.seats[s as usize];
    pos::is_since(&row.pos, Act::Slept { t }, Act::TookWait { k })
}

/// By the steps of seat s: whether k was bumped, and its wait queue not walked since.
pub fn owes(core: &Core, s: SeatNo, k: CondNo) -> bool
    requires { s < (columns core.now).seats }
    ensures { result ≡ (columns core.now).owes_walk s k }
{
    let row = &core.seats[s as usize];
    pos::is_since(&row.pos, Act::Bumped { k }, Act::Walked { k })
}

/// By the steps of seat s: whether the lock of wait queue k was taken since the last bump.
pub fn retaken(core: &Core, s: SeatNo, k: CondNo) -> bool
    requires { s < (columns core.now).seats }
    ensures { result ≡ (columns core.now).has_retaken s k }
{
    let row = &core.seats[s as usize];
    pos::is_since(&row.pos, Act::TookWait { k }, Act::Bumped { k })
}
