//! Giving a wait queue: which entries may be put in and taken out, and what the seat then knows.

ghost use Rattle.std.specs.Prelude.{◌≡◌, ◌<◌, ◌==◌, ◌&&◌, ◌⊎◌, ◌↔◌, ℕ};
ghost use Rattle.std.specs.Prelude.{IsTrue, IsSome, Some, None, OnOk, IfOk, true, false};
ghost use Rattle.std.specs.List.{list_any};
ghost use Rattle.core_data.specs.Entries.{has_entry};
ghost use Rattle.core_data.specs.Columns.{Columns, columns, put, put_at};
ghost use Rattle.core_data.specs.declared.values.WaitEntry.{WaitEntry};
ghost use Rattle.core_gives.specs.Waits.{has_task, HasEachOnce, IsPutIn, IsTakenOut};
ghost use Rattle.core_gives.specs.Waits.{MayGiveWait, give_wait, is_walk, sleeper_of, walked_if};

use core_data::{Act, Core, WaitEntry, WaitVal};
use handoff_data::{CondNo, NoMemory, SeatNo, TaskNo};
use step_data::{copy_wait, has_entry};
use step_stores::{
    conds, current, give_asleep, note, owes, own_stored, passed, put_wait, put_wait_lock,
    release_wait, retaken, seats, slept_in, tasks, wait_lock, wait_out,
};

fn any_of(entries: &[WaitEntry], t: TaskNo) -> bool
    ensures { result ≡ list_any (λ (x : WaitEntry). x.t == t) entries.now }
{
    entries.iter().any(|x| x.t == t)
}

/// Whether some entry is of the task.
fn has_task(entries: &[WaitEntry], t: TaskNo) -> bool
    ensures { result ≡ has_task entries.now t }
{
    any_of(entries, t)
}

/// Whether no task has two entries.
fn has_each_once(entries: &[WaitEntry]) -> bool
    ensures { IsTrue result ↔ HasEachOnce entries.now }
{
    for i in 0..entries.len() {
        if has_task(&entries[i + 1..], entries[i].t) {
            return false;
        }
    }
    true
}

/// Whether the entry is of a task of the core.
fn is_of_core(core: &Core, x: &WaitEntry) -> bool
    ensures { IsTrue result ↔ (x.now.t < (columns core.now).tasks) }
{
    (x.t as usize) < tasks(core)
}

/// Whether each entry is of a task of the core.
fn has_tasks_of(core: &Core, entries: &[WaitEntry]) -> bool
    ensures { IsTrue result ↔ ((x : WaitEntry) → has_entry entries.now x ≡ true → x.t < (columns core.now).tasks) }
{
    for x in entries {
        if !is_of_core(core, x) {
            return false;
        }
    }
    true
}

/// Whether the entry is of the current task, which has stored its state under this lock.
fn is_put_in(core: &Core, s: SeatNo, k: CondNo, x: &WaitEntry) -> bool
    requires { s < (columns core.now).seats }
    ensures { IsTrue result ↔ IsPutIn (columns core.now) s k x.now }
{
    current(core, s) == Some(x.t) && own_stored(core, s, k, x.t)
}

/// Whether the entry was taken, or may be put in.
fn was_taken_or_put_in(
    core: &Core,
    s: SeatNo,
    k: CondNo,
    taken: &[WaitEntry],
    x: &WaitEntry,
) -> bool
    requires { s < (columns core.now).seats }
    ensures { IsTrue result ↔ (has_entry taken.now x.now ≡ false → IsPutIn (columns core.now) s k x.now) }
{
    has_entry(taken, x) || is_put_in(core, s, k, x)
}

/// Whether each entry that is given was taken, or may be put in.
fn are_put_in(core: &Core, s: SeatNo, k: CondNo, taken: &[WaitEntry], given: &[WaitEntry]) -> bool
    requires { s < (columns core.now).seats }
    ensures { IsTrue result ↔ ((x : WaitEntry) →
        has_entry given.now x ≡ true → has_entry taken.now x ≡ false → IsPutIn (columns core.now) s k x) }
{
    for x in given {
        if !was_taken_or_put_in(core, s, k, taken, x) {
            return false;
        }
    }
    true
}

/// Whether the entry is of the current task, or of one that the seat has passed under this lock.
fn is_taken_out(core: &Core, s: SeatNo, k: CondNo, x: &WaitEntry) -> bool
    requires { s < (columns core.now).seats }
    ensures { IsTrue result ↔ IsTakenOut (columns core.now) s k x.now }
{
    current(core, s) == Some(x.t) || passed(core, s, k, x.t)
}

/// Whether the entry is given, or may be taken out.
fn is_given_or_taken_out(
    core: &Core,
    s: SeatNo,
    k: CondNo,
    given: &[WaitEntry],
    x: &WaitEntry,
) -> bool
    requires { s < (columns core.now).seats }
    ensures { IsTrue result ↔ (has_entry given.now x.now ≡ false → IsTakenOut (columns core.now) s k x.now) }
{
    has_entry(given, x) || is_taken_out(core, s, k, x)
}

/// Whether each entry that was taken is given, or may be taken out.
fn are_taken_out(
    core: &Core,
    s: SeatNo,
    k: CondNo,
    taken: &[WaitEntry],
    given: &[WaitEntry],
) -> bool
    requires { s < (columns core.now).seats }
    ensures { IsTrue result ↔ ((x : WaitEntry) →
        has_entry taken.now x ≡ true → has_entry given.now x ≡ false → IsTakenOut (columns core.now) s k x) }
{
    for x in taken {
        if !is_given_or_taken_out(core, s, k, given, x) {
            return false;
        }
    }
    true
}

/// Whether seat s has the lock of the wait queue of condition k.
fn has_lock(core: &Core, s: SeatNo, k: CondNo) -> bool
    ensures { IsTrue result ↔
        ((s < (columns core.now).seats) × (k < (columns core.now).conds) × ((columns core.now).wait_lock k ≡ Some s)) }
{
    (s as usize) < seats(core) && (k as usize) < conds(core) && wait_lock(core, k) == Some(s)
}

/// Whether entries may be given in the place of those that were taken.
fn may_change(core: &Core, s: SeatNo, k: CondNo, taken: &WaitVal, given: &WaitVal) -> bool
    requires { s < (columns core.now).seats }
    ensures { IsTrue result ↔ (HasEachOnce given.now
        × ((x : WaitEntry) →
        has_entry given.now x ≡ true → has_entry taken.now x ≡ false → IsPutIn (columns core.now) s k x)
        × ((x : WaitEntry) →
        has_entry taken.now x ≡ true → has_entry given.now x ≡ false → IsTakenOut (columns core.now) s k x)
        × ((x : WaitEntry) → has_entry given.now x ≡ true → x.t < (columns core.now).tasks)) }
{
    let taken = taken.entries.as_slice();
    let given = given.entries.as_slice();
    has_each_once(given)
        && are_put_in(core, s, k, taken, given)
        && are_taken_out(core, s, k, taken, given)
        && has_tasks_of(core, given)
}

/// Whether seat s may give the lock of the wait queue of condition k with these entries: it has the lock, no task has
/// two entries, and each entry that it puts in or takes out is one that it may.
pub fn may_give_wait(core: &Core, s: SeatNo, k: CondNo, given: &WaitVal) -> bool
    ensures { IsTrue result ↔ MayGiveWait (columns core.now) s k given.now }
{
    if !has_lock(core, s, k) {
        return false;
    }
    match wait_out(core, s, k) {
        Some(taken) => may_change(core, s, k, taken, given),
        None => false,
    }
}

/// The current task, where it has an entry and has stored a sleep state under this lock.
fn sleeper_of(core: &Core, s: SeatNo, k: CondNo, given: &[WaitEntry]) -> Option<TaskNo>
    requires { s < (columns core.now).seats }
    ensures { result ≡ sleeper_of ((columns core.now).current_task s) ((columns core.now).has_slept_in s k) given.now }
{
    match current(core, s) {
        Some(t) => {
            if has_task(given, t) && slept_in(core, s, k, t) {
                Some(t)
            } else {
                None
            }
        }
        None => None,
    }
}

/// Whether the seat has passed each task of these entries.
fn is_walk(core: &Core, s: SeatNo, k: CondNo, taken: &[WaitEntry]) -> bool
    requires { s < (columns core.now).seats }
    ensures { result ≡ is_walk ((columns core.now).has_passed s k) taken.now }
{
    for x in taken {
        if !passed(core, s, k, x.t) {
            return false;
        }
    }
    true
}

/// Whether this give ends a walk that the seat owes.
fn walks(core: &Core, s: SeatNo, k: CondNo, taken: &[WaitEntry]) -> bool
    requires { s < (columns core.now).seats }
    ensures { let now = columns core.now in
        result ≡ (now.owes_walk s k && (now.has_retaken s k && is_walk (now.has_passed s k) taken.now)) }
{
    owes(core, s, k) && retaken(core, s, k) && is_walk(core, s, k, taken)
}

/// The entries that the seat took with the lock of the wait queue of condition k.
fn taken_entries(core: &Core, s: SeatNo, k: CondNo) -> Result<WaitVal, NoMemory>
    requires { (s < (columns core.now).seats) × IsSome ((columns core.now).wait_held s k) }
    ensures { IfOk result (λ v. (columns core.now).wait_held s k ≡ Some v) }
{
    let taken = wait_out(core, s, k).unwrap();
    let copy = copy_wait(taken)?;
    Ok(copy)
}

/// Gives the lock, and puts the entries home.
fn put_home(core: &mut Core, s: SeatNo, k: CondNo, given: WaitVal)
    requires { (s < (columns core.old).seats) × (k < (columns core.old).conds) }
    ensures { let old = columns core.old in
        columns core.new ≡ record old {
          wait_lock = put old.wait_lock k None;
          wait = put old.wait k (Some given);
          wait_held = put_at old.wait_held s k None;
        } }
{
    put_wait_lock(core, k, None);
    put_wait(core, k, given);
    release_wait(core, s, k);
}

fn walk_if(core: &mut Core, s: SeatNo, k: CondNo, on: bool) -> Result<(), NoMemory>
    requires { s < (columns core.old).seats }
    ensures { OnOk result (columns core.new ≡ walked_if on (columns core.old) s k) }
{
    if on {
        note(core, s, Act::Walked { k })?;
    }
    Ok(())
}

/// Gives the lock of the wait queue of condition k, and puts its entries home. Answers `NoMemory` where memory runs
/// out.
pub fn give_wait(core: &mut Core, s: SeatNo, k: CondNo, given: WaitVal) -> Result<(), NoMemory>
    requires { MayGiveWait (columns core.old) s k given }
    ensures { OnOk result (columns core.new ≡ give_wait (columns core.old) s k given) }
{
    let taken = taken_entries(core, s, k)?;
    let taken = taken.entries.as_slice();
    let sleeper = sleeper_of(core, s, k, given.entries.as_slice());
    let walked = walks(core, s, k, taken);
    give_asleep(core, s, k, taken, given.entries.as_slice(), sleeper)?;
    put_home(core, s, k, given);
    walk_if(core, s, k, walked)?;
    Ok(())
}
