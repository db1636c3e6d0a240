//! Waking steps: the stores of a task's state and of its processor, after `try_to_wake_up`, `ttwu_runnable`,
//! `set_task_cpu` and `set_current_state` of Linux 6.6 (`kernel/sched/core.c`, `include/linux/sched.h`).

ghost use Rattle.std.specs.Prelude.{◌≡◌, ◌≢◌, ◌<◌, ◌⊎◌, ◌++◌, ◌∷◌, [], ◌↔◌, IsTrue, OnOk, Some, None, true, false};
ghost use Rattle.core_data.specs.Noted.{noted};
ghost use Rattle.core_data.specs.Columns.{Columns, columns, put, put_at};
ghost use Rattle.core_data.specs.declared.act.Act.TheVariants.{Claimed, Passed, OwnStored};
ghost use Rattle.handoff_data.specs.declared.entry.Entry.TheVariants.{Wake};
ghost use Rattle.core_kinds.specs.Steps.{running, dead, waking, is_sleep, stored_word};
ghost use Rattle.core_kinds.specs.Waking.{IsSettable, MaySetState, set_state, MayClaim, claim, IsReadyToRun};
ghost use Rattle.core_kinds.specs.Waking.{MayMakeRunnable, make_runnable, IsPlaceable, MayStoreCpu, store_cpu};
ghost use Rattle.core_kinds.specs.Waking.{cpu_read};

use crate::common::{is_of_shape, is_sleep, renew};
use crate::notes::{run_if, sleep_if};
use core_data::{Act, Core, TaskReads, TaskWords};
use handoff_data::{CpuNo, Entry, NoMemory, SeatNo, State, TaskNo};
use step_stores::{
    added, clear, cpus, current, log, matched, note, put_cpu, put_seen, put_state, queue_lock,
    reads, saw_off, set_reads, task_words,
};

/// Whether a task may store this state of its own.
fn is_settable(words: TaskWords, s: SeatNo, state: State) -> bool
    ensures { IsTrue result
        ↔ ((state ≡ running)
        ⊎ ((is_sleep state ≡ true) ⊎ ((state ≡ dead) × (words.lock ≡ Some s) × (words.ended ≡ true)))) }
{
    state == State::TASK_RUNNING
        || is_sleep(state)
        || (state == State::TASK_DEAD && words.lock == Some(s) && words.ended)
}

/// Whether seat s may store the state of its current task.
pub fn may_set_state(core: &Core, s: SeatNo, t: TaskNo, state: State) -> bool
    ensures { IsTrue result ↔ MaySetState (columns core.now) s t state }
{
    if !is_of_shape(core, s, t) {
        return false;
    }
    let words = task_words(core, t);
    current(core, s) == Some(t) && words.on_rq == 1 && is_settable(words, s, state)
}

fn store_state(core: &mut Core, s: SeatNo, t: TaskNo, state: State) -> Result<(), NoMemory>
    requires { (s < (columns core.old).seats) × (t < (columns core.old).tasks) }
    ensures { OnOk result
        (columns core.new
        ≡ noted (stored_word (record (columns core.old) {
          state = put (columns core.old).state t state;
          seen_state = put (columns core.old).seen_state s None;
        }) s t) s (OwnStored t)) }
{
    put_state(core, t, state);
    put_seen(core, s, None);
    renew(core, s, t)?;
    note(core, s, Act::OwnStored { t })?;
    Ok(())
}

/// Stores the state of the seat's current task. Answers `NoMemory` where memory runs out.
pub fn set_state(core: &mut Core, s: SeatNo, t: TaskNo, state: State) -> Result<(), NoMemory>
    requires { (s < (columns core.old).seats) × (t < (columns core.old).tasks) }
    ensures { OnOk result (columns core.new ≡ set_state (columns core.old) s t state) }
{
    store_state(core, s, t, state)?;
    sleep_if(core, s, t, is_sleep(state))?;
    run_if(core, s, t, state.0 == 0)?;
    Ok(())
}

/// Whether seat s may store TASK_WAKING as the state of task t.
pub fn may_claim(core: &Core, s: SeatNo, t: TaskNo) -> bool
    ensures { IsTrue result ↔ MayClaim (columns core.now) s t }
{
    if !is_of_shape(core, s, t) {
        return false;
    }
    task_words(core, t).lock == Some(s) && saw_off(core, s, t)
}

fn store_claim(core: &mut Core, s: SeatNo, t: TaskNo, m: u64) -> Result<(), NoMemory>
    requires { (s < (columns core.old).seats) × (t < (columns core.old).tasks) }
    ensures { OnOk result
        (columns core.new ≡ stored_word (record (columns core.old) {
          state = put (columns core.old).state t waking;
          journal = put (columns core.old).journal s ((columns core.old).journal s ++ Wake t m ∷ []);
        }) s t) }
{
    put_state(core, t, State::TASK_WAKING);
    log(core, s, Entry::Wake { t, m })?;
    renew(core, s, t)?;
    Ok(())
}

/// Stores TASK_WAKING as the state of task t: the seat claims the task, to queue it. Answers `NoMemory` where memory
/// runs out.
pub fn claim(core: &mut Core, s: SeatNo, t: TaskNo) -> Result<(), NoMemory>
    requires { (s < (columns core.old).seats) × (t < (columns core.old).tasks) }
    ensures { OnOk result (columns core.new ≡ claim (columns core.old) s t) }
{
    let m = task_words(core, t).changes;
    store_claim(core, s, t, m)?;
    note(core, s, Act::Claimed { t })?;
    note(core, s, Act::Passed { t })?;
    Ok(())
}

/// Whether TASK_RUNNING may be stored of a task, by what the seat holds and knows.
fn is_ready_to_run(
    words: TaskWords,
    s: SeatNo,
    queue_locked: bool,
    is_matched: bool,
    is_added: bool,
    is_current: bool,
) -> bool
    ensures { IsTrue result
        ↔ (((words.lock ≡ Some s) × (words.changes ≡ 0))
        ⊎ (((words.lock ≡ Some s) × (is_matched ≡ true) × (words.on_rq ≡ 1) × (queue_locked ≡ true)
        × (is_current ≡ false)) ⊎ ((queue_locked ≡ true) × (is_added ≡ true) × (words.on_rq ≡ 1)
        × (words.on_cpu ≡ false)))) }
{
    let locked = words.lock == Some(s);
    let queued = queue_locked && words.on_rq == 1;
    (locked && words.changes == 0)
        || (locked && is_matched && queued && !is_current)
        || (queued && is_added && !words.on_cpu)
}

/// Whether seat s may store TASK_RUNNING as the state of task t.
pub fn may_make_runnable(core: &Core, s: SeatNo, t: TaskNo) -> bool
    ensures { IsTrue result ↔ MayMakeRunnable (columns core.now) s t }
{
    if !is_of_shape(core, s, t) {
        return false;
    }
    let words = task_words(core, t);
    if (words.cpu as usize) >= cpus(core) {
        return false;
    }
    let queue_locked = queue_lock(core, words.cpu) == Some(s);
    let is_current = current(core, s) == Some(t);
    is_ready_to_run(
        words,
        s,
        queue_locked,
        matched(core, s, t),
        added(core, s, words.cpu, t),
        is_current,
    )
}

/// Stores TASK_RUNNING as the state of task t. Answers `NoMemory` where memory runs out.
pub fn make_runnable(core: &mut Core, s: SeatNo, t: TaskNo) -> Result<(), NoMemory>
    requires { (s < (columns core.old).seats) × (t < (columns core.old).tasks) }
    ensures { OnOk result (columns core.new ≡ make_runnable (columns core.old) s t) }
{
    put_state(core, t, State::TASK_RUNNING);
    renew(core, s, t)?;
    note(core, s, Act::Passed { t })?;
    Ok(())
}

/// Whether a task's processor may be stored: the task was never started, or is half way to a queue.
fn is_placeable(words: TaskWords, is_clear: bool) -> bool
    ensures { IsTrue result
        ↔ ((words.changes ≡ 0) ⊎ (((words.on_rq ≡ 0) × (words.state ≡ waking) × (is_clear ≡ true))
        ⊎ (words.on_rq ≡ 2))) }
{
    words.changes == 0
        || (words.on_rq == 0 && words.state == State::TASK_WAKING && is_clear)
        || words.on_rq == 2
}

/// Whether seat s may store processor c as that of task t.
pub fn may_store_cpu(core: &Core, s: SeatNo, t: TaskNo, c: CpuNo) -> bool
    ensures { IsTrue result ↔ MayStoreCpu (columns core.now) s t c }
{
    if !is_of_shape(core, s, t) || (c as usize) >= cpus(core) {
        return false;
    }
    let words = task_words(core, t);
    let placeable = is_placeable(words, clear(core, s, t));
    words.lock == Some(s) && placeable
}

fn write_cpu(core: &mut Core, s: SeatNo, t: TaskNo, c: CpuNo) -> Result<(), NoMemory>
    requires { (s < (columns core.old).seats) × (t < (columns core.old).tasks) }
    ensures { OnOk result (columns core.new ≡ record (columns core.old) {
      cpu = put (columns core.old).cpu t c;
      last_reads = put_at (columns core.old).last_reads s t (cpu_read t c ((columns core.old).last_reads s t));
    }) }
{
    let old = reads(core, s, t);
    put_cpu(core, t, c);
    set_reads(
        core,
        s,
        TaskReads {
            t,
            state: old.state,
            rq: old.rq,
            busy: old.busy,
            number: old.number,
            cpu: Some(c),
        },
    )?;
    Ok(())
}

/// Stores processor c as that of task t. Answers `NoMemory` where memory runs out.
pub fn store_cpu(core: &mut Core, s: SeatNo, t: TaskNo, c: CpuNo) -> Result<(), NoMemory>
    requires { (s < (columns core.old).seats) × (t < (columns core.old).tasks) }
    ensures { OnOk result (columns core.new ≡ store_cpu (columns core.old) s t c) }
{
    write_cpu(core, s, t, c)?;
    renew(core, s, t)?;
    Ok(())
}
