//! Loads, which change nothing but what the seat knows and notes; and the conditions' counters.

ghost use Rattle.std.specs.Prelude.{◌≡◌, ◌<◌, ◌==◌, ◌&&◌, ◌+◌, ◌%◌, ◌^◌, ◌↔◌, IsTrue, OnOk, Some, None, is_some};
ghost use Rattle.std.specs.Prelude.{nat_lt, if◌then◌else◌};
ghost use mathlib.Core.Bool.{not};
ghost use Rattle.core_data.specs.Noted.{noted};
ghost use Rattle.core_data.specs.Columns.{Columns, columns, put, put_at};
ghost use Rattle.core_kinds.specs.Steps.{is_match};
ghost use Rattle.core_kinds.specs.Waking.{MayLoad, IsMask, MayLoadState, is_own_read, is_matched, is_refused};
ghost use Rattle.core_kinds.specs.Waking.{load_state, load_this, state_read, load_rq, load_rq_so, rq_read, load_busy};
ghost use Rattle.core_kinds.specs.Waking.{load_busy_so, busy_read, load_cpu, cpu_read, load_count, level_read, MayBump};
ghost use Rattle.core_kinds.specs.Waking.{bump, load_cond, test_by};

use crate::common::is_of_shape;
use crate::notes::{log_if, note_if, see_if, test_if};
use core_data::{Act, Core, Rq, TaskReads};
use handoff_data::{CondNo, Entry, NoMemory, SeatNo, State, TaskNo};
use step_stores::{
    cond, conds, cpus, current, level_known, note, put_cond, put_level_known, queue_lock, reads,
    rest_off, rest_state, seats, set_reads, slept, task_words, unstored,
};

/// Whether seat s may load a word of task t.
pub fn may_load(core: &Core, s: SeatNo, t: TaskNo) -> bool
    ensures { IsTrue result ↔ MayLoad (columns core.now) s t }
{
    is_of_shape(core, s, t)
}

/// Whether a mask has only bits of TASK_NORMAL and TASK_WAKEKILL.
fn is_mask(mask: Option<State>) -> bool
    ensures { IsTrue result ↔ IsMask mask }
{
    match mask {
        Some(mask) => mask.0 & 0x103 == mask.0,
        None => true,
    }
}

/// Whether seat s may load the state of task t with this mask.
pub fn may_load_state(core: &Core, s: SeatNo, t: TaskNo, mask: Option<State>) -> bool
    ensures { IsTrue result ↔ MayLoadState (columns core.now) s t mask }
{
    is_of_shape(core, s, t) && is_mask(mask)
}

fn is_match(state: State, mask: State) -> bool
    ensures { result ≡ is_match state mask }
{
    state.0 & mask.0 != 0
}

fn is_matched(state: State, mask: Option<State>) -> bool
    ensures { result ≡ is_matched state mask }
{
    match mask {
        Some(mask) => is_match(state, mask),
        None => false,
    }
}

fn is_refused(state: State, mask: Option<State>) -> bool
    ensures { result ≡ is_refused state mask }
{
    match mask {
        Some(mask) => !is_match(state, mask),
        None => false,
    }
}

/// Whether the seat reads its own current task under the lock of its own queue.
fn is_own_read(core: &Core, s: SeatNo, t: TaskNo) -> bool
    requires { s < (columns core.now).seats }
    ensures { result ≡ is_own_read (columns core.now) s t }
{
    (s as usize) < cpus(core) && current(core, s) == Some(t) && queue_lock(core, s) == Some(s)
}

fn read_state(core: &mut Core, s: SeatNo, t: TaskNo, state: State) -> Result<(), NoMemory>
    requires { s < (columns core.old).seats }
    ensures { OnOk result
        (columns core.new ≡ record (columns core.old) {
          last_reads = put_at (columns core.old).last_reads s t
              (state_read t state ((columns core.old).last_reads s t));
        }) }
{
    let old = reads(core, s, t);
    set_reads(
        core,
        s,
        TaskReads {
            t,
            state: Some(state),
            rq: None,
            busy: None,
            number: old.number,
            cpu: old.cpu,
        },
    )?;
    Ok(())
}

/// Loads the state of task t: what the seat notes of it, and Refused where it doesn't match the mask. Answers
/// `NoMemory` where memory runs out.
pub fn load_state(
    core: &mut Core,
    s: SeatNo,
    t: TaskNo,
    mask: Option<State>,
) -> Result<(), NoMemory>
    requires { (s < (columns core.old).seats) × (t < (columns core.old).tasks) }
    ensures { OnOk result (columns core.new ≡ load_state (columns core.old) s t mask) }
{
    let state = task_words(core, t).state;
    let own = is_own_read(core, s, t);
    load_this(core, s, t, mask, own, state)?;
    Ok(())
}

fn load_this(
    core: &mut Core,
    s: SeatNo,
    t: TaskNo,
    mask: Option<State>,
    own: bool,
    state: State,
) -> Result<(), NoMemory>
    requires { s < (columns core.old).seats }
    ensures { OnOk result (columns core.new ≡ load_this (columns core.old) s t mask own
        ((columns core.old).last_reads s t) state) }
{
    read_state(core, s, t, state)?;
    see_if(core, s, state, own);
    note_if(core, s, Act::Matched { t }, is_matched(state, mask))?;
    note_if(core, s, Act::SawRest { t }, state.0 != State::TASK_WAKING.0)?;
    note_if(
        core,
        s,
        Act::Passed { t },
        !is_match(state, State::TASK_NORMAL),
    )?;
    log_if(
        core,
        s,
        Entry::Refused { t, state },
        is_refused(state, mask),
    )?;
    Ok(())
}

fn read_rq(core: &mut Core, s: SeatNo, t: TaskNo, on: u8, m: u64) -> Result<(), NoMemory>
    requires { s < (columns core.old).seats }
    ensures { OnOk result
        (columns core.new ≡ record (columns core.old) {
          last_reads = put_at (columns core.old).last_reads s t
              (rq_read t on m ((columns core.old).last_reads s t));
        }) }
{
    let old = reads(core, s, t);
    let rq = if old.state.is_some() {
        Some(Rq { on, m })
    } else {
        None
    };
    let reads = TaskReads {
        t,
        state: old.state,
        rq,
        busy: None,
        number: Some(m),
        cpu: old.cpu,
    };
    set_reads(core, s, reads)?;
    Ok(())
}

fn load_rq_so(
    core: &mut Core,
    s: SeatNo,
    t: TaskNo,
    fresh: bool,
    rests: bool,
    on: u8,
    m: u64,
) -> Result<(), NoMemory>
    requires { s < (columns core.old).seats }
    ensures { OnOk result (columns core.new ≡ load_rq_so (columns core.old) s t fresh rests
        ((columns core.old).last_reads s t) on m) }
{
    read_rq(core, s, t, on, m)?;
    note_if(core, s, Act::SawOff { t }, on == 0 && fresh)?;
    note_if(core, s, Act::SawRestOff { t }, on == 0 && rests)?;
    Ok(())
}

/// Loads `on_rq` of task t, with the number of its changes. Answers `NoMemory` where memory runs out.
pub fn load_rq(core: &mut Core, s: SeatNo, t: TaskNo) -> Result<(), NoMemory>
    requires { (s < (columns core.old).seats) × (t < (columns core.old).tasks) }
    ensures { OnOk result (columns core.new ≡ load_rq (columns core.old) s t) }
{
    let words = task_words(core, t);
    let fresh = unstored(core, s, t);
    let rests = rest_state(core, s, t);
    load_rq_so(core, s, t, fresh, rests, words.on_rq, words.changes)?;
    Ok(())
}

fn read_busy(core: &mut Core, s: SeatNo, t: TaskNo, busy: bool) -> Result<(), NoMemory>
    requires { s < (columns core.old).seats }
    ensures { OnOk result
        (columns core.new ≡ record (columns core.old) {
          last_reads = put_at (columns core.old).last_reads s t
              (busy_read t busy ((columns core.old).last_reads s t));
        }) }
{
    let old = reads(core, s, t);
    let read = if old.rq.is_some() { Some(busy) } else { None };
    let reads = TaskReads {
        t,
        state: old.state,
        rq: old.rq,
        busy: read,
        number: old.number,
        cpu: old.cpu,
    };
    set_reads(core, s, reads)?;
    Ok(())
}

fn load_busy_so(
    core: &mut Core,
    s: SeatNo,
    t: TaskNo,
    rests: bool,
    busy: bool,
) -> Result<(), NoMemory>
    requires { s < (columns core.old).seats }
    ensures { OnOk result (columns core.new ≡ load_busy_so (columns core.old) s t rests
        ((columns core.old).last_reads s t) busy) }
{
    read_busy(core, s, t, busy)?;
    note_if(core, s, Act::SawClear { t }, !busy)?;
    note_if(core, s, Act::SawRestIdle { t }, !busy && rests)?;
    Ok(())
}

/// Loads the busy word of task t. Answers `NoMemory` where memory runs out.
pub fn load_busy(core: &mut Core, s: SeatNo, t: TaskNo) -> Result<(), NoMemory>
    requires { (s < (columns core.old).seats) × (t < (columns core.old).tasks) }
    ensures { OnOk result (columns core.new ≡ load_busy (columns core.old) s t) }
{
    let busy = task_words(core, t).on_cpu;
    let rests = rest_off(core, s, t);
    load_busy_so(core, s, t, rests, busy)?;
    Ok(())
}

/// Loads the processor of task t. Answers `NoMemory` where memory runs out.
pub fn load_cpu(core: &mut Core, s: SeatNo, t: TaskNo) -> Result<(), NoMemory>
    requires { (s < (columns core.old).seats) × (t < (columns core.old).tasks) }
    ensures { OnOk result (columns core.new ≡ load_cpu (columns core.old) s t) }
{
    let cpu = task_words(core, t).cpu;
    let old = reads(core, s, t);
    let reads = TaskReads {
        t,
        state: old.state,
        rq: old.rq,
        busy: old.busy,
        number: old.number,
        cpu: Some(cpu),
    };
    set_reads(core, s, reads)?;
    Ok(())
}

/// The level that the seat knows after it read that of task t.
fn level_read(current: Option<TaskNo>, t: TaskNo, level: u32, known: Option<u32>) -> Option<u32>
    ensures { result ≡ level_read current t level known }
{
    match current {
        Some(own) => { if own == t { Some(level) } else { known } }
        None => known,
    }
}

/// Loads the migrate-disable level of task t.
pub fn load_count(core: &mut Core, s: SeatNo, t: TaskNo)
    requires { (s < (columns core.old).seats) × (t < (columns core.old).tasks) }
    ensures { columns core.new ≡ load_count (columns core.old) s t }
{
    let level = task_words(core, t).count;
    let known = level_read(current(core, s), t, level, level_known(core, s));
    put_level_known(core, s, known);
}

/// Whether seat s may raise condition k.
pub fn may_bump(core: &Core, s: SeatNo, k: CondNo) -> bool
    ensures { IsTrue result ↔ MayBump (columns core.now) s k }
{
    (s as usize) < seats(core) && (k as usize) < conds(core)
}

/// Raises condition k, whose counter wraps; the seat owes it a walk. Answers `NoMemory` where memory runs out.
pub fn bump(core: &mut Core, s: SeatNo, k: CondNo) -> Result<(), NoMemory>
    requires { MayBump (columns core.old) s k }
    ensures { OnOk result (columns core.new ≡ bump (columns core.old) s k) }
{
    let v = cond(core, k);
    put_cond(core, k, v.wrapping_add(1));
    note(core, s, Act::Bumped { k })?;
    Ok(())
}

/// Loads the counter of condition k: the current task has tested it, where it has stored a sleep state. Answers
/// `NoMemory` where memory runs out.
pub fn load_cond(core: &mut Core, s: SeatNo, k: CondNo) -> Result<(), NoMemory>
    requires { MayBump (columns core.old) s k }
    ensures { OnOk result (columns core.new ≡ load_cond (columns core.old) s k) }
{
    let v = cond(core, k);
    match current(core, s) {
        Some(t) => {
            let sleeps = slept(core, s, t);
            test_if(core, s, t, k, v, sleeps)?;
            Ok(())
        }
        None => Ok(()),
    }
}
