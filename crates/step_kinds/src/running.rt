//! Running steps: a task's queue word, its busy word and its body, after `activate_task`, `deactivate_task`,
//! `move_queued_task`, `prepare_task` and `finish_task` of Linux 6.6 (`kernel/sched/core.c`).

ghost use Rattle.std.specs.Prelude.{◌≡◌, ◌≢◌, ◌<◌, ◌^◌, ◌+◌, ◌++◌, ◌∷◌, [], ◌⊎◌, ◌↔◌, ◌==◌, IsTrue, OnOk, Some, None};
ghost use Rattle.std.specs.Prelude.{true, false, if◌then◌else◌};
ghost use Rattle.core_data.specs.Noted.{noted};
ghost use Rattle.core_data.specs.Queue.{times_in};
ghost use Rattle.core_data.specs.Columns.{Columns, columns, put, put_at};
ghost use Rattle.core_data.specs.declared.act.Act.TheVariants.{Queued, Dequeued, Picked};
ghost use Rattle.handoff_data.specs.declared.entry.Entry.TheVariants.{Pick, Finish};
ghost use Rattle.core_kinds.specs.Steps.{waking, IsRunnable, stored_word};
ghost use Rattle.core_kinds.specs.Running.{store_rq, IsReady, MayQueue, queue_entry, queue_task, MayLeave, MayDequeue};
ghost use Rattle.core_kinds.specs.Running.{dequeue_entry, dequeue_task, MayMove, move_task, MaySetBusy, set_busy};
ghost use Rattle.core_kinds.specs.Running.{MayClearBusy, clear_busy, MayBodyOut, body_out, MayBodyHome, body_home};

use crate::common::{END, is_of_shape, is_runnable, is_sleep, renew};
use core_data::{Act, Core, QueueVal, TaskReads, TaskWords};
use handoff_data::{CpuNo, Entry, NoMemory, SeatNo, State, TaskNo};
use step_stores::{
    body_out as body_held_of, clear, cpus, current, forget_sleep, idle, log, note, put_body,
    put_body_out, put_busy, put_current, put_level_known, put_rq, put_seen, put_to_clear,
    queue_lock, reads, seen, set_reads, take_body, task_words, to_clear,
};

/// Whether seat s has the lock of the queue of processor c, and all three are of the shape.
fn has_queue_lock(core: &Core, s: SeatNo, c: CpuNo, t: TaskNo) -> bool
    ensures { IsTrue result ↔ ((s < (columns core.now).seats) × (t < (columns core.now).tasks)
        × (c < (columns core.now).cpus) × ((columns core.now).queue_lock c ≡ Some s)) }
{
    is_of_shape(core, s, t) && (c as usize) < cpus(core) && queue_lock(core, c) == Some(s)
}

/// Stores `on_rq` of task t with the next number, and its entry.
fn store_rq(core: &mut Core, s: SeatNo, t: TaskNo, on: u8, entry: Entry) -> Result<(), NoMemory>
    requires { (s < (columns core.old).seats) × (t < (columns core.old).tasks)
        × ((columns core.old).changes t < 2 ^ 60) }
    ensures { OnOk result (columns core.new ≡ store_rq (columns core.old) s t on entry) }
{
    let m = task_words(core, t).changes + 1;
    let old = reads(core, s, t);
    put_rq(core, t, on, m);
    log(core, s, entry)?;
    set_reads(
        core,
        s,
        TaskReads {
            t,
            state: None,
            rq: None,
            busy: None,
            number: Some(m),
            cpu: old.cpu,
        },
    )?;
    note(core, s, Act::Renewed { t })?;
    note(core, s, Act::StoredWord { t })?;
    Ok(())
}

/// Whether a seat may put a task on a queue: a new one, one that it wakes and has read as not busy since, or one
/// that it moves.
fn is_ready(words: TaskWords, is_clear: bool) -> bool
    ensures { IsTrue result
        ↔ ((words.changes ≡ 0) ⊎ (((words.on_rq ≡ 0) × (words.state ≡ waking) × (is_clear ≡ true))
        ⊎ (words.on_rq ≡ 2))) }
{
    words.changes == 0
        || (words.on_rq == 0 && words.state == State::TASK_WAKING && is_clear)
        || words.on_rq == 2
}

/// Whether seat s may store 1 in `on_rq` of task t, on the queue of processor c.
pub fn may_queue(core: &Core, s: SeatNo, c: CpuNo, t: TaskNo) -> bool
    ensures { IsTrue result ↔ MayQueue (columns core.now) s c t }
{
    if !has_queue_lock(core, s, c, t) {
        return false;
    }
    let words = task_words(core, t);
    let ready = is_ready(words, clear(core, s, t));
    words.lock == Some(s) && words.cpu == c && words.on_rq != 1 && ready && words.changes < END
}

fn queue_entry(words: TaskWords, t: TaskNo, c: CpuNo) -> Entry
    requires { words.changes < 2 ^ 60 }
    ensures { result ≡ queue_entry words.changes words.on_rq t c }
{
    let m = words.changes + 1;
    if words.changes == 0 {
        Entry::New { t, m, c }
    } else if words.on_rq == 2 {
        Entry::In { t, m, c }
    } else {
        Entry::Enq {
            t,
            m,
            c,
            by_list: false,
        }
    }
}

/// Queues task t. Answers `NoMemory` where memory runs out.
pub fn queue_task(core: &mut Core, s: SeatNo, c: CpuNo, t: TaskNo) -> Result<(), NoMemory>
    requires { MayQueue (columns core.old) s c t }
    ensures { OnOk result (columns core.new ≡ queue_task (columns core.old) s c t) }
{
    let entry = queue_entry(task_words(core, t), t, c);
    store_rq(core, s, t, 1, entry)?;
    note(core, s, Act::Queued { t })?;
    Ok(())
}

/// Whether a task may leave its queue by the state that was read, with this migrate-disable level.
fn may_leave(state: Option<State>, count: u32) -> bool
    ensures { IsTrue result ↔ MayLeave state count }
{
    match state {
        Some(state) => is_sleep(state) || (state == State::TASK_DEAD && count == 0),
        None => false,
    }
}

/// Whether seat s may store 0 in `on_rq` of task t: its current task sleeps or dies.
pub fn may_dequeue(core: &Core, s: SeatNo, c: CpuNo, t: TaskNo) -> bool
    ensures { IsTrue result ↔ MayDequeue (columns core.now) s c t }
{
    if s != c || !has_queue_lock(core, s, c, t) {
        return false;
    }
    let words = task_words(core, t);
    let leaves = may_leave(seen(core, s), words.count);
    current(core, s) == Some(t)
        && words.on_rq == 1
        && words.cpu == c
        && leaves
        && words.changes < END
}

fn dequeue_entry(state: Option<State>, changes: u64, t: TaskNo, c: CpuNo) -> Entry
    requires { changes < 2 ^ 60 }
    ensures { result ≡ dequeue_entry state changes t c }
{
    let m = changes + 1;
    match state {
        Some(state) => {
            if state.0 == State::TASK_DEAD.0 {
                Entry::Die { t, m, c }
            } else {
                Entry::Sleep { t, m, c }
            }
        }
        None => Entry::Sleep { t, m, c },
    }
}

/// Takes the current task off its queue. Answers `NoMemory` where memory runs out.
pub fn dequeue_task(core: &mut Core, s: SeatNo, c: CpuNo, t: TaskNo) -> Result<(), NoMemory>
    requires { MayDequeue (columns core.old) s c t }
    ensures { OnOk result (columns core.new ≡ dequeue_task (columns core.old) s c t) }
{
    let entry = dequeue_entry(seen(core, s), task_words(core, t).changes, t, c);
    store_rq(core, s, t, 0, entry)?;
    note(core, s, Act::Dequeued { t })?;
    Ok(())
}

/// Whether seat s may store 2 in `on_rq` of task t, which waits on the queue of processor c.
pub fn may_move(core: &Core, s: SeatNo, c: CpuNo, t: TaskNo, val: &QueueVal) -> bool
    ensures { IsTrue result ↔ MayMove (columns core.now) s c t val.now }
{
    if !has_queue_lock(core, s, c, t) || !val.contains(t) {
        return false;
    }
    let words = task_words(core, t);
    let runnable = is_runnable(words.state);
    let free = current(core, s) != Some(t) && idle(core, s, c, t);
    words.lock == Some(s)
        && words.on_rq == 1
        && words.cpu == c
        && runnable
        && free
        && words.changes < END
}

/// Takes task t off its queue, to be moved. Answers `NoMemory` where memory runs out.
pub fn move_task(
    core: &mut Core,
    s: SeatNo,
    c: CpuNo,
    t: TaskNo,
    val: &QueueVal,
) -> Result<(), NoMemory>
    requires { MayMove (columns core.old) s c t val.now }
    ensures { OnOk result (columns core.new ≡ move_task (columns core.old) s c t) }
{
    let m = task_words(core, t).changes + 1;
    store_rq(core, s, t, 2, Entry::Out { t, m, c })?;
    note(core, s, Act::Dequeued { t })?;
    Ok(())
}

/// Whether seat s may set the busy word of task t, which its own queue has as its next.
pub fn may_set_busy(core: &Core, s: SeatNo, c: CpuNo, t: TaskNo, val: &QueueVal) -> bool
    ensures { IsTrue result ↔ MaySetBusy (columns core.now) s c t val.now }
{
    if s != c || !has_queue_lock(core, s, c, t) {
        return false;
    }
    let words = task_words(core, t);
    let runnable = is_runnable(words.state);
    let free = current(core, s).is_none() && to_clear(core, s).is_none();
    val.cur == Some(t)
        && words.on_rq == 1
        && words.cpu == c
        && runnable
        && !words.on_cpu
        && free
        && words.runs < END
}

/// Whether seat s may clear the busy word of task t, which it has just given up.
pub fn may_clear_busy(core: &Core, s: SeatNo, t: TaskNo) -> bool
    ensures { IsTrue result ↔ MayClearBusy (columns core.now) s t }
{
    if !is_of_shape(core, s, t) {
        return false;
    }
    to_clear(core, s) == Some(t) && current(core, s) != Some(t) && task_words(core, t).runs < END
}

/// Clears the busy word of task t. Answers `NoMemory` where memory runs out.
pub fn clear_busy(core: &mut Core, s: SeatNo, t: TaskNo) -> Result<(), NoMemory>
    requires { MayClearBusy (columns core.old) s t }
    ensures { OnOk result (columns core.new ≡ clear_busy (columns core.old) s t) }
{
    let n = task_words(core, t).runs + 1;
    finish(core, s, t, n)?;
    renew(core, s, t)?;
    Ok(())
}

fn finish(core: &mut Core, s: SeatNo, t: TaskNo, n: u64) -> Result<(), NoMemory>
    requires { (s < (columns core.old).seats) × (t < (columns core.old).tasks) }
    ensures { OnOk result
        (columns core.new ≡ record (columns core.old) {
          on_cpu = put (columns core.old).on_cpu t false;
          runs = put (columns core.old).runs t n;
          task_to_clear = put (columns core.old).task_to_clear s None;
          journal = put (columns core.old).journal s ((columns core.old).journal s ++ Finish t n s ∷ []);
        }) }
{
    put_busy(core, t, false, n);
    put_to_clear(core, s, None);
    log(core, s, Entry::Finish { t, n, c: s })?;
    Ok(())
}

fn pick(core: &mut Core, s: SeatNo, c: CpuNo, t: TaskNo, n: u64) -> Result<(), NoMemory>
    requires { (s < (columns core.old).seats) × (t < (columns core.old).tasks) }
    ensures { OnOk result (columns core.new ≡ record (columns core.old) {
      on_cpu = put (columns core.old).on_cpu t true;
      runs = put (columns core.old).runs t n;
      current_task = put (columns core.old).current_task s (Some t);
      seen_state = put (columns core.old).seen_state s None;
      level_known = put (columns core.old).level_known s None;
      tested = put (columns core.old).tested s (λ u l. if u == t then None else (columns core.old).tested s u l);
      is_asleep = put (columns core.old).is_asleep s
          (λ u l. if u == t then false else (columns core.old).is_asleep s u l);
      journal = put (columns core.old).journal s ((columns core.old).journal s ++ Pick t n c ∷ []);
    }) }
{
    put_busy(core, t, true, n);
    put_current(core, s, Some(t));
    put_seen(core, s, None);
    // the level was that of the task before: one that is disabled would go as if it weren't
    put_level_known(core, s, None);
    forget_sleep(core, s, t);
    log(core, s, Entry::Pick { t, n, c })?;
    Ok(())
}

/// Sets the busy word of task t, which becomes the seat's current task. Answers `NoMemory` where memory runs out.
pub fn set_busy(core: &mut Core, s: SeatNo, c: CpuNo, t: TaskNo) -> Result<(), NoMemory>
    requires { (s < (columns core.old).seats) × (t < (columns core.old).tasks) × ((columns core.old).runs t < 2 ^ 60) }
    ensures { OnOk result (columns core.new ≡ set_busy (columns core.old) s c t) }
{
    let n = task_words(core, t).runs + 1;
    pick(core, s, c, t, n)?;
    renew(core, s, t)?;
    note(core, s, Act::Picked { t })?;
    Ok(())
}

/// Whether seat s may take the body of its current task out.
pub fn may_body_out(core: &Core, s: SeatNo, t: TaskNo) -> bool
    ensures { IsTrue result ↔ MayBodyOut (columns core.now) s t }
{
    if !is_of_shape(core, s, t) {
        return false;
    }
    current(core, s) == Some(t) && task_words(core, t).body
}

/// Takes the body of task t out.
pub fn body_out(core: &mut Core, s: SeatNo, t: TaskNo)
    requires { (s < (columns core.old).seats) × (t < (columns core.old).tasks) }
    ensures { columns core.new ≡ body_out (columns core.old) s t }
{
    take_body(core, t);
    put_body_out(core, s, Some(t));
}

/// Whether seat s may put the body of its current task home.
pub fn may_body_home(core: &Core, s: SeatNo, t: TaskNo, ended: bool) -> bool
    ensures { IsTrue result ↔ MayBodyHome (columns core.now) s t ended }
{
    if !is_of_shape(core, s, t) {
        return false;
    }
    current(core, s) == Some(t)
        && body_held_of(core, s) == Some(t)
        && (ended || !task_words(core, t).ended)
}

/// Puts the body of task t home.
pub fn body_home(core: &mut Core, s: SeatNo, t: TaskNo, ended: bool)
    requires { (s < (columns core.old).seats) × (t < (columns core.old).tasks) }
    ensures { columns core.new ≡ body_home (columns core.old) s t ended }
{
    put_body(core, t, ended);
    put_body_out(core, s, None);
}
