//! Steps and entries in words, such as `give_queue 0 cur 0 left - waiting 1`. Where a word isn't one of these, or
//! stands where it may not, there is none.

use self::Word::*;
use core_data::{QueueVal, TaskVal, WaitEntry, WaitVal, WorkItem, WorksVal};
use handoff_core::{Event, StepKind};
use handoff_data::{CpuMask, Entry, NoMemory, State, TaskNo};
use std::alloc::Global;

/// A number, or any other word.
#[derive(Clone, Copy)]
pub enum Word<'a> {
    Number(u32),
    Name(&'a str),
}

/// What a word is.
pub fn word_of(text: &str) -> Word<'_> {
    match text.parse() {
        Ok(number) => Number(number),
        Err(_) => Name(text),
    }
}

/// A number, or `-` for none.
fn optional(word: Word<'_>) -> Option<Option<u32>> {
    match word {
        Number(n) => Some(Some(n)),
        Name("-") => Some(None),
        Name(_) => None,
    }
}

/// A state, or a mask of states, by its name.
pub fn state_of(name: &str) -> Option<State> {
    match name {
        "TASK_RUNNING" => Some(State::TASK_RUNNING),
        "TASK_INTERRUPTIBLE" => Some(State::TASK_INTERRUPTIBLE),
        "TASK_UNINTERRUPTIBLE" => Some(State::TASK_UNINTERRUPTIBLE),
        "TASK_DEAD" => Some(State::TASK_DEAD),
        "TASK_WAKEKILL" => Some(State::TASK_WAKEKILL),
        "TASK_WAKING" => Some(State::TASK_WAKING),
        "TASK_NEW" => Some(State::TASK_NEW),
        "TASK_NORMAL" => Some(State::TASK_NORMAL),
        "TASK_KILLABLE" => Some(State::TASK_KILLABLE),
        _ => None,
    }
}

/// A queue: `cur` and `left`, and then those that wait: none, one task, or tasks 0 and 1.
fn queue_of(alloc: Global, words: &[Word<'_>]) -> Result<Option<QueueVal>, NoMemory> {
    let [
        Name("cur"),
        cur,
        Name("left"),
        left,
        Name("waiting"),
        waiting @ ..,
    ] = words
    else {
        return Ok(None);
    };
    let (Some(cur), Some(left)) = (optional(*cur), optional(*left)) else {
        return Ok(None);
    };
    let mut queue = QueueVal::new(alloc)?;
    match waiting {
        [] => {}
        [Number(t)] => queue.push(*t),
        [Number(0), Number(1)] => {
            queue.push(0);
            queue.push(1);
        }
        _ => return Ok(None),
    }
    queue.cur = cur;
    queue.left = left;
    Ok(Some(queue))
}

fn plain(t: TaskNo) -> WaitEntry {
    WaitEntry {
        t,
        exclusive: false,
    }
}

fn exclusive(t: TaskNo) -> WaitEntry {
    WaitEntry { t, exclusive: true }
}

/// A wait queue: nobody, an entry, or two.
fn wait_of(alloc: Global, words: &[Word<'_>]) -> Result<Option<WaitVal>, NoMemory> {
    let mut entries = Vec::new(alloc);
    match words {
        [Name("nobody")] => {}
        [Name("plain"), Number(t)] => entries.push(plain(*t))?,
        [Name("exclusive"), Number(t)] => entries.push(exclusive(*t))?,
        [Name("plain"), Number(t), Name("exclusive"), Number(u)] => {
            entries.push(plain(*t))?;
            entries.push(exclusive(*u))?;
        }
        _ => return Ok(None),
    }
    Ok(Some(WaitVal { entries }))
}

/// A stopper's works: nothing, or one.
fn works_of(alloc: Global, words: &[Word<'_>]) -> Result<Option<WorksVal>, NoMemory> {
    let mut items = Vec::new(alloc);
    match words {
        [Name("nothing")] => {}
        [Name("task"), Number(t), Name("seat"), Number(rec)] => {
            items.push(WorkItem { t: *t, rec: *rec })?;
        }
        _ => return Ok(None),
    }
    Ok(Some(WorksVal { items }))
}

/// What a task's lock guards on a machine of two processors, at the opening.
fn opening_val() -> TaskVal {
    TaskVal {
        mask: CpuMask::all(2),
        r: 0,
        narrowed: None,
        wake_cpu: 0,
        pending: None,
        stop_queued: false,
        dest: 0,
    }
}

/// What a task's lock guards: as at the opening, but for what is said.
fn val_of(words: &[Word<'_>]) -> Option<TaskVal> {
    let mut val = opening_val();
    match words {
        [] => {}
        [Name("mask"), Number(0)] => val.mask = CpuMask::all(1),
        [Name("r"), Number(r)] => val.r = u64::from(*r),
        [Name("narrowed"), Number(c)] => val.narrowed = Some(*c),
        [Name("wake_cpu"), Number(c)] => val.wake_cpu = *c,
        [Name("pending"), Number(seat)] => val.pending = Some(*seat),
        [Name("stop_queued")] => val.stop_queued = true,
        [Name("dest"), Number(c)] => val.dest = *c,
        _ => return None,
    }
    Some(val)
}

/// The give of a task's lock, which may say that it makes Stood or Done.
fn give_task(t: TaskNo, words: &[Word<'_>]) -> Option<StepKind> {
    let (val, stood, done) = match words {
        [Name("stood")] => (opening_val(), true, false),
        [Name("done")] => (opening_val(), false, true),
        _ => (val_of(words)?, false, false),
    };
    Some(StepKind::GiveTask {
        t,
        val,
        stood,
        done,
    })
}

/// A step whose arguments are numbers.
fn plain_step(verb: &str, words: &[Word<'_>]) -> Option<StepKind> {
    match words {
        [Number(n)] => step_at(verb, *n),
        [Number(n), Number(m)] => match verb {
            "queue_task" => Some(StepKind::QueueTask { c: *n, t: *m }),
            "dequeue_task" => Some(StepKind::DequeueTask { c: *n, t: *m }),
            "store_cpu" => Some(StepKind::StoreCpu { t: *n, c: *m }),
            _ => None,
        },
        _ => None,
    }
}

/// A step whose argument is one number.
fn step_at(verb: &str, n: u32) -> Option<StepKind> {
    match verb {
        "take_task" => Some(StepKind::TakeTask { t: n }),
        "take_queue" => Some(StepKind::TakeQueue { c: n }),
        "take_wait" => Some(StepKind::TakeWait { k: n }),
        "take_works" => Some(StepKind::TakeWorks { c: n }),
        "body_out" => Some(StepKind::BodyOut { t: n }),
        "clear_busy" => Some(StepKind::ClearBusy { t: n }),
        "claim_task" => Some(StepKind::ClaimTask { t: n }),
        "make_runnable" => Some(StepKind::MakeRunnable { t: n }),
        "load_rq" => Some(StepKind::LoadRq { t: n }),
        "load_busy" => Some(StepKind::LoadBusy { t: n }),
        "load_cpu" => Some(StepKind::LoadCpu { t: n }),
        "load_count" => Some(StepKind::LoadCount { t: n }),
        "bump" => Some(StepKind::Bump { k: n }),
        "load_cond" => Some(StepKind::LoadCond { k: n }),
        _ => None,
    }
}

/// A step with a state, or with how a body comes home.
fn named_step(verb: &str, t: TaskNo, name: &str) -> Option<StepKind> {
    match (verb, name) {
        ("body_home", "ended") => Some(StepKind::BodyHome { t, ended: true }),
        ("body_home", "goes_on") => Some(StepKind::BodyHome { t, ended: false }),
        ("load_state", "-") => Some(StepKind::LoadState { t, mask: None }),
        ("load_state", _) => Some(StepKind::LoadState {
            t,
            mask: Some(state_of(name)?),
        }),
        ("set_state", _) => Some(StepKind::SetState {
            t,
            state: state_of(name)?,
        }),
        _ => None,
    }
}

/// A step with a value that takes memory.
fn valued_step(
    alloc: Global,
    verb: &str,
    n: u32,
    words: &[Word<'_>],
) -> Result<Option<StepKind>, NoMemory> {
    Ok(match verb {
        "give_queue" => match queue_of(alloc, words)? {
            Some(val) => Some(StepKind::GiveQueue { c: n, val }),
            None => None,
        },
        "give_wait" => match wait_of(alloc, words)? {
            Some(val) => Some(StepKind::GiveWait { k: n, val }),
            None => None,
        },
        "give_works" => match works_of(alloc, words)? {
            Some(val) => Some(StepKind::GiveWorks { c: n, val }),
            None => None,
        },
        "move_task" => queued_step(alloc, true, n, words)?,
        "set_busy" => queued_step(alloc, false, n, words)?,
        _ => None,
    })
}

/// A step with a task and the queue that its seat has out.
fn queued_step(
    alloc: Global,
    moves: bool,
    c: u32,
    words: &[Word<'_>],
) -> Result<Option<StepKind>, NoMemory> {
    let [Number(t), rest @ ..] = words else {
        return Ok(None);
    };
    let Some(val) = queue_of(alloc, rest)? else {
        return Ok(None);
    };
    let t = *t;
    Ok(Some(if moves {
        StepKind::MoveTask { c, t, val }
    } else {
        StepKind::SetBusy { c, t, val }
    }))
}

fn step_of(alloc: Global, verb: &str, words: &[Word<'_>]) -> Result<Option<StepKind>, NoMemory> {
    if let Some(step) = plain_step(verb, words) {
        return Ok(Some(step));
    }
    match words {
        [Number(t), Name(name)] => {
            if let Some(step) = named_step(verb, *t, name) {
                return Ok(Some(step));
            }
        }
        _ => {}
    }
    match words {
        [Number(t), rest @ ..] if verb == "give_task" => Ok(give_task(*t, rest)),
        [Number(n), rest @ ..] => valued_step(alloc, verb, *n, rest),
        _ => Ok(None),
    }
}

/// The event that is meant: a seat, and its step. Answers `NoMemory` where memory runs out.
pub fn event_of(alloc: Global, words: &[Word<'_>]) -> Result<Option<Event>, NoMemory> {
    let [Number(seat), Name(verb), rest @ ..] = words else {
        return Ok(None);
    };
    match step_of(alloc, verb, rest)? {
        Some(step) => Ok(Some(Event { seat: *seat, step })),
        None => Ok(None),
    }
}

/// The entry of a journal that is meant: its kind and the task, and then mostly a number and the processor.
pub fn entry_of(words: &[Word<'_>]) -> Option<Entry> {
    match words {
        [Name(kind), Number(t), Number(m), Number(c)] => {
            let (t, m, c) = (*t, u64::from(*m), *c);
            match *kind {
                "new" => Some(Entry::New { t, m, c }),
                "sleep" => Some(Entry::Sleep { t, m, c }),
                "enq" => Some(Entry::Enq {
                    t,
                    m,
                    c,
                    by_list: false,
                }),
                "out" => Some(Entry::Out { t, m, c }),
                "in" => Some(Entry::In { t, m, c }),
                "die" => Some(Entry::Die { t, m, c }),
                "pick" => Some(Entry::Pick { t, n: m, c }),
                "finish" => Some(Entry::Finish { t, n: m, c }),
                _ => None,
            }
        }
        [Name("wake"), Number(t), Number(m)] => Some(Entry::Wake {
            t: *t,
            m: u64::from(*m),
        }),
        [Name("refused"), Number(t), Name(name)] => Some(Entry::Refused {
            t: *t,
            state: state_of(name)?,
        }),
        _ => None,
    }
}
