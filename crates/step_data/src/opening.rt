//! The opening core.

ghost use Rattle.std.specs.Prelude.{◌≡◌, IfOk, OnOk, replicate, [], None};
ghost use Rattle.core_data.specs.Opening.{IsStart, first_task, first_cpu, first_cond, first_seat, no_holding};
ghost use Rattle.core_data.specs.Opening.{no_position};
ghost use Rattle.core_data.specs.Columns.{Columns, columns};
ghost use Rattle.handoff_data.specs.Shape.{IsShape};

use core_data::{
    CondWords, Core, CpuWords, Held, ListVal, Phase, Pos, QueueVal, SeatCore, Served, TaskVal,
    TaskWords, WaitVal, WorksVal,
};
use handoff_data::{CpuMask, Journal, NoMemory, Shape, State};
use std::alloc::Global;

/// The opening core of a shape. Every task is TASK_NEW and may run on each processor; every processor is
/// Live and active; every other word is 0, every lock is free with its value home, and every queue, list,
/// works list, wait queue and journal is empty. NoMemory when it can't be allocated.
pub fn start_core(alloc: Global, shape: &Shape) -> Result<Core, NoMemory>
    requires { IsShape shape.now }
    ensures { IfOk result (λ core. IsStart shape.now (columns core)) }
{
    let mask = CpuMask::all(shape.cpus);
    let tasks = first_tasks(alloc, shape.tasks, mask)?;
    let cpus = first_cpus(alloc, shape.cpus)?;
    let conds = first_conds(alloc, shape.conds)?;
    let seats = first_seats(alloc, shape.cpus + shape.agents)?;
    Ok(Core {
        shape: *shape,
        tasks,
        cpus,
        conds,
        seats,
    })
}

fn first_task(mask: CpuMask) -> TaskWords
    ensures { result ≡ first_task mask }
{
    let val = TaskVal {
        mask,
        r: 0,
        narrowed: None,
        wake_cpu: 0,
        pending: None,
        stop_queued: false,
        dest: 0,
    };
    TaskWords {
        state: State::TASK_NEW,
        on_rq: 0,
        changes: 0,
        on_cpu: false,
        runs: 0,
        cpu: 0,
        count: 0,
        lock: None,
        val: Some(val),
        body: true,
        ended: false,
    }
}

fn first_cpu(alloc: Global) -> Result<CpuWords, NoMemory>
    ensures { IfOk result (λ w. w ≡ first_cpu) }
{
    let queue = QueueVal::new(alloc)?;
    Ok(CpuWords {
        hint: 0,
        pinned: 0,
        phase: Phase::Live,
        active: true,
        epoch: 0,
        queue_lock: None,
        queue: Some(queue),
        list_lock: None,
        list: Some(ListVal {
            tasks: Vec::new(alloc),
        }),
        works_lock: None,
        works: Some(WorksVal {
            items: Vec::new(alloc),
        }),
    })
}

fn first_cond(alloc: Global) -> CondWords
    ensures { result ≡ first_cond }
{
    CondWords {
        cond: 0,
        wait_lock: None,
        wait: Some(WaitVal {
            entries: Vec::new(alloc),
        }),
    }
}

fn no_holding(alloc: Global) -> Held
    ensures { result ≡ no_holding }
{
    Held {
        tasks: Vec::new(alloc),
        queues: Vec::new(alloc),
        lists: Vec::new(alloc),
        works: Vec::new(alloc),
        waits: Vec::new(alloc),
        body: None,
    }
}

fn no_position(alloc: Global) -> Pos
    ensures { result ≡ no_position }
{
    let served = Served {
        swept: false,
        list_empty: false,
        queue_empty: false,
        pinned_zero: false,
        works_empty: false,
    };
    Pos {
        to_clear: None,
        seen: None,
        level_known: None,
        recent: Vec::new(alloc),
        tests: Vec::new(alloc),
        asleep: Vec::new(alloc),
        reads: Vec::new(alloc),
        hand: Vec::new(alloc),
        actives: Vec::new(alloc),
        counts: Vec::new(alloc),
        lowered: Vec::new(alloc),
        given_up: Vec::new(alloc),
        due: None,
        ticket: None,
        zeroed: Vec::new(alloc),
        joined: Vec::new(alloc),
        refs_zero: true,
        completing: Vec::new(alloc),
        posted: Vec::new(alloc),
        works_hand: Vec::new(alloc),
        phases: Vec::new(alloc),
        unmarked: Vec::new(alloc),
        alive: Vec::new(alloc),
        turns: Vec::new(alloc),
        served,
    }
}

fn no_journal(alloc: Global) -> Journal
    ensures { result ≡ [] }
{
    Journal {
        entries: Vec::new(alloc),
    }
}

fn first_seat(alloc: Global) -> SeatCore
    ensures { result ≡ first_seat }
{
    SeatCore {
        mark: false,
        done: false,
        refs: 0,
        current: None,
        held: no_holding(alloc),
        pos: no_position(alloc),
        journal: no_journal(alloc),
    }
}

fn first_tasks(alloc: Global, n: u32, mask: CpuMask) -> Result<Vec<TaskWords>, NoMemory>
    ensures { IfOk result (λ v. v.items ≡ replicate n (first_task mask)) }
{
    let mut rows = Vec::new(alloc);
    for i in 0..n {
        rows.push(first_task(mask))?;
    }
    Ok(rows)
}

fn first_cpus(alloc: Global, n: u32) -> Result<Vec<CpuWords>, NoMemory>
    ensures { IfOk result (λ v. v.items ≡ replicate n first_cpu) }
{
    let mut rows = Vec::new(alloc);
    for i in 0..n {
        let row = first_cpu(alloc)?;
        rows.push(row)?;
    }
    Ok(rows)
}

fn first_conds(alloc: Global, n: u32) -> Result<Vec<CondWords>, NoMemory>
    ensures { IfOk result (λ v. v.items ≡ replicate n first_cond) }
{
    let mut rows = Vec::new(alloc);
    for i in 0..n {
        rows.push(first_cond(alloc))?;
    }
    Ok(rows)
}

fn first_seats(alloc: Global, n: u32) -> Result<Vec<SeatCore>, NoMemory>
    ensures { IfOk result (λ v. v.items ≡ replicate n first_seat) }
{
    let mut rows = Vec::new(alloc);
    for i in 0..n {
        rows.push(first_seat(alloc))?;
    }
    Ok(rows)
}
