//! Copies of a core.

ghost use Rattle.std.specs.Prelude.{◌≡◌, IfOk};
ghost use Rattle.core_data.specs.Columns.{Columns, columns};

use core_data::{
    CondWords, Core, CpuWords, Held, HeldList, HeldQueue, HeldWait, HeldWorks, ListVal, Pos,
    QueueVal, SeatCore, WaitVal, WorksVal,
};
use handoff_data::{Journal, NoMemory};
use std::alloc::AllocError;

/// The same wait queue again.
pub fn copy_wait(val: &WaitVal) -> Result<WaitVal, AllocError>
    ensures { IfOk result (λ v. v ≡ val.now) }
{
    let entries = val.entries.clone()?;
    Ok(WaitVal { entries })
}

/// The same works again.
pub fn copy_works(val: &WorksVal) -> Result<WorksVal, AllocError>
    ensures { IfOk result (λ v. v ≡ val.now) }
{
    let items = val.items.clone()?;
    Ok(WorksVal { items })
}

fn copy_list(val: &ListVal) -> Result<ListVal, AllocError>
    ensures { IfOk result (λ v. v ≡ val.now) }
{
    let tasks = val.tasks.clone()?;
    Ok(ListVal { tasks })
}

fn copy_queue_home(val: &Option<QueueVal>) -> Result<Option<QueueVal>, AllocError>
    ensures { IfOk result (λ v. v ≡ val.now) }
{
    match val {
        Some(val) => Ok(Some(val.copy()?)),
        None => Ok(None),
    }
}

fn copy_list_home(val: &Option<ListVal>) -> Result<Option<ListVal>, AllocError>
    ensures { IfOk result (λ v. v ≡ val.now) }
{
    match val {
        Some(val) => Ok(Some(copy_list(val)?)),
        None => Ok(None),
    }
}

fn copy_works_home(val: &Option<WorksVal>) -> Result<Option<WorksVal>, AllocError>
    ensures { IfOk result (λ v. v ≡ val.now) }
{
    match val {
        Some(val) => Ok(Some(copy_works(val)?)),
        None => Ok(None),
    }
}

fn copy_wait_home(val: &Option<WaitVal>) -> Result<Option<WaitVal>, AllocError>
    ensures { IfOk result (λ v. v ≡ val.now) }
{
    match val {
        Some(val) => Ok(Some(copy_wait(val)?)),
        None => Ok(None),
    }
}

fn copy_cpu(words: &CpuWords) -> Result<CpuWords, AllocError>
    ensures { IfOk result (λ w. w ≡ words.now) }
{
    let queue = copy_queue_home(&words.queue)?;
    let list = copy_list_home(&words.list)?;
    let works = copy_works_home(&words.works)?;
    Ok(CpuWords {
        hint: words.hint,
        pinned: words.pinned,
        phase: words.phase,
        active: words.active,
        epoch: words.epoch,
        queue_lock: words.queue_lock,
        queue,
        list_lock: words.list_lock,
        list,
        works_lock: words.works_lock,
        works,
    })
}

fn copy_cond(words: &CondWords) -> Result<CondWords, AllocError>
    ensures { IfOk result (λ w. w ≡ words.now) }
{
    let wait = copy_wait_home(&words.wait)?;
    Ok(CondWords {
        cond: words.cond,
        wait_lock: words.wait_lock,
        wait,
    })
}

fn copy_queues(rows: &Vec<HeldQueue>) -> Result<Vec<HeldQueue>, AllocError>
    ensures { IfOk result (λ v. v.items ≡ rows.now.items) }
{
    let mut copy = Vec::new(*rows.allocator());
    for i in 0..rows.len() {
        let row = &rows[i];
        let val = row.val.copy()?;
        copy.push(HeldQueue { c: row.c, val })?;
    }
    Ok(copy)
}

fn copy_lists(rows: &Vec<HeldList>) -> Result<Vec<HeldList>, AllocError>
    ensures { IfOk result (λ v. v.items ≡ rows.now.items) }
{
    let mut copy = Vec::new(*rows.allocator());
    for i in 0..rows.len() {
        let row = &rows[i];
        let val = copy_list(&row.val)?;
        copy.push(HeldList { c: row.c, val })?;
    }
    Ok(copy)
}

fn copy_all_works(rows: &Vec<HeldWorks>) -> Result<Vec<HeldWorks>, AllocError>
    ensures { IfOk result (λ v. v.items ≡ rows.now.items) }
{
    let mut copy = Vec::new(*rows.allocator());
    for i in 0..rows.len() {
        let row = &rows[i];
        let val = copy_works(&row.val)?;
        copy.push(HeldWorks { c: row.c, val })?;
    }
    Ok(copy)
}

fn copy_waits(rows: &Vec<HeldWait>) -> Result<Vec<HeldWait>, AllocError>
    ensures { IfOk result (λ v. v.items ≡ rows.now.items) }
{
    let mut copy = Vec::new(*rows.allocator());
    for i in 0..rows.len() {
        let row = &rows[i];
        let val = copy_wait(&row.val)?;
        copy.push(HeldWait { k: row.k, val })?;
    }
    Ok(copy)
}

fn copy_held(held: &Held) -> Result<Held, AllocError>
    ensures { IfOk result (λ h. h ≡ held.now) }
{
    let tasks = held.tasks.clone()?;
    let queues = copy_queues(&held.queues)?;
    let lists = copy_lists(&held.lists)?;
    let works = copy_all_works(&held.works)?;
    let waits = copy_waits(&held.waits)?;
    Ok(Held {
        tasks,
        queues,
        lists,
        works,
        waits,
        body: held.body,
    })
}

fn copy_pos(pos: &Pos) -> Result<Pos, AllocError>
    ensures { IfOk result (λ p. p ≡ pos.now) }
{
    let recent = pos.recent.clone()?;
    let tests = pos.tests.clone()?;
    let asleep = pos.asleep.clone()?;
    let reads = pos.reads.clone()?;
    let hand = pos.hand.clone()?;
    let actives = pos.actives.clone()?;
    let counts = pos.counts.clone()?;
    let lowered = pos.lowered.clone()?;
    let given_up = pos.given_up.clone()?;
    let zeroed = pos.zeroed.clone()?;
    let joined = pos.joined.clone()?;
    let completing = pos.completing.clone()?;
    let posted = pos.posted.clone()?;
    let works_hand = pos.works_hand.clone()?;
    let phases = pos.phases.clone()?;
    let unmarked = pos.unmarked.clone()?;
    let alive = pos.alive.clone()?;
    let turns = pos.turns.clone()?;
    Ok(Pos {
        to_clear: pos.to_clear,
        seen: pos.seen,
        level_known: pos.level_known,
        recent,
        tests,
        asleep,
        reads,
        hand,
        actives,
        counts,
        lowered,
        given_up,
        due: pos.due,
        ticket: pos.ticket,
        zeroed,
        joined,
        refs_zero: pos.refs_zero,
        completing,
        posted,
        works_hand,
        phases,
        unmarked,
        alive,
        turns,
        served: pos.served,
    })
}

fn copy_journal(journal: &Journal) -> Result<Journal, AllocError>
    ensures { IfOk result (λ j. j ≡ journal.now) }
{
    let entries = journal.entries.clone()?;
    Ok(Journal { entries })
}

fn copy_seat(seat: &SeatCore) -> Result<SeatCore, AllocError>
    ensures { IfOk result (λ s. s ≡ seat.now) }
{
    let held = copy_held(&seat.held)?;
    let pos = copy_pos(&seat.pos)?;
    let journal = copy_journal(&seat.journal)?;
    Ok(SeatCore {
        mark: seat.mark,
        done: seat.done,
        refs: seat.refs,
        current: seat.current,
        held,
        pos,
        journal,
    })
}

fn copy_cpus(rows: &Vec<CpuWords>) -> Result<Vec<CpuWords>, AllocError>
    ensures { IfOk result (λ v. v.items ≡ rows.now.items) }
{
    let mut copy = Vec::new(*rows.allocator());
    for i in 0..rows.len() {
        let row = copy_cpu(&rows[i])?;
        copy.push(row)?;
    }
    Ok(copy)
}

fn copy_conds(rows: &Vec<CondWords>) -> Result<Vec<CondWords>, AllocError>
    ensures { IfOk result (λ v. v.items ≡ rows.now.items) }
{
    let mut copy = Vec::new(*rows.allocator());
    for i in 0..rows.len() {
        let row = copy_cond(&rows[i])?;
        copy.push(row)?;
    }
    Ok(copy)
}

fn copy_seats(rows: &Vec<SeatCore>) -> Result<Vec<SeatCore>, AllocError>
    ensures { IfOk result (λ v. v.items ≡ rows.now.items) }
{
    let mut copy = Vec::new(*rows.allocator());
    for i in 0..rows.len() {
        let row = copy_seat(&rows[i])?;
        copy.push(row)?;
    }
    Ok(copy)
}

/// The same core again. NoMemory when the copy can't be allocated.
pub fn copy_core(core: &Core) -> Result<Core, NoMemory>
    ensures { IfOk result (λ r. columns r ≡ columns core.now) }
{
    let tasks = core.tasks.clone()?;
    let cpus = copy_cpus(&core.cpus)?;
    let conds = copy_conds(&core.conds)?;
    let seats = copy_seats(&core.seats)?;
    Ok(Core {
        shape: core.shape,
        tasks,
        cpus,
        conds,
        seats,
    })
}
