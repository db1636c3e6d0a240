//! How a table begins.
ghost use Rattle.std.specs.Prelude.{◌≡◌, ℕ, ◌+◌, ◌*◌, ◌<◌, ◌≤◌, ◌++◌, ◌↔◌, [], map, length, IfOk, vec_len};
ghost use Rattle.std.specs.List.{All};
ghost use Rattle.std.specs.Vec.{vec_capacity};
ghost use Rattle.handoff_data.specs.Mask.{HasCpu};
ghost use Rattle.handoff_data.specs.Shape.{IsShape};
ghost use Rattle.word_steps.specs.Opening.{first_words};
ghost use Rattle.word_steps.specs.Words.{STRIDE, words_of};
ghost use Rattle.word_table.specs.Begin.{task_slot, queue_slot, works_slot, wait_slot, row, IsLaid, new_token};
ghost use Rattle.word_table.specs.Begin.{first_tokens};
ghost use Rattle.word_table.specs.End.{HasEachSeat};
ghost use Rattle.word_table.specs.Layout.{SLOTS, rows_of};
ghost use Rattle.word_table.specs.Plays.{sat};
ghost use Rattle.word_table.specs.Ruled.{fresh, known_of, lastings};
ghost use Rattle.word_table.specs.Views.{IsOf};

use crate::layout::{ACTIVE, SLOTS, STATE, STRIDE, rows_of};
use crate::plays::Deal;
use crate::rule::Board;
use crate::slot::{BodyRoom, Key, Slot};
use crate::token::Token;
use crate::view::View;
use crate::words::Words;
use atomic_table::{Refused, Seat, Table};
use core_data::TaskVal;
use handoff_data::{CpuMask, Kept, NoMemory, Shape, State};
use std::alloc::Global;
use std::snapshot::Snapshot;
use word_steps::{QueueBox, TaskBox, Val, WaitQueue, WorksBox};

// Each task is TASK_NEW, each processor active in epoch 0.
fn first_words(alloc: Global, shape: &Shape, rows: u32) -> Result<Vec<u64>, NoMemory>
    requires shape { IsShape shape.now }
    requires rows { rows ≡ rows_of shape.now }
    ensures words { IfOk result (λ v. words_of v.items ≡ first_words shape.now) }
    ensures long { IfOk result (λ v. length v.items ≡ STRIDE * rows) }
{
    let mut words = Vec::from_elem(alloc, 0u64, STRIDE * rows as usize)?;
    for t in 0..shape.tasks as usize {
        words[STRIDE * t + STATE] = State::TASK_NEW.0 as u64;
    }
    for c in 0..shape.cpus as usize {
        words[STRIDE * c + ACTIVE] = 1;
    }
    Ok(words)
}

fn task_slot<B: Kept>(
    alloc: Global,
    shape: &Shape,
    mask: CpuMask,
    n: u32,
) -> Result<Slot<B>, NoMemory>
    ensures { IfOk result (λ x. x ≡ task_slot shape.now mask n) }
{
    if n >= shape.tasks {
        return Ok(Slot::Empty);
    }
    let val = TaskVal {
        mask,
        r: 0,
        narrowed: None,
        wake_cpu: 0,
        pending: None,
        stop_queued: false,
        dest: 0,
    };
    let task = TaskBox::new(alloc, val)?;
    Ok(Slot::Held(Val::Task(task)))
}

fn queue_slot<B: Kept>(alloc: Global, shape: &Shape, n: u32) -> Result<Slot<B>, NoMemory>
    ensures { IfOk result (λ x. x ≡ queue_slot shape.now n) }
{
    if n >= shape.cpus {
        return Ok(Slot::Empty);
    }
    let queue = QueueBox::new(alloc)?;
    Ok(Slot::Held(Val::Queue(queue)))
}

fn works_slot<B: Kept>(alloc: Global, shape: &Shape, n: u32) -> Result<Slot<B>, NoMemory>
    ensures { IfOk result (λ x. x ≡ works_slot shape.now n) }
{
    if n >= shape.cpus {
        return Ok(Slot::Empty);
    }
    let works = WorksBox::new(alloc)?;
    Ok(Slot::Held(Val::Works(works)))
}

fn wait_slot<B: Kept>(alloc: Global, shape: &Shape, n: u32) -> Result<Slot<B>, NoMemory>
    ensures { IfOk result (λ x. x ≡ wait_slot shape.now n) }
{
    if n >= shape.conds {
        return Ok(Slot::Empty);
    }
    let wait = WaitQueue::new(alloc)?;
    Ok(Slot::Held(Val::Wait(wait)))
}

// The slots of n behind those that are there.
fn lay_row<B: Kept>(
    alloc: Global,
    slots: &mut Vec<Slot<B>>,
    shape: &Shape,
    mask: CpuMask,
    n: u32,
    body: Slot<B>,
) -> Result<(), NoMemory>
    requires room { vec_len slots.old + SLOTS ≤ vec_capacity slots.old }
    ensures row { IfOk result (λ _. slots.new.items ≡ slots.old.items ++ row shape.now mask n body) }
    ensures len { IfOk result (λ _. vec_len slots.new ≡ vec_len slots.old + SLOTS) }
    ensures room { vec_capacity slots.new ≡ vec_capacity slots.old }
{
    let task = task_slot(alloc, shape, mask, n)?;
    let queue = queue_slot(alloc, shape, n)?;
    let works = works_slot(alloc, shape, n)?;
    let wait = wait_slot(alloc, shape, n)?;
    slots.push_reserved(task);
    slots.push_reserved(body);
    slots.push_reserved(queue);
    slots.push_reserved(works);
    slots.push_reserved(Slot::Empty);
    slots.push_reserved(wait);
    Ok(())
}

// The slots of all numbers, and the room for the bodies.
fn lay_slots<B: Kept>(
    alloc: Global,
    shape: &Shape,
    mask: CpuMask,
    rows: u32,
    bodies: Vec<B>,
) -> Result<Vec<Slot<B>>, NoMemory>
    requires shape { IsShape shape.now }
    requires rows { rows ≡ rows_of shape.now }
    requires tasks { length bodies.items ≡ shape.now.tasks }
    ensures { IfOk result (λ v. IsLaid shape.now mask bodies.items v.items) }
{
    let room = BodyRoom::new(alloc, shape.tasks as usize)?;
    let mut slots = Vec::with_capacity(alloc, SLOTS * rows as usize + 1)?;
    let mut laid = 0;
    for body in bodies {
        lay_row(alloc, &mut slots, shape, mask, laid, Slot::Body(body))?;
        laid += 1;
    }
    for n in laid..rows {
        lay_row(alloc, &mut slots, shape, mask, n, Slot::Empty)?;
    }
    slots.push_reserved(Slot::Room(room));
    Ok(slots)
}

fn token_of<B: Kept>(seat: Seat<Slot<B>, View>, number: u32) -> Token
    requires seat { seat.me ≡ sat seat.me.0.known number [] }
    ensures { result ≡ new_token seat.table_id seat.me.0.known.shape seat.me.0.known.lasting number }
{
    Token {
        badge: seat.into_badge(),
        seat: number,
    }
}

// A token for each seat, in order.
fn deal<B: Kept>(
    alloc: Global,
    board: &Board<B>,
    seat: Seat<Slot<B>, View>,
    seats: u32,
) -> Result<Vec<Token>, NoMemory>
    requires id { seat.table_id ≡ board.now.shared.table_id }
    requires words { 0 < board.now.shared.table_id.words }
    requires seats { 0 < seats }
    requires first { seat.me ≡ (record { parts = fresh 0 seats; known = known_of B.lasting board.now.shared.key }, []) }
    ensures { IfOk result
        (λ v. v.items ≡ first_tokens board.now.shared.table_id board.now.shared.key.shape
        (lastings B.lasting board.now.shared.key) seats) }
{
    let mut seat = seat;
    let mut tokens = Vec::with_capacity(alloc, seats as usize)?;
    for number in 0..seats - 1 {
        let other = board.shared.split_seat::<Deal>(&mut seat);
        tokens.push_reserved(token_of(other, number));
    }
    tokens.push_reserved(token_of(seat, seats - 1));
    Ok(tokens)
}

impl<B: Kept> Words<B> {
    /// A new table of this shape, with these bodies of its tasks, and the tokens of its seats in their order. Each task
    /// is TASK_NEW and may run on each processor; each processor is active; each lock is free, with its value home. A
    /// body may have ended already. All memory of the table is taken here.
    pub fn new(
        alloc: Global,
        shape: &Shape,
        bodies: Vec<B>,
    ) -> Result<(Words<B>, Vec<Token>), NoMemory>
        requires shape { IsShape shape.now }
        requires tasks { length bodies.items ≡ shape.now.tasks }
        ensures shape { IfOk result (λ r. r.0.shape ≡ shape.now) }
        ensures lasting { IfOk result (λ r. r.0.lasting ≡ map B.lasting bodies.items) }
        ensures tokens { IfOk result
            (λ r. r.1.items ≡ first_tokens r.0.name r.0.shape r.0.lasting (shape.now.cpus + shape.now.agents)) }
        ensures of { IfOk result (λ r. All (IsOf r.0) r.1.items) }
        ensures each { IfOk result
            (λ r. HasEachSeat (shape.now.cpus + shape.now.agents) (map (λ t. t.seat) r.1.items)) }
    {
        let rows = rows_of(shape);
        let mask = CpuMask::all(shape.cpus);
        let key = Key {
            shape: *shape,
            bodies: Snapshot::of(&bodies),
        };
        let states = Vec::with_capacity(alloc, shape.tasks as usize)?;
        let conds = Vec::with_capacity(alloc, shape.conds as usize)?;
        let words = first_words(alloc, shape, rows)?;
        let slots = lay_slots(alloc, shape, mask, rows, bodies)?;
        let (table, seat) = match Table::new(alloc, words.as_slice(), slots, &key) {
            Ok(made) => made,
            Err(Refused { slots: _ }) => return Err(NoMemory),
        };
        let tokens = deal(alloc, &table, seat, shape.cpus + shape.agents)?;
        let words = Words {
            table,
            shape: *shape,
            states,
            conds,
        };
        Ok((words, tokens))
    }
}
