//! How a table ends.
ghost use Rattle.std.specs.Prelude.{◌≡◌, ℕ, ◌+◌, ◌*◌, ◌^◌, ◌<◌, ◌≤◌, Some, [], true, false, map, length};
ghost use Rattle.std.specs.Prelude.{slice_index_or, slice_set, if◌then◌else◌};
ghost use Rattle.std.specs.List.{All, range_with_len, slice_get};
ghost use Rattle.std.specs.Slots.{slots_items, slots_filled, slots_len, IsFull};
ghost use mathlib.Core.Bool.{not};
ghost use mathlib.Core.Option.{some};
ghost use lib.ListN.{get_elem?};
ghost use Rattle.handoff_data.specs.Shape.{IsShape};
ghost use Rattle.word_steps.specs.Words.{STRIDE, STATE, COND, words_of};
ghost use Rattle.word_table.specs.End.{HasRoom, HasEachSeat, IsIdle, IsLeft, IsEnd, is_body};
ghost use Rattle.word_table.specs.Gathered.{IsGatheredOf};
ghost use Rattle.word_table.specs.Layout.{SLOTS, BODY_SLOT, rows_of, slot_at};
ghost use Rattle.word_table.specs.Ruled.{lastings};
ghost use Rattle.word_table.specs.declared.slot.Slot.TheVariants.{Body, Room};

use crate::gathered::Gathered;
use crate::layout::{BODY_SLOT, COND, SLOTS, STATE, STRIDE, rows_of};
use crate::rule::Board;
use crate::slot::Slot;
use crate::words::Words;
use handoff_data::{Kept, State};
use std::alloc::Global;

/// What a table leaves: by task its body and its state, and by condition its counter.
#[derive(Drop)]
pub struct Closed<B> {
    pub bodies: Vec<B>,
    pub states: Vec<State>,
    pub conds: Vec<u64>,
}

type Left<B> = atomic_table::Closed<Slot<B>, Global>;

// The words and slots of a table whose tokens are all there.
fn end_of<B: Kept>(board: Board<B>, gathered: Gathered<B>) -> Left<B>
    requires of { IsGatheredOf (record {
      name = board.shared.table_id;
      shape = board.shared.key.shape;
      lasting = lastings B.lasting board.shared.key;
    }) gathered }
    requires all { HasEachSeat (board.shared.key.shape.cpus + board.shared.key.shape.agents)
        (map (λ t. t.seat) gathered.tokens) }
    requires idle { All IsIdle gathered.tokens }
    ensures counts { (slots_len result.words ≡ board.shared.table_id.words)
        × (slots_len result.slots ≡ board.shared.table_id.slots) }
    ensures words { IsFull result.words }
    ensures slots { IsFull result.slots }
    ensures left { IsLeft B.lasting B.ended board.shared.key gathered.tokens (slots_items result.words)
        (slots_items result.slots) }
{
    let Gathered { seat } = gathered;
    board.close_with(seat)
}

// The room for the bodies.
fn take_room<B: Kept>(left: &mut Left<B>, rows: u32, tasks: u32) -> Vec<B>
    requires places { slots_len left.old.slots ≡ SLOTS * rows + 1 }
    requires full { IsFull left.old.slots }
    requires room { (v : _) × (get_elem? (slots_items left.old.slots) (SLOTS * rows) ≡ some (Room v))
        × HasRoom tasks v }
    ensures room { HasRoom tasks result }
    ensures items { slots_items left.new.slots ≡ slots_items left.old.slots }
    ensures len { slots_len left.new.slots ≡ slots_len left.old.slots }
    ensures words { left.new.words ≡ left.old.words }
    ensures filled { slots_filled left.new.slots ≡ slice_set (slots_filled left.old.slots) (SLOTS * rows) false }
{
    let Slot::Room(room) = left.take(SLOTS * rows as usize) else {
        unreachable!()
    };
    room.into_vec()
}

// The body of a task, whose slot is empty from then on.
fn take_body<B: Kept>(left: &mut Left<B>, t: u32) -> B
    requires places { slot_at t BODY_SLOT < slots_len left.old.slots }
    requires filled { slice_index_or (slots_filled left.old.slots) (slot_at t BODY_SLOT) false ≡ true }
    requires body { (b : B) × (get_elem? (slots_items left.old.slots) (slot_at t BODY_SLOT) ≡ some (Body b)) }
    ensures body { get_elem? (slots_items left.old.slots) (slot_at t BODY_SLOT) ≡ some (Body result) }
    ensures items { slots_items left.new.slots ≡ slots_items left.old.slots }
    ensures len { slots_len left.new.slots ≡ slots_len left.old.slots }
    ensures words { left.new.words ≡ left.old.words }
    ensures filled { slots_filled left.new.slots ≡ slice_set (slots_filled left.old.slots) (slot_at t BODY_SLOT) false }
{
    let Slot::Body(body) = left.take(SLOTS * t as usize + BODY_SLOT) else {
        unreachable!()
    };
    body
}

// The bodies of all tasks.
fn take_bodies<B: Kept>(left: &mut Left<B>, tasks: u32, room: Vec<B>) -> Vec<B>
    requires places { SLOTS * tasks < slots_len left.old.slots }
    requires filled { (k : ℕ) → k < SLOTS * tasks → slice_index_or (slots_filled left.old.slots) k false ≡ true }
    requires bodies { (t : ℕ) → t < tasks
        → (b : B) × (get_elem? (slots_items left.old.slots) (slot_at t BODY_SLOT) ≡ some (Body b)) }
    requires room { HasRoom tasks room }
    ensures bodies { map (λ b. some (Body b)) result.items ≡ map
        (λ t. get_elem? (slots_items left.old.slots) (slot_at t BODY_SLOT)) (range_with_len 0 tasks) }
    ensures len { slots_len left.new.slots ≡ slots_len left.old.slots }
    ensures words { left.new.words ≡ left.old.words }
    ensures filled { (k : ℕ) → slice_index_or (slots_filled left.new.slots) k false ≡ (if is_body tasks k then false
        else slice_index_or (slots_filled left.old.slots) k false) }
{
    let mut bodies = room;
    for t in 0..tasks {
        bodies.push_reserved(take_body(left, t));
    }
    bodies
}

// Each task's state.
fn read_states<B: Kept>(left: &Left<B>, tasks: u32, room: Vec<State>) -> Vec<State>
    requires full { IsFull left.now.words }
    requires places { STRIDE * tasks ≤ slots_len left.now.words }
    requires fit { (t : ℕ) → words_of (slots_items left.now.words) t STATE < 2 ^ 16 }
    requires room { HasRoom tasks room }
    ensures { result.items ≡ map (λ t. record { 0 = words_of (slots_items left.now.words) t STATE })
        (range_with_len 0 tasks) }
{
    let mut states = room;
    for t in 0..tasks as usize {
        states.push_reserved(State(left.word(STRIDE * t + STATE) as u16));
    }
    states
}

// Each condition's counter.
fn read_conds<B: Kept>(left: &Left<B>, count: u32, room: Vec<u64>) -> Vec<u64>
    requires full { IsFull left.now.words }
    requires places { STRIDE * count ≤ slots_len left.now.words }
    requires room { HasRoom count room }
    ensures { result.items ≡ map (λ k. words_of (slots_items left.now.words) k COND) (range_with_len 0 count) }
{
    let mut conds = room;
    for k in 0..count as usize {
        conds.push_reserved(left.word(STRIDE * k + COND));
    }
    conds
}

fn is_body(slot: usize, tasks: u32) -> bool
    ensures { result ≡ is_body tasks slot }
{
    slot % SLOTS == BODY_SLOT && slot / SLOTS < tasks as usize
}

// Lets the values of the locks go, and then the memory of the table. Bodies and room are taken.
fn drop_rest<B: Kept>(mut left: Left<B>, rows: u32, tasks: u32)
    requires places { slots_len left.slots ≡ SLOTS * rows + 1 }
    requires filled { (k : ℕ) → k < SLOTS * rows
        → slice_index_or (slots_filled left.slots) k false ≡ not (is_body tasks k) }
    requires room { slice_index_or (slots_filled left.slots) (SLOTS * rows) false ≡ false }
{
    for slot in 0..SLOTS * rows as usize {
        if is_body(slot, tasks) {
            continue;
        }
        drop(left.take(slot));
    }
    left.free();
}

impl<B: Kept> Words<B> {
    /// Ends a table, once the tokens of all its seats have come back, in any order, and each has given all back. It
    /// takes no memory.
    pub fn close(self, gathered: Gathered<B>) -> Closed<B>
        requires of { IsGatheredOf self gathered }
        requires all { HasEachSeat (self.shape.cpus + self.shape.agents) (map (λ t. t.seat) gathered.tokens) }
        requires idle { All IsIdle gathered.tokens }
        ensures lasting { map B.lasting result.bodies.items ≡ self.lasting }
        ensures sizes { (length result.bodies.items ≡ self.shape.tasks)
            × (length result.states.items ≡ self.shape.tasks) × (length result.conds.items ≡ self.shape.conds) }
        ensures end { IsEnd B.ended self.shape gathered.tokens result.bodies.items result.states.items
            result.conds.items }
    {
        let Words {
            table,
            shape,
            states,
            conds,
        } = self;
        let rows = rows_of(&shape);
        let mut left = end_of(table, gathered);
        let room = take_room(&mut left, rows, shape.tasks);
        let bodies = take_bodies(&mut left, shape.tasks, room);
        let states = read_states(&left, shape.tasks, states);
        let conds = read_conds(&left, shape.conds, conds);
        drop_rest(left, rows, shape.tasks);
        Closed {
            bodies,
            states,
            conds,
        }
    }
}
