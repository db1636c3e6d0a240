//! What a seat has read and stored that a later step may rest on. It is a fold of the seat's own steps.

use crate::act::Act;
use crate::values::WorkItem;
use crate::words::Phase;
use handoff_data::{CondNo, CpuNo, SeatNo, State, TaskNo};
use std::marker::Model;

/// An `on_rq` word with the number of its changes.
#[derive(Clone, Copy)]
pub struct Rq {
    pub on: u8,
    pub m: u64,
}

/// The last reads of a task since its lock was taken and the seat stored a word of it: its state, then `on_rq`,
/// then its busy word. The number of its changes and its processor are those last read or stored under the lock.
#[derive(Clone, Copy)]
pub struct TaskReads {
    pub t: TaskNo,
    pub state: Option<State>,
    pub rq: Option<Rq>,
    pub busy: Option<bool>,
    pub number: Option<u64>,
    pub cpu: Option<CpuNo>,
}

/// The value of condition `k` that task `t` tested after it last stored a sleep state.
#[derive(Clone, Copy)]
pub struct Test {
    pub t: TaskNo,
    pub k: CondNo,
    pub v: u64,
}

/// Task `t` was put to sleep at condition `k`.
#[derive(Clone, Copy)]
pub struct Asleep {
    pub t: TaskNo,
    pub k: CondNo,
}

/// A processor that was read as active, since the seat's mark was set.
#[derive(Clone, Copy)]
pub struct ActiveRead {
    pub c: CpuNo,
    pub epoch: u64,
}

/// A task's migrate-disable level, read under its lock and not stored since.
#[derive(Clone, Copy)]
pub struct CountRead {
    pub t: TaskNo,
    pub level: u32,
}

/// The store of `pinned` that is due after a store of a level.
#[derive(Clone, Copy)]
pub enum Due {
    Raise,
    Lower,
}

/// A share in the record of a seat, for mask `r` of task `t`.
#[derive(Clone, Copy)]
pub struct Ticket {
    pub rec: SeatNo,
    pub t: TaskNo,
    pub r: u64,
    pub taken_off: bool,
    pub read_done: bool,
}

/// A record that was taken out in a give that made Stood, and whose done word is still to be stored.
#[derive(Clone, Copy)]
pub struct Completing {
    pub rec: SeatNo,
    pub t: TaskNo,
    pub r: u64,
}

/// The phase of a processor that this seat last read or stored.
#[derive(Clone, Copy)]
pub struct PhaseRead {
    pub c: CpuNo,
    pub phase: Phase,
}

/// The mark of seat `s`, read as 0 since this seat turned processor `c` inactive.
#[derive(Clone, Copy)]
pub struct MarkRead {
    pub c: CpuNo,
    pub s: SeatNo,
}

/// How often the seat stored Leaving and Rising as the phase of a processor.
#[derive(Clone, Copy)]
pub struct PhaseTurns {
    pub c: CpuNo,
    pub leavings: u64,
    pub risings: u64,
}

/// What the seat of a processor that is swept has read since, in this order.
#[derive(Clone, Copy)]
pub struct Served {
    pub swept: bool,
    pub list_empty: bool,
    pub queue_empty: bool,
    pub pinned_zero: bool,
    pub works_empty: bool,
}

/// The position of a seat. Contracts see a `Position`.
#[derive(Drop)]
pub struct Pos {
    /// The task whose busy word the seat still has to clear.
    pub to_clear: Option<TaskNo>,
    /// The state of the current task that was read under the own queue's lock, with none stored since.
    pub seen: Option<State>,
    /// The migrate-disable level of the current task, as it was last read since the pick.
    pub level_known: Option<u32>,
    /// The latest steps, oldest first.
    pub recent: Vec<Act>,
    pub tests: Vec<Test>,
    pub asleep: Vec<Asleep>,
    pub reads: Vec<TaskReads>,
    /// Tasks taken from the own remote list and not yet queued, the oldest first.
    pub hand: Vec<TaskNo>,
    pub actives: Vec<ActiveRead>,
    pub counts: Vec<CountRead>,
    /// Tasks whose level the seat lowered to 0, and whose lock it hasn't given since with no narrowing.
    pub lowered: Vec<TaskNo>,
    /// Tasks that the seat gave up while it held their lock.
    pub given_up: Vec<TaskNo>,
    pub due: Option<Due>,
    pub ticket: Option<Ticket>,
    /// Tasks under whose held lock the seat stored its own done word as 0.
    pub zeroed: Vec<TaskNo>,
    /// Tasks under whose held lock the seat took its ticket.
    pub joined: Vec<TaskNo>,
    /// Whether the seat has read its own refs word as 0 and hasn't installed its record since.
    pub refs_zero: bool,
    pub completing: Vec<Completing>,
    /// Tasks under whose held lock the seat posted a stop work of them.
    pub posted: Vec<TaskNo>,
    /// Stop works that the seat took out and hasn't spent.
    pub works_hand: Vec<WorkItem>,
    pub phases: Vec<PhaseRead>,
    pub unmarked: Vec<MarkRead>,
    /// Processors whose phase was read as other than Dead under the held lock of their works.
    pub alive: Vec<CpuNo>,
    pub turns: Vec<PhaseTurns>,
    pub served: Served,
}

impl Model for Pos {
    ghost use Rattle.core_data.specs.Position.{Position};

    ghost Value = { Position };

    ghost view = { λ p. record {
      to_clear = p.to_clear;
      seen = p.seen;
      level_known = p.level_known;
      recent = p.recent.items;
      tests = p.tests.items;
      asleep = p.asleep.items;
      reads = p.reads.items;
      hand = p.hand.items;
      actives = p.actives.items;
      counts = p.counts.items;
      lowered = p.lowered.items;
      given_up = p.given_up.items;
      due = p.due;
      ticket = p.ticket;
      zeroed = p.zeroed.items;
      joined = p.joined.items;
      refs_zero = p.refs_zero;
      completing = p.completing.items;
      posted = p.posted.items;
      works_hand = p.works_hand.items;
      phases = p.phases.items;
      unmarked = p.unmarked.items;
      alive = p.alive.items;
      turns = p.turns.items;
      served = p.served;
    } };
}
