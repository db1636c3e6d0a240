//! The lock values and the body that a seat has out.

use crate::queue::QueueVal;
use crate::values::{ListVal, TaskVal, WaitVal, WorksVal};
use handoff_data::{CondNo, CpuNo, TaskNo};
use std::marker::Model;

/// The value of a task's lock, as it was taken.
#[derive(Clone, Copy)]
pub struct HeldTask {
    pub t: TaskNo,
    pub val: TaskVal,
}

/// The value of a queue's lock, as it was taken.
#[derive(Drop)]
pub struct HeldQueue {
    pub c: CpuNo,
    pub val: QueueVal,
}

/// The value of a remote list's lock, as it was taken.
#[derive(Drop)]
pub struct HeldList {
    pub c: CpuNo,
    pub val: ListVal,
}

/// The value of a stopper's lock, as it was taken.
#[derive(Drop)]
pub struct HeldWorks {
    pub c: CpuNo,
    pub val: WorksVal,
}

/// The value of a wait queue's lock, as it was taken.
#[derive(Drop)]
pub struct HeldWait {
    pub k: CondNo,
    pub val: WaitVal,
}

/// What a seat has out: a value for each lock that it holds, and the task whose body it has.
#[derive(Drop)]
pub struct Held {
    pub tasks: Vec<HeldTask>,
    pub queues: Vec<HeldQueue>,
    pub lists: Vec<HeldList>,
    pub works: Vec<HeldWorks>,
    pub waits: Vec<HeldWait>,
    pub body: Option<TaskNo>,
}

impl Model for Held {
    ghost use Rattle.core_data.specs.Holding.{Holding};

    ghost Value = { Holding };

    ghost view = { λ h. record {
      tasks = h.tasks.items;
      queues = h.queues.items;
      lists = h.lists.items;
      works = h.works.items;
      waits = h.waits.items;
      body = h.body;
    } };
}
