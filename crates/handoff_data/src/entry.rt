//! Journals: what each seat did, in order.

use crate::mask::CpuMask;
use crate::no_memory::NoMemory;
use crate::numbers::{CpuNo, TaskNo};
use crate::state::State;
use std::alloc::Global;
use std::marker::Model;

/// One entry of a seat's journal. `t` is a task and `c` a processor. `m` numbers the changes of a task's
/// `on_rq` word from 1, `n` those of its `on_cpu` word from 1, `r` its masks from 1 (the opening mask is 0),
/// and `e` the epochs of a processor from 0.
#[derive(Clone, Copy, Debug, PartialEq, Eq, PartialOrd, Ord)]
pub enum Entry {
    /// The task was started on the processor's queue.
    New {
        t: TaskNo,
        m: u64,
        c: CpuNo,
    },
    /// The task went to sleep, off the processor's queue.
    Sleep {
        t: TaskNo,
        m: u64,
        c: CpuNo,
    },
    /// A waker claimed the task, which had gone to sleep by change `m`.
    Wake {
        t: TaskNo,
        m: u64,
    },
    /// The waker put the task on the processor's remote list, in its epoch `e`.
    List {
        t: TaskNo,
        m: u64,
        c: CpuNo,
        e: u64,
    },
    /// A woken task was queued, by its waker or from the remote list.
    Enq {
        t: TaskNo,
        m: u64,
        c: CpuNo,
        by_list: bool,
    },
    /// The task was taken off the processor's queue, to be moved.
    Out {
        t: TaskNo,
        m: u64,
        c: CpuNo,
    },
    /// The moved task was put on the processor's queue.
    In {
        t: TaskNo,
        m: u64,
        c: CpuNo,
    },
    /// The task ended.
    Die {
        t: TaskNo,
        m: u64,
        c: CpuNo,
    },
    /// The processor switched to the task.
    Pick {
        t: TaskNo,
        n: u64,
        c: CpuNo,
    },
    /// The processor switched away from the task.
    Finish {
        t: TaskNo,
        n: u64,
        c: CpuNo,
    },
    /// The task got its mask number `r`.
    Mask {
        t: TaskNo,
        r: u64,
        mask: CpuMask,
    },
    /// By its change `m` the task stood at `at`, which mask `r` allows.
    Stood {
        t: TaskNo,
        r: u64,
        m: u64,
        at: Option<CpuNo>,
    },
    /// The affinity request that made mask `r` was completed.
    Done {
        t: TaskNo,
        r: u64,
    },
    /// The processor went offline.
    Offline {
        c: CpuNo,
        e: u64,
    },
    /// The processor came up.
    Up {
        c: CpuNo,
        e: u64,
    },
    /// A wake found a state that its mask didn't match.
    Refused {
        t: TaskNo,
        state: State,
    },
}

/// The journal of one seat: its entries, oldest first. Contracts see it as that list.
#[derive(Debug, Drop)]
pub struct Journal {
    pub entries: Vec<Entry>,
}

impl Model for Journal {
    ghost use Rattle.std.specs.Prelude.{List};
    ghost use Rattle.handoff_data.specs.declared.entry.Entry.{Entry};

    ghost Value = { List Entry };

    ghost view = { λ j. j.entries.items };
}

impl Journal {
    ghost use Rattle.std.specs.Prelude.{◌≡◌, [], ◌∷◌, ◌++◌, OnOk, OnErr};

    /// A journal without entries. No memory is taken.
    pub fn new(alloc: Global) -> Journal
        ensures { result ≡ [] }
    {
        Journal {
            entries: Vec::new(alloc),
        }
    }

    /// The entries, oldest first.
    pub fn as_slice(&self) -> &[Entry]
        ensures { result.now ≡ self.now }
    {
        self.entries.as_slice()
    }

    /// Adds an entry at the end. A refusal leaves the journal as it was. Answers `NoMemory` where memory runs out.
    pub fn push(&mut self, entry: Entry) -> Result<(), NoMemory>
        ensures ok { OnOk result (self.new ≡ self.old ++ entry ∷ []) }
        ensures err { OnErr result (self.new ≡ self.old) }
    {
        self.entries.push(entry)?;
        Ok(())
    }
}

/// The journals of all seats. Contracts see them as a `History`.
#[derive(Debug, Drop)]
pub struct Journals {
    pub cpus: u32,
    pub tasks: u32,
    pub seats: Vec<Journal>,
}

impl Model for Journals {
    ghost use Rattle.std.specs.Prelude.{List};
    ghost use Rattle.handoff_data.specs.History.{History};

    ghost Value = { History };

    ghost view = { λ j. record { cpus = j.cpus; tasks = j.tasks; seats = j.seats.items } };
}
