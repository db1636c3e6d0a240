//! What the lock of a processor's works guards on the shared table.
ghost use Rattle.std.specs.Prelude.{◌≡◌};

use core_data::WorkItem;
use handoff_data::NoMemory;
use std::alloc::Global;
use std::collections::VecDeque;
use std::marker::Model;

/// The works of a processor, the oldest first, after Linux's `struct cpu_stopper` (`kernel/stop_machine.c`). Contracts
/// see that list.
///
/// Room for 200 works, one for each task of the largest shape, is reserved from the start, so that putting one in takes
/// no memory. It is in a box, so that a lock which is taken, or given, moves no more than an address.
#[derive(Drop)]
pub struct WorksBox {
    works: Box<VecDeque<WorkItem>>,
}

impl Model for WorksBox {
    ghost use Rattle.std.specs.Prelude.{◌≤◌, List};
    ghost use Rattle.std.specs.VecDeque.{deque_capacity};
    ghost use Rattle.core_data.specs.declared.values.WorkItem.{WorkItem};

    ghost Value = { List WorkItem };

    ghost view = { λ w. w.works.value.items };

    ghost invariant = { λ w. 200 ≤ deque_capacity w.works.value };
}

impl WorksBox {
    ghost use Rattle.std.specs.Prelude.{◌≡◌, ◌<◌, ◌++◌, ◌∷◌, [], length, IfOk};

    /// The room that the works of each processor reserve.
    const ROOM: usize = 200;

    /// No works. Answers `NoMemory` where memory runs out.
    pub fn new(alloc: Global) -> Result<WorksBox, NoMemory>
        ensures { IfOk result (λ w. w ≡ []) }
    {
        let works = VecDeque::with_capacity(alloc, WorksBox::ROOM)?;
        let works = Box::new(alloc, works)?;
        Ok(WorksBox { works })
    }

    /// Puts a work behind those that are there, as Linux's `__cpu_stop_queue_work` (`kernel/stop_machine.c`).
    pub fn push(&mut self, work: WorkItem)
        requires room { length self.old < 200 }
        ensures { self.new ≡ self.old ++ work ∷ [] }
    {
        self.works.push_back_reserved(work);
    }

    /// The number of works.
    pub fn len(&self) -> usize
        ensures { result ≡ length self.now }
    {
        self.works.len()
    }
}
