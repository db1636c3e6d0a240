//! What a seat has out, read.

#![tactic(auto, unfolding(core_data::specs::Columns::columns))]

ghost use Rattle.std.specs.Prelude.{◌≡◌, ◌<◌, ◌==◌, Some, None, if◌then◌else◌, option_copied};
ghost use Rattle.core_data.specs.Found.{found};
ghost use Rattle.core_data.specs.Columns.{Columns, columns};
ghost use Rattle.core_data.specs.declared.held.HeldTask.{HeldTask};
ghost use Rattle.core_data.specs.declared.held.HeldQueue.{HeldQueue};
ghost use Rattle.core_data.specs.declared.held.HeldWorks.{HeldWorks};
ghost use Rattle.core_data.specs.declared.held.HeldWait.{HeldWait};
ghost use Rattle.core_data.specs.declared.pos.TaskReads.{TaskReads};

use core_data::{
    Core, HeldQueue, HeldTask, HeldWait, HeldWorks, QueueVal, TaskReads, TaskVal, WaitVal, WorksVal,
};
use handoff_data::{CondNo, CpuNo, SeatNo, State, TaskNo};
use step_data::{held, pos};

fn newer_task(h: &HeldTask, t: TaskNo, known: Option<TaskVal>) -> Option<TaskVal>
    ensures { result ≡ (if t == h.now.t then Some h.now.val else known) }
{
    if t == h.t { Some(h.val) } else { known }
}

fn find_task(held: &[HeldTask], t: TaskNo) -> Option<TaskVal>
    ensures { result ≡ found (λ (h : HeldTask). t == h.t) (λ h. Some h.val) None held.now }
{
    let mut known = None;
    for h in held {
        known = newer_task(h, t, known);
    }
    known
}

/// The value of the lock of task t as seat s took it, where it has it out.
pub fn task_out(core: &Core, s: SeatNo, t: TaskNo) -> Option<TaskVal>
    requires { s < (columns core.now).seats }
    ensures { result ≡ (columns core.now).task_held s t }
{
    let row = &core.seats[s as usize];
    find_task(held::tasks(&row.held), t)
}

fn newer_queue<'a>(h: &'a HeldQueue, c: CpuNo, known: Option<&'a QueueVal>) -> Option<&'a QueueVal>
    ensures { option_copied result ≡ (if c == h.now.c then Some h.now.val else option_copied known.entry) }
{
    if c == h.c { Some(&h.val) } else { known }
}

fn find_queue(held: &[HeldQueue], c: CpuNo) -> Option<&QueueVal>
    ensures { option_copied result ≡ found (λ (h : HeldQueue). c == h.c) (λ h. Some h.val) None held.now }
{
    let mut known = None;
    for h in held {
        known = newer_queue(h, c, known);
    }
    known
}

/// The value of the queue of processor c as seat s took it, where it has it out.
pub fn queue_out(core: &Core, s: SeatNo, c: CpuNo) -> Option<&QueueVal>
    requires { s < (columns core.now).seats }
    ensures { option_copied result ≡ (columns core.now).queue_held s c }
{
    let row = &core.seats[s as usize];
    find_queue(held::queues(&row.held), c)
}

fn newer_works<'a>(h: &'a HeldWorks, c: CpuNo, known: Option<&'a WorksVal>) -> Option<&'a WorksVal>
    ensures { option_copied result ≡ (if c == h.now.c then Some h.now.val else option_copied known.entry) }
{
    if c == h.c { Some(&h.val) } else { known }
}

fn find_works(held: &[HeldWorks], c: CpuNo) -> Option<&WorksVal>
    ensures { option_copied result ≡ found (λ (h : HeldWorks). c == h.c) (λ h. Some h.val) None held.now }
{
    let mut known = None;
    for h in held {
        known = newer_works(h, c, known);
    }
    known
}

/// The value of the works of processor c as seat s took it, where it has it out.
pub fn works_out(core: &Core, s: SeatNo, c: CpuNo) -> Option<&WorksVal>
    requires { s < (columns core.now).seats }
    ensures { option_copied result ≡ (columns core.now).works_held s c }
{
    let row = &core.seats[s as usize];
    find_works(held::works(&row.held), c)
}

fn newer_wait<'a>(h: &'a HeldWait, k: CondNo, known: Option<&'a WaitVal>) -> Option<&'a WaitVal>
    ensures { option_copied result ≡ (if k == h.now.k then Some h.now.val else option_copied known.entry) }
{
    if k == h.k { Some(&h.val) } else { known }
}

fn find_wait(held: &[HeldWait], k: CondNo) -> Option<&WaitVal>
    ensures { option_copied result ≡ found (λ (h : HeldWait). k == h.k) (λ h. Some h.val) None held.now }
{
    let mut known = None;
    for h in held {
        known = newer_wait(h, k, known);
    }
    known
}

/// The value of the wait queue of condition k as seat s took it, where it has it out.
pub fn wait_out(core: &Core, s: SeatNo, k: CondNo) -> Option<&WaitVal>
    requires { s < (columns core.now).seats }
    ensures { option_copied result ≡ (columns core.now).wait_held s k }
{
    let row = &core.seats[s as usize];
    find_wait(held::waits(&row.held), k)
}

/// The task whose busy word seat s still has to clear.
pub fn to_clear(core: &Core, s: SeatNo) -> Option<TaskNo>
    requires { s < (columns core.now).seats }
    ensures { result ≡ (columns core.now).task_to_clear s }
{
    let row = &core.seats[s as usize];
    pos::to_clear(&row.pos)
}

/// The state that seat s has read of its current task under the lock of its own queue.
pub fn seen(core: &Core, s: SeatNo) -> Option<State>
    requires { s < (columns core.now).seats }
    ensures { result ≡ (columns core.now).seen_state s }
{
    let row = &core.seats[s as usize];
    pos::seen(&row.pos)
}

/// The migrate-disable level of its current task that seat s has read since it picked it.
pub fn level_known(core: &Core, s: SeatNo) -> Option<u32>
    requires { s < (columns core.now).seats }
    ensures { result ≡ (columns core.now).level_known s }
{
    let row = &core.seats[s as usize];
    pos::level_known(&row.pos)
}

/// The task whose body seat s has out.
pub fn body_out(core: &Core, s: SeatNo) -> Option<TaskNo>
    requires { s < (columns core.now).seats }
    ensures { result ≡ (columns core.now).body_held s }
{
    let row = &core.seats[s as usize];
    held::body(&row.held)
}

/// What seat s has last read of task t.
pub fn reads(core: &Core, s: SeatNo, t: TaskNo) -> TaskReads
    requires { s < (columns core.now).seats }
    ensures { result ≡ (columns core.now).last_reads s t }
{
    let row = &core.seats[s as usize];
    pos::reads(&row.pos, t)
}
