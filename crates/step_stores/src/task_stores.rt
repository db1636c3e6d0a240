//! The words of a task, read and stored one at a time.

#![tactic(auto, unfolding(core_data::specs::Columns::columns))]

ghost use Rattle.std.specs.Prelude.{◌≡◌, ◌<◌, true, false};
ghost use Rattle.core_data.specs.Columns.{Columns, columns, put};
ghost use Rattle.core_data.specs.Rows.{task_words_of};

use core_data::{Core, TaskVal, TaskWords};
use handoff_data::{CpuNo, SeatNo, State, TaskNo};

/// The number of tasks.
pub fn tasks(core: &Core) -> usize
    ensures { result ≡ (columns core.now).tasks }
{
    core.tasks.len()
}

/// The number of processors.
pub fn cpus(core: &Core) -> usize
    ensures { result ≡ (columns core.now).cpus }
{
    core.cpus.len()
}

/// The number of conditions.
pub fn conds(core: &Core) -> usize
    ensures { result ≡ (columns core.now).conds }
{
    core.conds.len()
}

/// The number of seats.
pub fn seats(core: &Core) -> usize
    ensures { result ≡ (columns core.now).seats }
{
    core.seats.len()
}

/// The words of task t.
pub fn task_words(core: &Core, t: TaskNo) -> TaskWords
    requires { t < (columns core.now).tasks }
    ensures { result ≡ task_words_of (columns core.now) t }
{
    core.tasks[t as usize]
}

/// Stores the state of task t.
pub fn put_state(core: &mut Core, t: TaskNo, state: State)
    requires { t < (columns core.old).tasks }
    ensures { columns core.new ≡ record (columns core.old) { state = put (columns core.old).state t state } }
{
    let row = &mut core.tasks[t as usize];
    row.state = state;
}

/// Stores `on_rq` of task t, with the number of its changes.
pub fn put_rq(core: &mut Core, t: TaskNo, on_rq: u8, changes: u64)
    requires { t < (columns core.old).tasks }
    ensures { columns core.new ≡ record (columns core.old) {
      on_rq = put (columns core.old).on_rq t on_rq;
      changes = put (columns core.old).changes t changes;
    } }
{
    let row = &mut core.tasks[t as usize];
    row.on_rq = on_rq;
    row.changes = changes;
}

/// Stores the busy word of task t, with the number of its changes.
pub fn put_busy(core: &mut Core, t: TaskNo, on_cpu: bool, runs: u64)
    requires { t < (columns core.old).tasks }
    ensures { columns core.new ≡ record (columns core.old) {
      on_cpu = put (columns core.old).on_cpu t on_cpu;
      runs = put (columns core.old).runs t runs;
    } }
{
    let row = &mut core.tasks[t as usize];
    row.on_cpu = on_cpu;
    row.runs = runs;
}

/// Stores the processor of task t.
pub fn put_cpu(core: &mut Core, t: TaskNo, cpu: CpuNo)
    requires { t < (columns core.old).tasks }
    ensures { columns core.new ≡ record (columns core.old) { cpu = put (columns core.old).cpu t cpu } }
{
    let row = &mut core.tasks[t as usize];
    row.cpu = cpu;
}

/// Stores the lock word of task t.
pub fn put_lock(core: &mut Core, t: TaskNo, lock: Option<SeatNo>)
    requires { t < (columns core.old).tasks }
    ensures { columns core.new ≡ record (columns core.old) { lock = put (columns core.old).lock t lock } }
{
    let row = &mut core.tasks[t as usize];
    row.lock = lock;
}

/// Puts the value of the lock of task t home, or takes it out.
pub fn put_val(core: &mut Core, t: TaskNo, val: Option<TaskVal>)
    requires { t < (columns core.old).tasks }
    ensures { columns core.new ≡ record (columns core.old) { val = put (columns core.old).val t val } }
{
    let row = &mut core.tasks[t as usize];
    row.val = val;
}

/// Takes the body of task t out.
pub fn take_body(core: &mut Core, t: TaskNo)
    requires { t < (columns core.old).tasks }
    ensures { columns core.new ≡ record (columns core.old) { body = put (columns core.old).body t false } }
{
    let row = &mut core.tasks[t as usize];
    row.body = false;
}

/// Puts the body of task t home.
pub fn put_body(core: &mut Core, t: TaskNo, ended: bool)
    requires { t < (columns core.old).tasks }
    ensures { columns core.new ≡ record (columns core.old) {
      body = put (columns core.old).body t true;
      ended = put (columns core.old).ended t ended;
    } }
{
    let row = &mut core.tasks[t as usize];
    row.body = true;
    row.ended = ended;
}
