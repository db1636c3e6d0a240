//! What a seat has, stored one word at a time.

#![tactic(auto, unfolding(core_data::specs::Columns::columns))]

ghost use Rattle.std.specs.Prelude.{◌≡◌, ◌<◌, ◌==◌, ◌&&◌, ◌++◌, ◌∷◌, [], Some, None, OnOk, false, if◌then◌else◌};
ghost use Rattle.core_data.specs.Noted.{noted, given_asleep};
ghost use Rattle.core_data.specs.Columns.{Columns, columns, put, put_at};

use core_data::{Act, Core, QueueVal, TaskReads, TaskVal, Test, WaitEntry, WaitVal, WorksVal};
use handoff_data::{CondNo, CpuNo, Entry, Journal, NoMemory, SeatNo, State, TaskNo};
use step_data::{held, pos};

fn add_entry(journal: &mut Journal, entry: Entry) -> Result<(), NoMemory>
    ensures { OnOk result (journal.new ≡ journal.old ++ entry ∷ []) }
{
    journal.entries.push(entry)?;
    Ok(())
}

/// Makes task t, or none, the current task of seat s.
pub fn put_current(core: &mut Core, s: SeatNo, t: Option<TaskNo>)
    requires { s < (columns core.old).seats }
    ensures { columns core.new ≡ record (columns core.old) { current_task = put (columns core.old).current_task s t } }
{
    let row = &mut core.seats[s as usize];
    row.current = t;
}

/// The current task of seat s.
pub fn current(core: &Core, s: SeatNo) -> Option<TaskNo>
    requires { s < (columns core.now).seats }
    ensures { result ≡ (columns core.now).current_task s }
{
    let row = &core.seats[s as usize];
    row.current
}

/// Sets the task whose body seat s has out.
pub fn put_body_out(core: &mut Core, s: SeatNo, t: Option<TaskNo>)
    requires { s < (columns core.old).seats }
    ensures { columns core.new ≡ record (columns core.old) { body_held = put (columns core.old).body_held s t } }
{
    let row = &mut core.seats[s as usize];
    held::set_body(&mut row.held, t);
}

/// Sets the task whose busy word seat s still has to clear.
pub fn put_to_clear(core: &mut Core, s: SeatNo, t: Option<TaskNo>)
    requires { s < (columns core.old).seats }
    ensures { columns core.new
        ≡ record (columns core.old) { task_to_clear = put (columns core.old).task_to_clear s t } }
{
    let row = &mut core.seats[s as usize];
    pos::set_to_clear(&mut row.pos, t);
}

/// Sets the state that seat s has read of its current task under the lock of its own queue.
pub fn put_seen(core: &mut Core, s: SeatNo, state: Option<State>)
    requires { s < (columns core.old).seats }
    ensures { columns core.new ≡ record (columns core.old) { seen_state = put (columns core.old).seen_state s state } }
{
    let row = &mut core.seats[s as usize];
    pos::set_seen(&mut row.pos, state);
}

/// Sets the migrate-disable level of its current task that seat s has read.
pub fn put_level_known(core: &mut Core, s: SeatNo, level: Option<u32>)
    requires { s < (columns core.old).seats }
    ensures { columns core.new
        ≡ record (columns core.old) { level_known = put (columns core.old).level_known s level } }
{
    let row = &mut core.seats[s as usize];
    pos::set_level_known(&mut row.pos, level);
}

/// Adds an entry to the journal of seat s. Answers `NoMemory` where memory runs out.
pub fn log(core: &mut Core, s: SeatNo, entry: Entry) -> Result<(), NoMemory>
    requires { s < (columns core.old).seats }
    ensures { OnOk result
        (columns core.new ≡ record (columns core.old) {
          journal = put (columns core.old).journal s
              ((columns core.old).journal s ++ entry ∷ []);
        }) }
{
    let row = &mut core.seats[s as usize];
    add_entry(&mut row.journal, entry)?;
    Ok(())
}

/// Adds a value to those that seat s has out. Answers `NoMemory` where memory runs out.
pub fn hold_task(core: &mut Core, s: SeatNo, t: TaskNo, val: TaskVal) -> Result<(), NoMemory>
    requires { s < (columns core.old).seats }
    ensures { OnOk result
        (columns core.new ≡ record (columns core.old) {
          task_held = put_at (columns core.old).task_held s t
              (Some val);
        }) }
{
    let row = &mut core.seats[s as usize];
    held::hold_task(&mut row.held, t, val)?;
    Ok(())
}

/// Drops a value from those that seat s has out.
pub fn release_task(core: &mut Core, s: SeatNo, t: TaskNo)
    requires { s < (columns core.old).seats }
    ensures { columns core.new
        ≡ record (columns core.old) { task_held = put_at (columns core.old).task_held s t None } }
{
    let row = &mut core.seats[s as usize];
    held::release_task(&mut row.held, t);
}

/// Adds a value to those that seat s has out. Answers `NoMemory` where memory runs out.
pub fn hold_queue(core: &mut Core, s: SeatNo, c: CpuNo, val: QueueVal) -> Result<(), NoMemory>
    requires { s < (columns core.old).seats }
    ensures { OnOk result
        (columns core.new ≡ record (columns core.old) {
          queue_held = put_at (columns core.old).queue_held s c
              (Some val);
        }) }
{
    let row = &mut core.seats[s as usize];
    held::hold_queue(&mut row.held, c, val)?;
    Ok(())
}

/// Drops a value from those that seat s has out.
pub fn release_queue(core: &mut Core, s: SeatNo, c: CpuNo)
    requires { s < (columns core.old).seats }
    ensures { columns core.new
        ≡ record (columns core.old) { queue_held = put_at (columns core.old).queue_held s c None } }
{
    let row = &mut core.seats[s as usize];
    held::release_queue(&mut row.held, c);
}

/// Adds a value to those that seat s has out. Answers `NoMemory` where memory runs out.
pub fn hold_works(core: &mut Core, s: SeatNo, c: CpuNo, val: WorksVal) -> Result<(), NoMemory>
    requires { s < (columns core.old).seats }
    ensures { OnOk result
        (columns core.new ≡ record (columns core.old) {
          works_held = put_at (columns core.old).works_held s c
              (Some val);
        }) }
{
    let row = &mut core.seats[s as usize];
    held::hold_works(&mut row.held, c, val)?;
    Ok(())
}

/// Drops a value from those that seat s has out.
pub fn release_works(core: &mut Core, s: SeatNo, c: CpuNo)
    requires { s < (columns core.old).seats }
    ensures { columns core.new
        ≡ record (columns core.old) { works_held = put_at (columns core.old).works_held s c None } }
{
    let row = &mut core.seats[s as usize];
    held::release_works(&mut row.held, c);
}

/// Adds a value to those that seat s has out. Answers `NoMemory` where memory runs out.
pub fn hold_wait(core: &mut Core, s: SeatNo, l: CondNo, val: WaitVal) -> Result<(), NoMemory>
    requires { s < (columns core.old).seats }
    ensures { OnOk result
        (columns core.new ≡ record (columns core.old) {
          wait_held = put_at (columns core.old).wait_held s l
              (Some val);
        }) }
{
    let row = &mut core.seats[s as usize];
    held::hold_wait(&mut row.held, l, val)?;
    Ok(())
}

/// Drops a value from those that seat s has out.
pub fn release_wait(core: &mut Core, s: SeatNo, l: CondNo)
    requires { s < (columns core.old).seats }
    ensures { columns core.new
        ≡ record (columns core.old) { wait_held = put_at (columns core.old).wait_held s l None } }
{
    let row = &mut core.seats[s as usize];
    held::release_wait(&mut row.held, l);
}

/// Sets what a task tested at a condition. Answers `NoMemory` where memory runs out.
pub fn set_test(core: &mut Core, s: SeatNo, test: Test) -> Result<(), NoMemory>
    requires { s < (columns core.old).seats }
    ensures { OnOk result (columns core.new ≡ record (columns core.old) {
      tested = put (columns core.old).tested s
          (λ t l. if (t == test.t) && (l == test.k) then Some test.v else (columns core.old).tested s t l);
    }) }
{
    let row = &mut core.seats[s as usize];
    pos::set_test(&mut row.pos, test)?;
    Ok(())
}

/// Forgets what task t tested, and that it was put to sleep.
pub fn forget_sleep(core: &mut Core, s: SeatNo, t: TaskNo)
    requires { s < (columns core.old).seats }
    ensures { columns core.new ≡ record (columns core.old) {
      tested = put (columns core.old).tested s
          (λ u l. if u == t then None else (columns core.old).tested s u l);
      is_asleep = put (columns core.old).is_asleep s
          (λ u l. if u == t then false else (columns core.old).is_asleep s u l);
    } }
{
    let row = &mut core.seats[s as usize];
    pos::forget_sleep(&mut row.pos, t);
}

/// At a give of the wait queue of a condition: the tasks whose entry was taken out no longer sleep there, and
/// `sleeper` does. Answers `NoMemory` where memory runs out.
pub fn give_asleep(
    core: &mut Core,
    s: SeatNo,
    l: CondNo,
    taken: &[WaitEntry],
    given: &[WaitEntry],
    sleeper: Option<TaskNo>,
) -> Result<(), NoMemory>
    requires { s < (columns core.old).seats }
    ensures { OnOk result
        (columns core.new ≡ record (columns core.old) {
          is_asleep = put (columns core.old).is_asleep s
              (given_asleep l taken.now given.now sleeper ((columns core.old).is_asleep s));
        }) }
{
    let row = &mut core.seats[s as usize];
    pos::give_asleep(&mut row.pos, l, taken, given, sleeper)?;
    Ok(())
}

/// Sets what seat s has read of a task. Answers `NoMemory` where memory runs out.
pub fn set_reads(core: &mut Core, s: SeatNo, reads: TaskReads) -> Result<(), NoMemory>
    requires { s < (columns core.old).seats }
    ensures { OnOk result
        (columns core.new
        ≡ record (columns core.old) { last_reads = put_at (columns core.old).last_reads s reads.t reads }) }
{
    let row = &mut core.seats[s as usize];
    pos::set_reads(&mut row.pos, reads)?;
    Ok(())
}

/// Makes a step the latest of seat s. Answers `NoMemory` where memory runs out.
pub fn note(core: &mut Core, s: SeatNo, act: Act) -> Result<(), NoMemory>
    requires { s < (columns core.old).seats }
    ensures { OnOk result (columns core.new ≡ noted (columns core.old) s act) }
{
    let row = &mut core.seats[s as usize];
    pos::note(&mut row.pos, act)?;
    Ok(())
}
