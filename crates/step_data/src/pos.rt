//! What a seat has read and stored that a later step may rest on: how it is read and changed.

ghost use Rattle.std.specs.Prelude.{◌≡◌, ◌==◌, ◌++◌, ◌∷◌, [], OnOk, if◌then◌else◌, ◌&&◌, true};
ghost use Rattle.core_data.specs.Found.{found, no_reads};
ghost use Rattle.std.specs.List.{filter};
ghost use Rattle.core_data.specs.Acts.{since, with_act};
ghost use Rattle.core_data.specs.Position.{Position, is_other_test, is_test_of_other, is_sleep_of_other};
ghost use Rattle.core_data.specs.Position.{is_reads_of_other, stays_asleep, newly_asleep};
ghost use Rattle.core_data.specs.declared.pos.Test.{Test};
ghost use Rattle.core_data.specs.declared.pos.TaskReads.{TaskReads};
ghost use mathlib.Core.Bool.{not};
ghost use Rattle.core_data.specs.Entries.{has_entry, is_gone, same_entry};

use crate::act::{is_since as is_act_since, note_act};
use core_data::{Act, Asleep, Pos, TaskReads, Test, WaitEntry};
use handoff_data::{CondNo, NoMemory, State, TaskNo};

/// Makes a step the latest. Answers `NoMemory` where memory runs out.
pub fn note(pos: &mut Pos, act: Act) -> Result<(), NoMemory>
    ensures { OnOk result (pos.new ≡ record pos.old { recent = with_act pos.old.recent act }) }
{
    note_act(&mut pos.recent, act)
}

/// Whether the step `fact` was made, and `end` not since.
pub fn is_since(pos: &Pos, fact: Act, end: Act) -> bool
    ensures { result ≡ since fact end pos.now.recent }
{
    is_act_since(&pos.recent, fact, end)
}

/// The task whose busy word is still to be cleared.
pub fn to_clear(pos: &Pos) -> Option<TaskNo>
    ensures { result ≡ pos.now.to_clear }
{
    pos.to_clear
}

/// What was read of the current task's state.
pub fn seen(pos: &Pos) -> Option<State>
    ensures { result ≡ pos.now.seen }
{
    pos.seen
}

/// What was read of the current task's migrate-disable level.
pub fn level_known(pos: &Pos) -> Option<u32>
    ensures { result ≡ pos.now.level_known }
{
    pos.level_known
}

/// The last reads of the task.
pub fn reads(pos: &Pos, t: TaskNo) -> TaskReads
    ensures { result ≡ found (λ (x : TaskReads). t == x.t) (λ x. x) (no_reads t) pos.now.reads }
{
    find_reads(&pos.reads, t)
}

/// Sets the task whose busy word is still to be cleared.
pub fn set_to_clear(pos: &mut Pos, t: Option<TaskNo>)
    ensures { pos.new ≡ record pos.old { to_clear = t } }
{
    pos.to_clear = t;
}

/// Sets what was read of the current task's state.
pub fn set_seen(pos: &mut Pos, state: Option<State>)
    ensures { pos.new ≡ record pos.old { seen = state } }
{
    pos.seen = state;
}

/// Sets what was read of the current task's migrate-disable level.
pub fn set_level_known(pos: &mut Pos, level: Option<u32>)
    ensures { pos.new ≡ record pos.old { level_known = level } }
{
    pos.level_known = level;
}

/// Sets what the task tested at the condition. Answers `NoMemory` where memory runs out.
pub fn set_test(pos: &mut Pos, test: Test) -> Result<(), NoMemory>
    ensures { OnOk result (pos.new ≡ record pos.old {
      tests = filter (is_other_test test) pos.old.tests ++ test
          ∷ [];
    }) }
{
    without_test(&mut pos.tests, test);
    pos.tests.push(test)?;
    Ok(())
}

/// Forgets the task's tests, and that it was put to sleep.
pub fn forget_sleep(pos: &mut Pos, t: TaskNo)
    ensures { pos.new ≡ record pos.old {
      tests = filter (is_test_of_other t) pos.old.tests;
      asleep = filter (is_sleep_of_other t) pos.old.asleep;
    } }
{
    without_tests(&mut pos.tests, t);
    without_sleeps(&mut pos.asleep, t);
}

/// At a give of condition `k`: tasks whose entry was taken out are no longer asleep there, and `sleeper` is. Answers
/// `NoMemory` where memory runs out.
pub fn give_asleep(
    pos: &mut Pos,
    k: CondNo,
    taken: &[WaitEntry],
    given: &[WaitEntry],
    sleeper: Option<TaskNo>,
) -> Result<(), NoMemory>
    ensures { OnOk result
        (pos.new ≡ record pos.old {
          asleep = filter (stays_asleep k taken.now given.now) pos.old.asleep
              ++ newly_asleep k sleeper;
        }) }
{
    without_gone(&mut pos.asleep, k, taken, given);
    match sleeper {
        Some(t) => {
            pos.asleep.push(Asleep { t, k })?;
            Ok(())
        }
        None => Ok(()),
    }
}

/// Sets what was read of the task. Answers `NoMemory` where memory runs out.
pub fn set_reads(pos: &mut Pos, reads: TaskReads) -> Result<(), NoMemory>
    ensures { OnOk result (pos.new ≡ record pos.old {
      reads = filter (is_reads_of_other reads.t) pos.old.reads ++ reads
          ∷ [];
    }) }
{
    without_reads(&mut pos.reads, reads.t);
    pos.reads.push(reads)?;
    Ok(())
}

fn newer_reads(x: &TaskReads, t: TaskNo, known: TaskReads) -> TaskReads
    ensures { result ≡ (if t == x.now.t then x.now else known) }
{
    if t == x.t { *x } else { known }
}

fn find_reads(reads: &[TaskReads], t: TaskNo) -> TaskReads
    ensures { result ≡ found (λ (x : TaskReads). t == x.t) (λ x. x) (no_reads t) reads.now }
{
    let mut known = TaskReads {
        t,
        state: None,
        rq: None,
        busy: None,
        number: None,
        cpu: None,
    };
    for x in reads {
        known = newer_reads(x, t, known);
    }
    known
}

fn without_test(tests: &mut Vec<Test>, test: Test)
    ensures { tests.new.items ≡ filter (is_other_test test) tests.old.items }
{
    tests.retain(|x| x.t != test.t || x.k != test.k);
}

fn without_tests(tests: &mut Vec<Test>, t: TaskNo)
    ensures { tests.new.items ≡ filter (is_test_of_other t) tests.old.items }
{
    tests.retain(|x| x.t != t);
}

fn without_sleeps(asleep: &mut Vec<Asleep>, t: TaskNo)
    ensures { asleep.new.items ≡ filter (is_sleep_of_other t) asleep.old.items }
{
    asleep.retain(|x| x.t != t);
}

fn without_reads(reads: &mut Vec<TaskReads>, t: TaskNo)
    ensures { reads.new.items ≡ filter (is_reads_of_other t) reads.old.items }
{
    reads.retain(|x| x.t != t);
}

fn is_same_entry(a: &WaitEntry, b: &WaitEntry) -> bool
    ensures { result ≡ same_entry a.now b.now }
{
    a.t == b.t && a.exclusive == b.exclusive
}

/// What is known after one test more.
fn or_known(test: bool, known: bool) -> bool
    ensures { result ≡ (if test then true else known) }
{
    test || known
}

/// Whether the entry is among these.
pub fn has_entry(entries: &[WaitEntry], entry: &WaitEntry) -> bool
    ensures { result ≡ has_entry entries.now entry.now }
{
    let mut found = false;
    for x in entries {
        found = or_known(is_same_entry(x, entry), found);
    }
    found
}

fn is_gone_entry(x: &WaitEntry, given: &[WaitEntry], t: TaskNo) -> bool
    ensures { result ≡ ((x.now.t == t) && not (has_entry given.now x.now)) }
{
    x.t == t && !has_entry(given, x)
}

/// Whether an entry of the task was taken out.
pub fn is_gone(taken: &[WaitEntry], given: &[WaitEntry], t: TaskNo) -> bool
    ensures { result ≡ is_gone taken.now given.now t }
{
    let mut gone = false;
    for x in taken {
        gone = or_known(is_gone_entry(x, given, t), gone);
    }
    gone
}

fn without_gone(asleep: &mut Vec<Asleep>, k: CondNo, taken: &[WaitEntry], given: &[WaitEntry])
    ensures { asleep.new.items ≡ filter (stays_asleep k taken.now given.now) asleep.old.items }
{
    asleep.retain(|x| x.k != k || !is_gone(taken, given, x.t));
}
