//! What steps may change and what they keep, as laws: each function's contract is the sentence over all cores and all
//! steps, and there is nothing to run.

ghost use Rattle.core_data.specs.Columns.{Columns};
ghost use Rattle.core_invariant.specs.Invariant.{Holds};
ghost use Rattle.core_law.specs.StepLaws.{KeepsTests, KeepsTheDead, StoresItsStates, EndsReads, SleepsAreKept};
ghost use Rattle.core_law.specs.StepLaws.{PassesAreKept, RefusalsAreTold, LoadsTell, GivesKeep, StepsAsk, WordsMean};
ghost use Rattle.core_law.specs.Steps.{Step};
ghost use Rattle.core_law.specs.declared.event.Event.{Event};

/// No step of another seat changes the state of a dead task: no wake-up is stored over a death.
pub fn no_step_wakes_the_dead()
    ensures { (core : Columns) (event : Event) (next : Columns) → Holds core → Step core event next
        → KeepsTheDead event.seat core next }
{}

/// A seat stores the state of its current task, of one whose lock it has, and of one that it queued under the lock of
/// its queue while it still has that lock; of no other.
pub fn each_seat_stores_its_states()
    ensures { (core : Columns) (event : Event) (next : Columns) → Step core event next
        → StoresItsStates event.seat core next }
{}

/// A seat that changes a word of a task has no read of its state, queue word and busy word any more.
pub fn each_store_ends_reads()
    ensures { (core : Columns) (event : Event) (next : Columns) → Step core event next
        → EndsReads event.seat core next }
{}

/// What a seat has as tests changes only by its own steps, and only as to its current task: a sleeper's test stays.
pub fn each_test_stays()
    ensures { (core : Columns) (event : Event) (next : Columns) → Step core event next
        → KeepsTests event.seat core next }
{}

/// What a sleeper stored and tested, and where it was put to sleep, is kept for the laws on wakes.
pub fn sleeps_are_kept()
    ensures { (core : Columns) → SleepsAreKept core }
{}

/// A seat passes a task by reading it awake or new and by storing TASK_RUNNING, and not by reading it asleep.
pub fn passes_are_kept()
    ensures { (core : Columns) → PassesAreKept core }
{}

/// A load with a mask notes the state as refused where it has no bit of the mask, and no other load does.
pub fn refusals_are_told()
    ensures { (core : Columns) → RefusalsAreTold core }
{}

/// What a seat notes of a word is what it read there or stored.
pub fn loads_tell()
    ensures { (core : Columns) → LoadsTell core }
{}

/// A give of a task's lock leaves its mask, the number of its mask and its record, and tells of no stand and no done
/// record; a give of works leaves them.
pub fn gives_keep()
    ensures { (core : Columns) → GivesKeep core }
{}

/// What a step asks that no word shows later: a task dies, and is given up without its lock, only at disable count 0; a
/// pick is of the queue's next task, and a move of one that waits.
pub fn steps_ask()
    ensures { (core : Columns) → StepsAsk core }
{}

/// The sleep states are TASK_INTERRUPTIBLE and TASK_UNINTERRUPTIBLE, and numbers may rise as long as they are below
/// 2^60.
pub fn words_mean()
    ensures { WordsMean }
{}
