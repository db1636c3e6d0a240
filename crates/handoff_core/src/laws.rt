//! What holds of every core that a machine can come to, as laws: each function's contract is the sentence over all
//! cores and all lists of events, and there is nothing to run.

ghost use Rattle.core_data.specs.Columns.{Columns};
ghost use Rattle.core_invariant.specs.Invariant.{Holds};
ghost use Rattle.core_journals.specs.Places.{OneMoveOrNone};
ghost use Rattle.core_law.specs.Laws.{OneRunAtATime, StandsOnce, WakesQueueAtMostOnce, NoLostWake, HasSleeperToWake};
ghost use Rattle.core_law.specs.Laws.{SleepersWait, SleepsOnItsProcessor, journals_of};
ghost use Rattle.core_law.specs.Reached.{IsReached, IsOpening};
ghost use Rattle.core_law.specs.Steps.{Step};
ghost use Rattle.core_law.specs.declared.event.Event.{Event};
ghost use Rattle.handoff_data.specs.Shape.{IsShape};
ghost use Rattle.handoff_data.specs.declared.shape.Shape.{Shape};

/// An opening core of every shape meets the invariant, whichever bodies have ended.
pub fn opening_core_holds()
    ensures { (shape : Shape) (core : Columns) → IsShape shape → IsOpening shape core → Holds core }
{}

/// Each possible event leads from a core that meets the invariant to one that does, and is one move of one task by
/// the table of moves, with its entry in the seat's journal, or moves no task.
pub fn each_step_keeps_the_invariant()
    ensures { (core : Columns) (event : Event) (next : Columns) → Holds core → Step core event next
        → Holds next × OneMoveOrNone event.seat core next }
{}

/// No task is current at two seats; and over all journals the picks and finishes of a task alternate by their
/// numbers, each finish in the journal of its pick.
pub fn one_run_at_a_time()
    ensures { (core : Columns) → IsReached core → OneRunAtATime core }
{}

/// A task that is queued on a processor stands once in the queue of that processor, and in no other.
pub fn stands_once()
    ensures { (core : Columns) → IsReached core → StandsOnce core }
{}

/// For each wake there is at most one queueing with the next number, and each queueing has its wake, with the number
/// before, ahead of it in the same journal.
pub fn wakes_queue_at_most_once()
    ensures { (core : Columns) → IsReached core → WakesQueueAtMostOnce (journals_of core) }
{}

/// A sleeper whose test differs from its condition has a seat that owes it a wake: a task with an entry that isn't
/// exclusive, and that isn't running, on its way to a queue or dead by its state, whose test isn't the condition's
/// value, has a seat of the machine that raised the condition and since then hasn't taken the wait queue's lock, or
/// hasn't passed the task since it last did. It holds too of a task that hasn't left its queue yet.
pub fn no_lost_wake()
    ensures { (core : Columns) → IsReached core → NoLostWake core }
{}

/// The law on lost wakes speaks of something: a machine can come to a core with a sleeper off its queue whose test
/// isn't the condition's value.
pub fn a_sleeper_can_be_owed()
    ensures { (core : Columns) × IsReached core × HasSleeperToWake core }
{}

/// A task that was put to sleep in a wait queue, and is in a sleep state, has its entry there.
pub fn sleepers_wait()
    ensures { (core : Columns) → IsReached core → SleepersWait core }
{}

/// A task that is off its queue in a sleep state went to sleep by its last change, which stands in the journal of its
/// processor's seat: that is the seat whose test counts.
pub fn sleeps_on_its_processor()
    ensures { (core : Columns) → IsReached core → SleepsOnItsProcessor core }
{}
