//! What switches and sleeps mean for tasks.
ghost use Rattle.std.specs.Prelude.{◌≡◌, ℕ, ◌⊎◌, Some};
ghost use Rattle.sched_switch.specs.Laws.{IsAtFront, HasFoundNone, HasLeftFirst, HasTestedFirst, HasFoundChanged};
ghost use Rattle.sched_switch.specs.Laws.{IsAsleepAt, IsNotMissed, IsNotMissedAtEnd};
ghost use Rattle.sched_switch.specs.Sleeps.{DidSleep};
ghost use Rattle.sched_switch.specs.Switches.{DidSwitch, IsKept};
ghost use Rattle.sched_switch.specs.declared.answer.Next.{Next};
ghost use Rattle.sched_switch.specs.declared.answer.Next.TheVariants as asked;
ghost use Rattle.sched_switch.specs.declared.answer.Slept.TheVariants as slept;
ghost use Rattle.sched_switch.specs.declared.answer.Switch.{Switch};
ghost use Rattle.sched_switch.specs.declared.answer.Switch.TheVariants as switch;
ghost use Rattle.task_words.specs.Views.{PassView};
ghost use Rattle.word_steps.specs.Folds.{current_task};

use wait_queue::law_prepared;

/// What is picked is the front of the queue as it stood under its lock, once the current task was put back; a switch
/// that finds none found nothing there. A law: the call does nothing.
pub fn law_picked()
    ensures front { (t : ℕ) (old new : PassView) → DidSwitch asked.Task old new (switch.Running t)
        → IsAtFront t old new }
    ensures none { (old new : PassView) → DidSwitch asked.Task old new switch.Idle → HasFoundNone old new }
{}

/// Whatever a switch answers, its current task stays, as one that goes on alone where a task is asked for, or it left
/// its processor first, by the state that was read under its queue's lock: TASK_RUNNING or TASK_NEW puts it back, a
/// sleep state puts it to sleep, and by TASK_DEAD it dies. A law: the call does nothing.
pub fn law_left()
    ensures left { (t : ℕ) (next : Next) (answer : Switch) (old new : PassView) → DidSwitch next old new answer
        → current_task old.seat old.trace ≡ Some t
        → ((next ≡ asked.Task) × IsKept t old new) ⊎ HasLeftFirst next t old new }
{}

/// A task that sleeps at a condition with a value stored its sleep state first, then read the condition as that value,
/// and then left its queue; so from then on either the condition has that value, or a walk is owed to the task, or it
/// was woken. A law: the call does nothing.
pub fn law_slept()
    ensures order { (k v m : ℕ) (old new : PassView) → DidSleep k v old new (slept.Slept m)
        → HasTestedFirst k v m old new }
    ensures asleep { (k v m : ℕ) (old new : PassView) → (did : DidSleep k v old new (slept.Slept m))
        → IsAsleepAt k v did.t new }
    ensures held { (k v m : ℕ) (old new : PassView) → (did : DidSleep k v old new (slept.Slept m))
        → IsNotMissed k v did.t new }
    ensures closed { (k v m : ℕ) (old new : PassView) → (did : DidSleep k v old new (slept.Slept m))
        → IsNotMissedAtEnd k v did.t new }
{}

/// A sleeper that finds its condition with another value goes on as TASK_RUNNING, has no entry there, and its journal
/// gets none. A law: the call does nothing.
pub fn law_changed()
    ensures changed { (k v now : ℕ) (old new : PassView) → DidSleep k v old new (slept.Changed now)
        → HasFoundChanged k v now old new }
{
    law_prepared();
}
