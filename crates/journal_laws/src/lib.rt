//! What legal journals tell, as laws on the definitions of the rules: the rules are there for these sentences.
//! Each function is a law: its contract is the sentence over all journals, and there is nothing to run.
//!
//! `specs/` has what they say; `proofs/` one file a law (`ChangeLaws`, `RunLaws`, `WakeLaws`, `ListLaws`, `OutageLaws`,
//! `RequestLaws`) over `Once` and `Numbering`.
#![tactic(auto)]

ghost use Rattle.std.specs.Prelude.{ℕ, ◌<◌};
ghost use Rattle.handoff_data.specs.History.{History};
ghost use Rattle.handoff_data.specs.Legal.{HasNoBad, IsLegal};
ghost use Rattle.journal_laws.specs.Laws.{ChangesWalk, RunsAlternateWholly, WakesQueueOnce};
ghost use Rattle.journal_laws.specs.Listings.{QueuesAllInOrder, QueuesInOrder};
ghost use Rattle.journal_laws.specs.Outages.{OutagesAreEmpty};
ghost use Rattle.journal_laws.specs.Requests.{RequestsAreMet};

/// In legal journals the changes of each task are numbered from 1, each number once, and in the order of their numbers
/// they are a walk from New to Dead by the table of moves, as far as it says where the task is queued.
pub fn changes_walk()
    ensures { (j : History) → IsLegal j → (t : ℕ) → t < j.tasks → ChangesWalk j t }
{}

/// In legal journals the picks and finishes of each task alternate by their numbers, and each finish stands in the
/// journal of its pick, behind it.
pub fn runs_alternate()
    ensures { (j : History) → IsLegal j → (t : ℕ) → t < j.tasks → RunsAlternateWholly j t }
{}

/// In legal journals each wake that claims a task has exactly one queueing, and each queueing exactly one wake.
pub fn wakes_queue_once()
    ensures { (j : History) → IsLegal j → WakesQueueOnce j }
{}

/// In journals with no bad entry each queueing from a list is that of one listing to the processor, and of what one
/// waker listed to it the earlier is queued first, also where tasks haven't ended. In legal journals each listing is
/// queued so.
pub fn listings_queue_in_order()
    ensures no_bad { (j : History) → HasNoBad j → QueuesInOrder j }
    ensures legal { (j : History) → IsLegal j → QueuesAllInOrder j }
{}

/// In journals with no bad entry, a processor that goes offline has queued all that was listed to it up to that epoch;
/// and up to its return it picks nothing and queues nothing to itself.
pub fn outages_are_empty()
    ensures { (j : History) → HasNoBad j → OutagesAreEmpty j }
{}

/// In journals with no bad entry an affinity request that is done was met: its mask was set before, and the task stood
/// where that mask, or a later one, allows.
pub fn requests_are_met()
    ensures { (j : History) → HasNoBad j → RequestsAreMet j }
{}
