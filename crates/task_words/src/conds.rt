//! Conditions.
ghost use Rattle.std.specs.Prelude.{◌≡◌, ◌<◌, ◌∷◌};
ghost use Rattle.task_words.specs.Views.{IsOf, IsSame};
ghost use Rattle.word_steps.specs.Records.{LoadedCond, Bumped};

use crate::pass::Pass;
use crate::wk::Wk;
use handoff_data::CondNo;
use word_kinds::{BumpCond, LoadCond};
use word_table::{Kept, fetch_add, load};

/// The counter of a condition.
pub fn load_cond<B: Kept>(wk: &Wk<B>, pass: &mut Pass, k: CondNo) -> u64
    requires of { IsOf wk.now pass.old }
    requires condition { k < wk.now.shape.conds }
    ensures same { IsSame pass.old pass.new }
    ensures trace { pass.new.trace ≡ LoadedCond k result ∷ pass.old.trace }
{
    // Who tests before it sleeps has its entry in and its sleep state stored by now (the test before the store).
    load::<B, LoadCond>(&wk.words, &mut pass.token, k)
}

/// Raises the counter of a condition by one, modulo 2^64, and answers what it was. From then on the seat owes a walk to
/// those who wait for the condition.
pub fn bump_cond<B: Kept>(wk: &Wk<B>, pass: &mut Pass, k: CondNo) -> u64
    requires of { IsOf wk.now pass.old }
    requires condition { k < wk.now.shape.conds }
    ensures same { IsSame pass.old pass.new }
    ensures trace { pass.new.trace ≡ Bumped k result ∷ pass.old.trace }
{
    // The walk comes after it, never before (the walk before the raise).
    fetch_add::<B, BumpCond>(&wk.words, &mut pass.token, k)
}
