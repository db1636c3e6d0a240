//! The conditions of a task, loaded before its body's turn.
ghost use Rattle.std.specs.Prelude.{◌≡◌, ◌<◌, ◌≤◌, ◌*◌, ◌+◌, ℕ, IfSome};
ghost use Rattle.run_cells.specs.NetMaps.{AreWithin};
ghost use Rattle.run_turns.specs.Conds.{load_of, loads_of, read_cond, wrote_cond};
ghost use Rattle.run_turns.specs.Standing.{IsAtRest};
ghost use Rattle.task_words.specs.Views.{IsOf, IsSame};
ghost use Rattle.word_steps.specs.Folds.{current_task};

use handoff_data::{CondNo, TaskNo};
use pipe_bodies::Then;
use run_cells::{Inputs, put_out, taken_from};
use task_words::{Kept, Pass, Wk, load_cond};

/// The values of a task's conditions: of the items that the tasks put out which it reads, 0 for a side that it lacks,
/// and of those taken from it.
#[derive(Clone, Copy, Debug, PartialEq, Eq)]
pub struct Values {
    pub left: u64,
    pub right: u64,
    pub out: u64,
}

/// Where a task may have to wait: the tasks that it reads, its own number, and the values of its conditions.
#[derive(Clone, Copy, Debug, PartialEq, Eq)]
pub struct Waits {
    pub t: TaskNo,
    pub inputs: Inputs,
    pub values: Values,
}

impl Waits {
    ghost use Rattle.std.specs.Prelude.{◌≡◌, ◌<◌, ◌*◌, ℕ, IfSome};
    ghost use Rattle.run_cells.specs.NetMaps.{AreWithin};
    ghost use Rattle.run_turns.specs.Conds.{wait_cond, wait_value};

    /// The condition at which the task is to wait by its body's verdict, if it is to wait: what a task puts out that it
    /// reads, or what is taken from it.
    pub fn cond(&self, then: Then) -> Option<CondNo>
        requires number { self.now.t < 200 }
        requires inputs { AreWithin 200 self.now.inputs }
        ensures cond { result ≡ wait_cond self.now.inputs self.now.t then }
        ensures within { (n : ℕ) → self.now.t < n → AreWithin n self.now.inputs → IfSome result (λ k. k < 2 * n) }
    {
        match then {
            Then::More => None,
            Then::WaitIn(side) => match self.inputs.of(side) {
                Some(x) => Some(put_out(x)),
                None => None,
            },
            Then::WaitOut => Some(taken_from(self.t)),
            Then::Exit => None,
        }
    }

    /// The value of that condition before the turn.
    pub fn value(&self, then: Then) -> u64
        ensures { result ≡ wait_value self.now.values then }
    {
        match then {
            Then::More => 0,
            Then::WaitIn(0) => self.values.left,
            Then::WaitIn(_) => self.values.right,
            Then::WaitOut => self.values.out,
            Then::Exit => 0,
        }
    }
}

// The condition that is raised for an item taken from a side.
pub fn read_cond(inputs: Inputs, read: Option<u32>) -> Option<CondNo>
    requires inputs { AreWithin 200 inputs }
    ensures cond { result ≡ read_cond inputs read }
    ensures within { (n : ℕ) → AreWithin n inputs → IfSome result (λ k. k < 2 * n) }
{
    match read {
        Some(side) => match inputs.of(side) {
            Some(x) => Some(taken_from(x)),
            None => None,
        },
        None => None,
    }
}

// .. and for one put out.
pub fn wrote_cond(t: TaskNo, wrote: bool) -> Option<CondNo>
    requires number { t < 200 }
    ensures cond { result ≡ wrote_cond t wrote }
    ensures within { (n : ℕ) → t < n → IfSome result (λ k. k < 2 * n) }
{
    if wrote { Some(put_out(t)) } else { None }
}

// Loads what the task of a side has put out, if there is such a side.
fn load_side<B: Kept>(wk: &Wk<B>, pass: &mut Pass, side: Option<TaskNo>) -> u64
    requires of { IsOf wk.now pass.old }
    requires task { IfSome side (λ x. x < wk.now.shape.tasks) }
    requires conds { wk.now.shape.conds ≡ 2 * wk.now.shape.tasks }
    requires few { wk.now.shape.tasks ≤ 200 }
    requires rest { IsAtRest pass.old }
    ensures same { IsSame pass.old pass.new }
    ensures rest { IsAtRest pass.new }
    ensures current { current_task pass.new.seat pass.new.trace ≡ current_task pass.old.seat pass.old.trace }
    ensures trace { pass.new.trace ≡ load_of side result pass.old.trace }
{
    match side {
        Some(x) => load_cond(wk, pass, put_out(x)),
        None => 0,
    }
}

/// Loads the conditions of a task. It is done before the body looks at its rings: an item that comes after the load
/// raises the condition, so that a sleep with the value loaded finds another one.
pub fn load_values<B: Kept>(wk: &Wk<B>, pass: &mut Pass, t: TaskNo, inputs: Inputs) -> Values
    requires of { IsOf wk.now pass.old }
    requires task { t < wk.now.shape.tasks }
    requires inputs { AreWithin wk.now.shape.tasks inputs }
    requires conds { wk.now.shape.conds ≡ 2 * wk.now.shape.tasks }
    requires few { wk.now.shape.tasks ≤ 200 }
    requires rest { IsAtRest pass.old }
    ensures same { IsSame pass.old pass.new }
    ensures rest { IsAtRest pass.new }
    ensures current { current_task pass.new.seat pass.new.trace ≡ current_task pass.old.seat pass.old.trace }
    ensures trace { pass.new.trace ≡ loads_of t inputs result pass.old.trace }
{
    let left = load_side(wk, pass, inputs.left);
    let right = load_side(wk, pass, inputs.right);
    let out = load_cond(wk, pass, taken_from(t));
    Values { left, right, out }
}
