use crate::lists::{Sources, Tasks};
use crate::plan::Plan;
use handoff_data::{Line, NoMemory, Shape};
use std::alloc::{AllocError, AllocFailed};

/// A task of a script.
#[derive(Drop)]
pub struct TaskDef {
    /// A letter `a` to `z` and at most 15 letters or digits.
    pub name: Line,
    /// The task's plan as it begins.
    pub plan: Plan,
    /// The number of the work that a caller brings for the task, if it is one of `custom`; its plan here passes each
    /// line on, and the work stands in its place where the script is run.
    pub custom: Option<u32>,
    /// The earlier tasks that it reads, by side.
    pub from: Sources,
}

impl TaskDef {
    ghost use Rattle.std.specs.Prelude.{◌≡◌, ◌↔◌, IsTrue};

    /// Whether both tasks have the same name, plan and number of a work, and read the same tasks.
    pub fn equals(&self, other: &TaskDef) -> bool
        ensures { IsTrue result ↔ (self.now ≡ other.now) }
    {
        self.name.equals(&other.name)
            && self.plan.equals(&other.plan)
            && self.custom == other.custom
            && self.from.equals(&other.from)
    }
}

/// A script: a machine, and the tasks that run on it.
#[derive(Drop)]
pub struct Script {
    /// Its processors, tasks and conditions. Each task has two conditions: what it has put out, and what was taken
    /// from it.
    pub shape: Shape,
    /// How many items a ring between two tasks has room for.
    pub room: u32,
    /// The tasks, in the order of the script.
    pub tasks: Tasks,
}

impl Script {
    ghost use Rattle.std.specs.Prelude.{◌≡◌, ◌↔◌, IsTrue};

    /// Whether both scripts have the same machine, room and tasks.
    pub fn equals(&self, other: &Script) -> bool
        ensures { IsTrue result ↔ (self.now ≡ other.now) }
    {
        self.shape == other.shape && self.room == other.room && self.tasks.equals(&other.tasks)
    }
}

/// Where bytes fail to be a script.
#[derive(Clone, Copy, Debug, PartialEq, Eq)]
pub struct ScriptFault {
    /// The number of the faulty line, from 1.
    pub line: u64,
    /// The code of the fault.
    pub code: u32,
}

/// Why no script was read.
#[derive(Clone, Copy, Debug, PartialEq, Eq)]
pub enum ScriptError {
    /// The bytes aren't a script.
    Bad(ScriptFault),
    /// Memory was refused.
    NoMemory,
}

impl From<AllocError> for ScriptError {
    ghost use Rattle.std.specs.Prelude.{◌≡◌};
    ghost use Rattle.task_script.specs.declared.script.ScriptError.TheVariants as errors;

    ghost from_gives = { λ _ e. e ≡ errors.NoMemory };

    fn from(_refused: AllocError) -> ScriptError {
        ScriptError::NoMemory
    }
}

impl<T: Drop> From<AllocFailed<T>> for ScriptError {
    ghost use Rattle.std.specs.Prelude.{◌≡◌};
    ghost use Rattle.task_script.specs.declared.script.ScriptError.TheVariants as errors;

    ghost from_gives = { λ _ e. e ≡ errors.NoMemory };

    fn from(_refused: AllocFailed<T>) -> ScriptError {
        ScriptError::NoMemory
    }
}

impl From<NoMemory> for ScriptError {
    ghost use Rattle.std.specs.Prelude.{◌≡◌};
    ghost use Rattle.task_script.specs.declared.script.ScriptError.TheVariants as errors;

    ghost from_gives = { λ _ e. e ≡ errors.NoMemory };

    fn from(_refused: NoMemory) -> ScriptError {
        ScriptError::NoMemory
    }
}
