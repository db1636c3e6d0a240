use crate::equal::same_tasks;
use crate::script::TaskDef;
use handoff_data::TaskNo;
use std::marker::Model;

/// The tasks that a task reads, by side. Contracts see it as the list of their numbers.
#[derive(Drop)]
pub struct Sources {
    list: Vec<TaskNo>,
}

impl Model for Sources {
    ghost use Rattle.std.specs.Prelude.{ℕ, List};

    ghost Value = { List ℕ };

    ghost view = { λ s. s.list.items };
}

impl Sources {
    ghost use Rattle.std.specs.Prelude.{◌≡◌, ◌↔◌, IsTrue};

    /// The sources of a `Vec`, for which no memory is taken.
    pub fn from_vec(list: Vec<TaskNo>) -> Sources
        ensures { result ≡ list.items }
    {
        Sources { list }
    }

    /// The numbers of the tasks.
    pub fn as_slice(&self) -> &[TaskNo]
        ensures { result.now ≡ self.now }
    {
        self.list.as_slice()
    }

    /// Whether both are the same tasks by side.
    pub fn equals(&self, other: &Sources) -> bool
        ensures { IsTrue result ↔ (self.now ≡ other.now) }
    {
        self.list.as_slice() == other.list.as_slice()
    }
}

/// The tasks of a script, in its order. Contracts see it as their list.
#[derive(Drop)]
pub struct Tasks {
    list: Vec<TaskDef>,
}

impl Model for Tasks {
    ghost use Rattle.std.specs.Prelude.{List};
    ghost use Rattle.task_script.specs.declared.script.TaskDef.{TaskDef};

    ghost Value = { List TaskDef };

    ghost view = { λ t. t.list.items };
}

impl Tasks {
    ghost use Rattle.std.specs.Prelude.{◌≡◌, ◌↔◌, IsTrue};

    /// The tasks of a `Vec`, for which no memory is taken.
    pub fn from_vec(list: Vec<TaskDef>) -> Tasks
        ensures { result ≡ list.items }
    {
        Tasks { list }
    }

    /// The tasks.
    pub fn as_slice(&self) -> &[TaskDef]
        ensures { result.now ≡ self.now }
    {
        self.list.as_slice()
    }

    /// Whether both are the same tasks in the same order.
    pub fn equals(&self, other: &Tasks) -> bool
        ensures { IsTrue result ↔ (self.now ≡ other.now) }
    {
        same_tasks(self.list.as_slice(), other.list.as_slice())
    }

    /// The tasks as a `Vec`, for which no memory is taken.
    pub fn into_vec(self) -> Vec<TaskDef>
        ensures { result.items ≡ self }
    {
        let Tasks { list } = self;
        list
    }
}
