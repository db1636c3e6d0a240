//! The conditions of a run.
ghost use Rattle.std.specs.Prelude.{◌≡◌, ◌<◌, ◌*◌, ◌+◌, ℕ, List, map, IfOk, length, slice_index_or};
ghost use Rattle.pipe_bodies.specs.Nets.{first_of, others};
ghost use Rattle.run_cells.specs.NetMaps.{inputs_of, side_of, IsNetMap};
ghost use Rattle.task_script.specs.Script.{IsScript};

use handoff_data::{CondNo, NoMemory, TaskNo};
use std::alloc::Global;
use std::marker::Model;
use task_script::{Script, TaskDef, law_script};

/// The tasks that a task reads, by side.
#[derive(Clone, Copy, Debug, PartialEq, Eq)]
pub struct Inputs {
    pub left: Option<TaskNo>,
    pub right: Option<TaskNo>,
}

impl Inputs {
    /// The task that is read from a side, if there is one.
    pub fn of(&self, side: u32) -> Option<TaskNo>
        ensures { result ≡ side_of self.now side }
    {
        if side == 0 { self.left } else { self.right }
    }
}

/// The condition that counts the items which a task put out.
pub fn put_out(t: TaskNo) -> CondNo
    requires { t < 200 }
    ensures { result ≡ 2 * t }
{
    2 * t
}

/// The condition that counts the items which were taken from a task.
pub fn taken_from(t: TaskNo) -> CondNo
    requires { t < 200 }
    ensures { result ≡ 2 * t + 1 }
{
    2 * t + 1
}

/// The tasks that each task of a script reads, which tell its conditions. Contracts see the inputs of each task.
#[derive(Debug, Drop)]
pub struct NetMap {
    inputs: Vec<Inputs>,
}

impl Model for NetMap {
    ghost use Rattle.std.specs.Prelude.{List};
    ghost use Rattle.run_cells.specs.declared.net_map.Inputs.{Inputs};

    ghost Value = { List Inputs };

    ghost view = { λ n. n.inputs.items };
}

fn first(from: &[TaskNo]) -> Option<TaskNo>
    ensures { result ≡ first_of from.now }
{
    match from {
        [x, ..] => Some(*x),
        [] => None,
    }
}

fn second(from: &[TaskNo]) -> Option<TaskNo>
    ensures { result ≡ first_of (others from.now) }
{
    match from {
        [_, rest @ ..] => first(rest),
        [] => None,
    }
}

fn inputs_of(task: &TaskDef) -> Inputs
    ensures { result ≡ inputs_of task.now }
{
    let from = task.from.as_slice();
    Inputs {
        left: first(from),
        right: second(from),
    }
}

fn inputs_of_all(alloc: Global, tasks: &[TaskDef]) -> Result<Vec<Inputs>, NoMemory>
    ensures inputs { IfOk result (λ r. r.items ≡ map inputs_of tasks.now) }
{
    let mut inputs = Vec::with_capacity(alloc, tasks.len())?;
    for task in tasks {
        inputs.push(inputs_of(task))?;
    }
    Ok(inputs)
}

impl NetMap {
    /// The map of a script, whose tasks read earlier tasks and which has two conditions a task; or NoMemory.
    pub fn of(alloc: Global, script: &Script) -> Result<NetMap, NoMemory>
        requires script { (customs : ℕ) × (bytes : List ℕ) × IsScript customs bytes script.now }
        ensures inputs { IfOk result (λ n. n ≡ map inputs_of script.now.tasks) }
        ensures map { IfOk result (λ n. IsNetMap n script.now.shape) }
    {
        law_script();
        let tasks = script.tasks.as_slice();
        let inputs = inputs_of_all(alloc, tasks)?;
        Ok(NetMap { inputs })
    }

    /// How many tasks the script has.
    pub fn len(&self) -> usize
        ensures { result ≡ length self.now }
    {
        self.inputs.len()
    }

    /// The tasks that a task reads.
    pub fn get(&self, t: TaskNo) -> Inputs
        requires within { t < length self.now }
        ensures { (d : Inputs) → result ≡ slice_index_or self.now t d }
    {
        self.inputs[t as usize]
    }
}
