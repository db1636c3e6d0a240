// Whether lists of lines and of tasks are the same.
ghost use Rattle.std.specs.Prelude.{◌≡◌, ◌↔◌, IsTrue};

use crate::script::TaskDef;
use handoff_data::Lines;

#[tactic(auto, using(crate::proofs::EqualLaws::equal_laws))]
pub(crate) fn same_lines(lines: &Lines, others: &Lines) -> bool
    ensures { IsTrue result ↔ (lines.now ≡ others.now) }
{
    let count = lines.len();
    if count != others.len() {
        return false;
    }
    for index in 0..count {
        let (Some(line), Some(other)) = (lines.get(index), others.get(index)) else {
            unreachable!()
        };
        if !line.equals(other) {
            return false;
        }
    }
    true
}

#[tactic(auto, using(crate::proofs::EqualLaws::equal_laws))]
pub(crate) fn same_tasks(tasks: &[TaskDef], others: &[TaskDef]) -> bool
    ensures { IsTrue result ↔ (tasks.now ≡ others.now) }
{
    let count = tasks.len();
    if count != others.len() {
        return false;
    }
    for index in 0..count {
        if !tasks[index].equals(&others[index]) {
            return false;
        }
    }
    true
}
