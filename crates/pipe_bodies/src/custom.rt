// A work in the body of a task.
use handoff_data::{Line, Lines, NoMemory};
use pipe_tasks::Work;
use std::marker::Model;

/// A work, which contracts see as its plan.
#[derive(Drop)]
pub struct Custom<W: Work> {
    work: W,
}

impl<W: Work> Model for Custom<W> {
    ghost use Rattle.std.specs.Prelude.{◌≡◌, false};
    ghost use Rattle.task_script.specs.declared.plan.Plan.{Plan};

    ghost Value = { Plan };

    ghost use Rattle.task_script.specs.Plan.{sides};
    ghost use Rattle.pipe_tasks.specs.Plans.{is_pin};

    ghost view = { λ c. W.meaning c.work };

    ghost invariant = { λ c. (sides (W.meaning c.work) ≡ 1) × (is_pin (W.meaning c.work) ≡ false) };
}

impl<W: Work> Custom<W> {
    ghost use Rattle.std.specs.Prelude.{◌≡◌, ◌++◌, OnOk, OnErr, Some, None, false};
    ghost use Rattle.pipe_tasks.specs.Plans.{says, next, last, wants, closed};
    ghost use Rattle.pipe_bodies.specs.Items.{pinned};
    ghost use Rattle.task_script.specs.Plan.{sides};

    pub fn new(work: W) -> Custom<W>
        ensures meaning { result ≡ W.meaning work }
        ensures sides { sides result ≡ 1 }
    {
        work.has_one_side();
        Custom { work }
    }

    /// The side that the plan reads.
    pub fn side(&self) -> u32
        ensures wanted { wants self.now ≡ Some result }
        ensures closed { closed self.now 0 ≡ None }
        ensures pinned { pinned (Some self.now) ≡ false }
    {
        let _ = &self.work;
        0
    }

    /// Takes a line, and adds what it says of it to `out`. Answers `NoMemory` where memory runs out.
    pub fn eat(&mut self, line: &Line, out: &mut Lines) -> Result<(), NoMemory>
        ensures ok { OnOk result ((out.new ≡ out.old ++ says self.old 0 line.now)
            × (self.new ≡ next self.old 0 line.now)) }
        ensures err { OnErr result ((out.new ≡ out.old) × (self.new ≡ self.old)) }
    {
        self.work.eat(line, out)
    }

    /// Takes the end of its side, and adds what it says last to `out`. Answers `NoMemory` where memory runs out.
    pub fn end(&mut self, out: &mut Lines) -> Result<(), NoMemory>
        ensures ok { OnOk result (out.new ≡ out.old ++ last self.old 0) }
        ensures err { OnErr result ((out.new ≡ out.old) × (self.new ≡ self.old)) }
    {
        let ended = self.work.end(out);
        self.work.has_one_side();
        ended
    }
}
