// Plans that a caller brings, in boxes.
use handoff_data::{Line, Lines, NoMemory};

/// A plan with one input, which a caller brings: its meaning is a `Plan` with one side that doesn't pin its task. The
/// body of a task takes its lines through these calls, one after another, and then its end, once.
pub trait Work: Send + Drop {
    ghost use Rattle.std.specs.Prelude.{◌≡◌, ◌++◌, OnOk, OnErr, false};
    ghost use Rattle.task_script.specs.declared.plan.Plan.{Plan};
    ghost use Rattle.task_script.specs.Plan.{sides};
    ghost use Rattle.pipe_tasks.specs.Plans.{says, next, last, is_pin};

    ghost meaning: { Self → Plan };

    /// Puts out what the plan says for a line, and moves to the next plan. A refusal, for want of memory, changes
    /// neither.
    fn eat(&mut self, line: &Line, out: &mut Lines) -> Result<(), NoMemory>
        ensures ok { OnOk result ((out.new ≡ out.old ++ says (meaning self.old) 0 line.now)
            × (meaning self.new ≡ next (meaning self.old) 0 line.now)) }
        ensures err { OnErr result ((out.new ≡ out.old) × (meaning self.new ≡ meaning self.old)) };

    /// Puts out the plan's last lines. A refusal, for want of memory, changes nothing.
    fn end(&mut self, out: &mut Lines) -> Result<(), NoMemory>
        ensures ok { OnOk result (out.new ≡ out.old ++ last (meaning self.old) 0) }
        ensures err { OnErr result ((out.new ≡ out.old) × (meaning self.new ≡ meaning self.old)) };

    /// That the plan has one side, which a caller may cite. It does nothing.
    fn has_one_side(&self)
        ensures { (sides (meaning self.now) ≡ 1) × (is_pin (meaning self.now) ≡ false) };
}

/// A work in a box.
impl Work for Box<dyn Work + Send + Drop> {
    ghost meaning = { λ b. (Work-box b).meaning b.value };

    fn eat(&mut self, line: &Line, out: &mut Lines) -> Result<(), NoMemory> {
        (**self).eat(line, out)
    }

    fn end(&mut self, out: &mut Lines) -> Result<(), NoMemory> {
        (**self).end(out)
    }

    fn has_one_side(&self) {
        (**self).has_one_side()
    }
}

/// The work of a script that has none: it takes every line and puts out none, as `drop` does with an empty prefix.
#[derive(Drop)]
pub struct NoWork;

impl Work for NoWork {
    ghost use Rattle.std.specs.Prelude.{◌≡◌, [], IsOk};
    ghost use Rattle.task_script.specs.declared.plan.Plan.TheVariants as plan;

    ghost meaning = { λ _. plan.Drop [] };

    /// Puts out nothing, and takes no memory.
    fn eat(&mut self, _line: &Line, out: &mut Lines) -> Result<(), NoMemory>
        ensures ok { IsOk result × (out.new ≡ out.old) }
    {
        Ok(())
    }

    /// Puts out nothing, and takes no memory.
    fn end(&mut self, out: &mut Lines) -> Result<(), NoMemory>
        ensures ok { IsOk result × (out.new ≡ out.old) }
    {
        Ok(())
    }

    fn has_one_side(&self) {}
}
