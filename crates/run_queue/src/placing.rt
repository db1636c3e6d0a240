//! The processor of a task that is on no queue.
ghost use Rattle.std.specs.Prelude.{◌≡◌, ℕ, ◌<◌, ◌∷◌};
ghost use Rattle.run_queue.specs.Queueing.{placed};
ghost use Rattle.task_words.specs.May.{MayCpuWord};
ghost use Rattle.task_words.specs.Records.{LoadedCpu};
ghost use Rattle.task_words.specs.Views.{IsOf, IsSame};

use handoff_data::CpuNo;
use task_words::{Kept, Pass, TaskGuard, Wk, load_cpu, store_cpu};

/// Brings a task that is on no queue to a processor: its processor word is stored where it is another. It answers the
/// processor that the word had. As Linux's `try_to_wake_up` calls `set_task_cpu` (`kernel/sched/core.c`) where the
/// processor changes.
pub fn place<B: Kept>(wk: &Wk<B>, pass: &mut Pass, task: &TaskGuard<B>, c: CpuNo) -> CpuNo
    requires of { IsOf wk.now pass.old }
    requires table { task.now.of ≡ wk.now.name }
    requires task { task.now.task < wk.now.shape.tasks }
    requires may { (from x : ℕ)
        → MayCpuWord pass.old.seat (LoadedCpu task.now.task from ∷ pass.old.trace) wk.now.shape task.now.task x c }
    ensures same { IsSame pass.old pass.new }
    ensures trace { pass.new.trace ≡ placed task.now.task result c pass.old.trace }
{
    // Both under the task's lock, which the guard shows, and off every queue: nobody's way to the task goes by this
    // word now (moved under the switch, the wrong queue).
    let from = load_cpu(wk, pass, task.task());
    if from != c {
        store_cpu(wk, pass, task, c);
    }
    from
}
