//! Whether a queue says what the words of the tasks say.

ghost use Rattle.std.specs.Prelude.{◌≡◌, ℕ, ◌<◌, ◌==◌, ◌&&◌, ◌↔◌, IsTrue, Some, true, slice_get, count_by};
ghost use Rattle.core_data.specs.Queue.{Queue, IsOnce, times_in};
ghost use Rattle.core_data.specs.Columns.{Columns, columns};
ghost use Rattle.core_data.specs.declared.words.TaskWords.{TaskWords};
ghost use Rattle.core_gives.specs.Fits.{IsHere, AreHere, IsCurHere};
ghost use Rattle.core_gives.specs.Queues.{IsQueueOf};

use core_data::{Core, QueueVal, TaskWords};
use handoff_data::{CpuNo, TaskNo};
use step_stores::{task_words, tasks};

/// Whether a task with these words is queued on processor c.
fn is_at(words: &TaskWords, c: CpuNo) -> bool
    ensures { result ≡ ((words.now.on_rq == 1) && (words.now.cpu == c)) }
{
    words.on_rq == 1 && words.cpu == c
}

/// Whether t is a task of the core that is queued on processor c.
fn is_here(core: &Core, c: CpuNo, t: TaskNo) -> bool
    ensures { IsTrue result ↔ IsHere (columns core.now) c t }
{
    (t as usize) < tasks(core) && is_at(&task_words(core, t), c)
}

/// Whether the task at this place of those that wait is queued on processor c.
fn is_here_at(core: &Core, c: CpuNo, queue: &QueueVal, i: usize) -> bool
    ensures { IsTrue result ↔ ((t : ℕ) → slice_get queue.now.waiting i ≡ Some t → IsHere (columns core.now) c t) }
{
    match queue.get(i) {
        Some(t) => is_here(core, c, t),
        None => true,
    }
}

/// Whether each task that waits is queued on processor c.
fn are_here(core: &Core, c: CpuNo, queue: &QueueVal) -> bool
    ensures { IsTrue result ↔ AreHere (columns core.now) c queue.now }
{
    for i in 0..queue.len() as usize {
        if !is_here_at(core, c, queue, i) {
            return false;
        }
    }
    true
}

/// Whether the task in `cur`, if there is one, is queued on processor c and doesn't wait.
fn is_cur_here(core: &Core, c: CpuNo, queue: &QueueVal) -> bool
    ensures here { IsTrue result ↔ IsCurHere (columns core.now) c queue.now }
    ensures once { IsOnce queue.now.waiting }
{
    match queue.cur {
        Some(t) => is_here(core, c, t) && !queue.contains(t),
        None => true,
    }
}

/// How many tasks are queued on processor c.
fn count_at(core: &Core, c: CpuNo) -> usize
    ensures { result ≡ count_by (λ (w : TaskWords). (w.on_rq == 1) && (w.cpu == c)) core.now.tasks.items }
{
    core.tasks.iter().filter(|words| is_at(words, c)).count()
}

/// Whether a queue has each task that is queued on processor c once, and no other: it has only such tasks, none
/// twice, and as many as there are.
pub fn is_queue_of(core: &Core, c: CpuNo, queue: &QueueVal) -> bool
    ensures { IsTrue result ↔ IsQueueOf (columns core.now).on_rq (columns core.now).cpu c queue.now }
{
    if !is_cur_here(core, c, queue) {
        return false;
    }
    if !are_here(core, c, queue) {
        return false;
    }
    count_at(core, c) == queue.len() as usize
}
