// How long a line takes through a chain of `cat`: as bodies over rings, and through plain queues that do the same.
//
// Usage: bench_pipes [LINES CATS]. With no words it runs a small chain and prints how many lines came out, which is the
// same at any speed; with them it prints nanoseconds.
//
// `queues.rt` has the plain queues that do the same.
#![tactic(auto)]

mod queues;

ghost use Rattle.std.specs.Prelude.{◌≡◌, ℕ, List, IfOk, IsNone, IfSome};
ghost use Rattle.task_script.specs.Script.{IsScript};

use handoff_data::{Lines, NoMemory};
use pipe_bodies::{Body, Net, NoWork, run_bodies};
use std::alloc::Global;
use std::env;
use std::process::ExitCode;
use std::rt::Runtime;
use std::time::Instant;
use task_script::{Script, read_script};

const TEXT: &str = "the quick brown fox jumps over the lazy dog, 60 bytes in all";

fn main(rt: HostRuntime) -> ExitCode {
    let (lines, cats) = match sizes(&rt) {
        Some(sizes) => sizes,
        None => (50, 3),
    };
    for room in [1, 64] {
        if compare(&rt, lines, cats, room).is_none() {
            return ExitCode::FAILURE;
        }
    }
    ExitCode::SUCCESS
}

// The two numbers on the command line, if they are there.
fn sizes<R: Runtime>(rt: &R) -> Option<(u32, u32)> {
    let mut words = env::args(rt).ok()?.skip(1);
    let lines = words.next()?.parse::<u32>().ok()?;
    let cats = words.next()?.parse::<u32>().ok()?;
    Some((lines, cats))
}

// Runs both, and prints what came out of each, or how long a line took through one `cat`.
fn compare<R: Runtime + AllocGlobal>(rt: &R, lines: u32, cats: u32, room: u32) -> Option<()> {
    let script = chain(rt.alloc(), lines, cats, room).ok()?;
    let bodies: Vec<Body<NoWork>> = Net::build(rt.alloc(), &script, Vec::new(rt.alloc())).ok()?;
    let begun = Instant::now(rt).ok()?;
    let kept = run_bodies(rt.alloc(), script.tasks.as_slice(), bodies, u64::MAX).ok()??;
    let by_bodies = begun.elapsed(rt).ok()?;
    let texts = queues::texts(rt.alloc(), lines, TEXT).ok()?;
    let begun = Instant::now(rt).ok()?;
    let moved = queues::run(rt.alloc(), texts, cats, room).ok()?;
    let by_queues = begun.elapsed(rt).ok()?;
    let came = count(kept.as_slice());
    if sizes(rt).is_none() {
        println!(rt;
            "room {room}: {came} lines through bodies, {} through queues",
            moved.len()
        )
        .ok()?;
        return Some(());
    }
    let steps = f64::from(lines) * f64::from(cats);
    let bodies = by_bodies.as_secs_f64() * 1e9 / steps;
    let queues = by_queues.as_secs_f64() * 1e9 / steps;
    let ratio = bodies / queues;
    println!(rt;
        "room {room}: {bodies:.1} ns through bodies, {queues:.1} ns through queues, ratio {ratio:.2}"
    ).ok()?;
    Some(())
}

fn count(kept: &[Lines]) -> usize {
    let mut count = 0usize;
    for lines in kept {
        count = count.saturating_add(lines.len());
    }
    count
}

// The script of a source of so many lines, and so many tasks that read the one before and a task without lines.
#[tactic(auto, using(crate::proofs::Scripts::some_script))]
fn chain(alloc: Global, lines: u32, cats: u32, room: u32) -> Result<Script, NoMemory>
    ensures { IfOk result (λ s. (bytes : List ℕ) × IsScript 0 bytes s) }
{
    let mut text = format!(in alloc; "cpus 1\nroom {room}\ntask t0 lines\n")?;
    for _ in 0..lines {
        text.push_str("| ")?;
        text.push_str(TEXT)?;
        text.push_str("\n")?;
    }
    for cat in 0..cats {
        let next = cat.saturating_add(1);
        let tasks = format!(in alloc;
            "task e{next} count 0\ntask t{next} cat from t{cat} e{next}\n"
        )?;
        text.push_str(tasks.as_str())?;
    }
    text.push_str("end\n")?;
    match read_script(alloc, text.as_bytes(), 0) {
        Ok(script) => Ok(script),
        Err(_) => Err(NoMemory),
    }
}
