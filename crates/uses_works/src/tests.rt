// Runs of scripts with works of a caller.
ghost use Rattle.std.specs.Prelude.{◌≡◌, None};

use crate::CountLines;
use handoff_data::{Entry, Line, Lines, NoMemory};
use pipe_tasks::copy_line;
use std::alloc::Global;
use std::process::Abort;
use std::sync::atomic::{AtomicU32, Ordering};
use std::sync::{Arc, Wait};
use std::test::Fail;
use std::thread::Threads;
use task_words::Turn;
use wk_run::{Gate, ListGate, MemSink, MemSource, Status, Work, wakerun};

// The room of a sink that takes any output here.
const ROOM: usize = 4_096;

// The task whose work is watched.
const WATCHED: u32 = 1;

// What a run of a script with these works answers and writes.
fn run_with<G: Gate + Send, R: AllocGlobal + Threads + Wait + Sync>(
    rt: &R,
    workers: &str,
    script: &str,
    gates: &mut Vec<G>,
    customs: Vec<Box<dyn Work + Send + Drop>>,
) -> Result<(Status, Vec<u8>), NoMemory> {
    let alloc = rt.alloc();
    if customs.len() > 16 {
        return Err(NoMemory);
    }
    let mut words = Vec::new(alloc);
    for word in ["run", "--workers", workers] {
        words.push(String::from_str(alloc, word)?)?;
    }
    let bytes = Vec::from_slice(alloc, script.as_bytes())?;
    let mut source = MemSource::new(bytes, Vec::new(alloc));
    let mut sink = MemSink::new(alloc, ROOM, Vec::new(alloc))?;
    let words = words.as_slice();
    let status = wakerun(rt, alloc, words, &mut source, &mut sink, gates, customs);
    Ok((status, Vec::from_slice(alloc, sink.as_slice())?))
}

#[test]
fn a_work_keeps_its_state_from_line_to_line(rt: HostRuntime) -> Result<(), Fail> {
    let script = "cpus 2\nroom 1\ntask a count 12\ntask s custom 0 from a\ntask b lines\n| x\n| y\n\
        task t custom 1 from b\nend\n";
    for workers in ["1", "2", "3"] {
        let mut customs: Vec<Box<dyn Work + Send + Drop>> = Vec::with_capacity(rt.alloc(), 2)?;
        customs.push(Box::new(rt.alloc(), CountLines::new(rt.alloc()))?)?;
        customs.push(Box::new(rt.alloc(), CountLines::new(rt.alloc()))?)?;
        let mut gates: Vec<ListGate> = Vec::new(rt.alloc());
        let (status, taken) = run_with(&rt, workers, script, &mut gates, customs)?;
        assert_eq!(rt; status, Status::Ok);
        assert_eq!(rt; taken.as_slice(), b"s: 12\nt: 2\n".as_slice());
    }
    Ok(())
}

// A work that has no memory for a line.
#[derive(Drop)]
struct Refusing;

impl Work for Refusing {
    ghost use Rattle.task_script.specs.declared.plan.Plan.TheVariants as plan;

    ghost meaning = { λ _. plan.Upper };

    fn eat(&mut self, _line: &Line, _out: &mut Lines) -> Result<(), NoMemory> {
        Err(NoMemory)
    }

    fn end(&mut self, _out: &mut Lines) -> Result<(), NoMemory> {
        Ok(())
    }

    fn has_one_side(&self) {}
}

#[test]
fn a_work_that_refuses_a_line_ends_the_run_unwritten(rt: HostRuntime) -> Result<(), Fail> {
    let cases = [
        (
            "cpus 1\ntask a count 2\ntask s custom 0 from a\nend\n",
            Status::NoMemory,
            "",
        ),
        (
            "cpus 1\ntask a lines\ntask s custom 0 from a\nend\n",
            Status::Ok,
            "",
        ),
        ("cpus 1\ntask a count 2\nend\n", Status::Ok, "a: 1\na: 2\n"),
    ];
    for (script, expected, report) in cases {
        let mut customs: Vec<Box<dyn Work + Send + Drop>> = Vec::with_capacity(rt.alloc(), 1)?;
        customs.push(Box::new(rt.alloc(), Refusing)?)?;
        let mut gates: Vec<ListGate> = Vec::new(rt.alloc());
        let (status, taken) = run_with(&rt, "1", script, &mut gates, customs)?;
        assert_eq!(rt; status, expected, "{script}");
        assert_eq!(rt; taken.as_slice(), report.as_bytes(), "{script}");
    }
    Ok(())
}

// What a work and a gate share: how many picks less finishes the gate was told of the work's task, how often the work
// was called, and how often then that number wasn't 1.
#[derive(Drop)]
struct Shared {
    inside: AtomicU32,
    calls: AtomicU32,
    faults: AtomicU32,
}

// A work that passes its lines on, and looks at each call whether its task is on a processor.
#[derive(Drop)]
struct Watched {
    alloc: Global,
    shared: Arc<Shared>,
}

impl Watched {
    fn look(&self) {
        self.shared.calls.fetch_add(1, Ordering::SeqCst);
        if self.shared.inside.load(Ordering::SeqCst) != 1 {
            self.shared.faults.fetch_add(1, Ordering::SeqCst);
        }
    }
}

impl Work for Watched {
    ghost use Rattle.std.specs.Prelude.{[]};
    ghost use Rattle.task_script.specs.declared.plan.Plan.TheVariants as plan;

    ghost meaning = { λ _. plan.Keep [] };

    fn eat(&mut self, line: &Line, out: &mut Lines) -> Result<(), NoMemory> {
        self.look();
        out.push(copy_line(self.alloc, line)?)
    }

    fn end(&mut self, _out: &mut Lines) -> Result<(), NoMemory> {
        self.look();
        Ok(())
    }

    fn has_one_side(&self) {}
}

// A gate that counts the picks less the finishes of the watched task.
#[derive(Drop)]
struct Counting {
    shared: Arc<Shared>,
}

impl Gate for Counting {
    ghost told = { λ _. None };

    fn tell(&mut self, turn: &Turn) -> Result<(), NoMemory> {
        for i in 0..usize::MAX {
            match turn.get(i) {
                Some(Entry::Pick { t, .. }) if t == WATCHED => {
                    self.shared.inside.fetch_add(1, Ordering::SeqCst);
                }
                Some(Entry::Finish { t, .. }) if t == WATCHED => {
                    self.shared.inside.fetch_sub(1, Ordering::SeqCst);
                }
                Some(_) => {}
                None => return Ok(()),
            }
        }
        Ok(())
    }
}

// Each call of a work comes while its task is on a processor, as the gate was told.
#[test]
fn a_body_runs_inside_the_run_of_its_task(rt: HostRuntime) -> Result<(), Fail> {
    let script = "cpus 1\ntask a count 50\ntask s custom 0 from a\ntask t tally from s\nend\n";
    let shared = Arc::new(
        rt.alloc(),
        Shared {
            inside: AtomicU32::new(0),
            calls: AtomicU32::new(0),
            faults: AtomicU32::new(0),
        },
    )?;
    let mut customs: Vec<Box<dyn Work + Send + Drop>> = Vec::with_capacity(rt.alloc(), 1)?;
    let work = Watched {
        alloc: rt.alloc(),
        shared: Arc::try_clone(&shared)?,
    };
    customs.push(Box::new(rt.alloc(), work)?)?;
    let mut gates = Vec::with_capacity(rt.alloc(), 1)?;
    gates.push(Counting {
        shared: Arc::try_clone(&shared)?,
    })?;
    let (status, taken) = run_with(&rt, "1", script, &mut gates, customs)?;
    assert_eq!(rt; status, Status::Ok);
    assert_eq!(rt; taken.as_slice(), b"t: 50\n".as_slice());
    assert_eq!(rt; shared.calls.load(Ordering::SeqCst), 51);
    assert_eq!(rt; shared.faults.load(Ordering::SeqCst), 0);
    Ok(())
}
