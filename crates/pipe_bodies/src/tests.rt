ghost use Rattle.std.specs.Prelude.{◌≡◌, ℕ, List, IfOk};
ghost use Rattle.task_script.specs.Forest.{IsForest};
ghost use Rattle.task_script.specs.Script.{IsScript};
ghost use Rattle.task_script.specs.declared.plan.Plan.TheVariants as plan;

use super::*;
use crate::held::Held;
use crate::parts::hold;
use handoff_data::{Line, Lines, NoMemory, is_line};
use pipe_tasks::{run_forest, step_plan};
use std::alloc::Global;
use std::process::Abort;
use std::test::Fail;
use task_script::{Plan, Script, Sources, TaskDef, read_script};

// The script of these lines, whose rings have this room.
#[tactic(auto, using(crate::proofs::TestScripts::some_script))]
fn script_of(alloc: Global, room: u32, tasks: &str) -> Result<Script, NoMemory>
    ensures script { IfOk result (λ s. (bytes : List ℕ) × IsScript 0 bytes s) }
    ensures forest { IfOk result (λ s. IsForest s.tasks) }
{
    let text = format!(in alloc; "cpus 1\nroom {room}\n{tasks}end\n")?;
    match read_script(alloc, text.as_bytes(), 0) {
        Ok(script) => Ok(script),
        Err(_) => Err(NoMemory),
    }
}

fn bodies_of(alloc: Global, room: u32, tasks: &str) -> Result<Vec<Body<NoWork>>, NoMemory> {
    let script = script_of(alloc, room, tasks)?;
    Net::build(alloc, &script, Vec::new(alloc))
}

fn turn_of<W: Work>(bodies: &mut Vec<Body<W>>, index: usize) -> Result<Verdict, NoMemory> {
    match bodies.get_mut(index) {
        Some(body) => body.turn(),
        None => Err(NoMemory),
    }
}

fn verdict(read: Option<u32>, wrote: bool, then: Then) -> Verdict {
    Verdict {
        read,
        wrote,
        pin: false,
        then,
    }
}

// A body's next turns answer these verdicts.
fn expect_turns<R: Abort>(
    rt: &R,
    bodies: &mut Vec<Body<NoWork>>,
    index: usize,
    expected: &[Verdict],
) -> Result<(), NoMemory> {
    for verdict in expected {
        assert_eq!(rt; turn_of(bodies, index)?, *verdict, "body {index}");
    }
    Ok(())
}

#[test]
fn a_full_ring_hands_the_end_back(rt: HostRuntime) -> Result<(), Fail> {
    let mut bodies = bodies_of(rt.alloc(), 1, "task a count 1\ntask b upper from a\n")?;
    let quiet = verdict(None, false, Then::More);
    let wrote = verdict(None, true, Then::More);
    let full = verdict(None, false, Then::WaitOut);
    let exit = verdict(None, false, Then::Exit);
    let read = verdict(Some(0), false, Then::More);
    expect_turns(&rt, &mut bodies, 0, &[quiet, wrote, quiet, full, full])?;
    expect_turns(&rt, &mut bodies, 1, &[read])?;
    expect_turns(&rt, &mut bodies, 0, &[wrote, exit, exit])?;
    expect_turns(&rt, &mut bodies, 1, &[wrote, read, wrote, exit])?;
    assert!(rt; have_ended(bodies.as_slice()));
    Ok(())
}

#[test]
fn a_body_waits_for_the_side_that_its_plan_wants(rt: HostRuntime) -> Result<(), Fail> {
    let tasks = "task a count 1\ntask b count 1\ntask w weave from a b\n";
    let mut bodies = bodies_of(rt.alloc(), 1, tasks)?;
    let quiet = verdict(None, false, Then::More);
    let wrote = verdict(None, true, Then::More);
    let first = verdict(None, false, Then::WaitIn(0));
    let second = verdict(None, false, Then::WaitIn(1));
    let took_first = verdict(Some(0), false, Then::More);
    let took_second = verdict(Some(1), false, Then::More);
    let exit = verdict(None, false, Then::Exit);
    expect_turns(&rt, &mut bodies, 2, &[first])?;
    expect_turns(&rt, &mut bodies, 1, &[quiet, wrote])?;
    expect_turns(&rt, &mut bodies, 2, &[first])?;
    expect_turns(&rt, &mut bodies, 0, &[quiet, wrote])?;
    let both = [took_first, wrote, took_second, wrote, first];
    expect_turns(&rt, &mut bodies, 2, &both)?;
    expect_turns(&rt, &mut bodies, 0, &[quiet, wrote, exit])?;
    expect_turns(&rt, &mut bodies, 2, &[took_first, second])?;
    expect_turns(&rt, &mut bodies, 1, &[quiet, wrote, exit])?;
    expect_turns(&rt, &mut bodies, 2, &[took_second, wrote, exit])?;
    Ok(())
}

// The pins of the second body's turns, once the first has put out all.
fn expect_pins<R: Abort + AllocGlobal>(
    rt: &R,
    tasks: &str,
    expected: &[bool],
) -> Result<(), NoMemory> {
    let mut bodies = bodies_of(rt.alloc(), 64, tasks)?;
    for _ in 0..100 {
        let verdict = turn_of(&mut bodies, 0)?;
        assert!(rt; !verdict.pin);
    }
    for pin in expected {
        assert_eq!(rt; turn_of(&mut bodies, 1)?.pin, *pin, "{tasks}");
    }
    Ok(())
}

#[test]
fn a_pin_lasts_for_its_lines_or_to_the_end_of_the_input(rt: HostRuntime) -> Result<(), Fail> {
    let two = [
        true, true, true, true, false, false, false, false, false, false, false,
    ];
    expect_pins(&rt, "task a count 4\ntask b pin 2 from a\n", &two)?;
    let five = [true, true, false, false, false];
    expect_pins(&rt, "task a count 1\ntask b pin 5 from a\n", &five)?;
    expect_pins(
        &rt,
        "task a count 1\ntask b upper from a\n",
        &[false, false],
    )?;
    Ok(())
}

fn expect_same<R: Abort>(rt: &R, found: &[Lines], expected: &[Lines], room: u32, tasks: &str) {
    assert_eq!(rt; found.len(), expected.len());
    for task in 0..found.len().min(expected.len()) {
        assert_eq!(rt;
            found[task].len(),
            expected[task].len(),
            "room {room}, {tasks}"
        );
        for line in 0..expected[task].len() {
            let same = match (found[task].get(line), expected[task].get(line)) {
                (Some(a), Some(b)) => a.equals(b),
                _ => false,
            };
            assert!(rt; same, "room {room}, {tasks}");
        }
    }
}

// The bodies of a script keep what its plain run gives, in rounds and in random orders.
fn expect_plain_run<R: Abort + AllocGlobal>(
    rt: &R,
    room: u32,
    tasks: &str,
) -> Result<(), NoMemory> {
    let plain = run_forest(rt.alloc(), script_of(rt.alloc(), room, tasks)?)?;
    let script = script_of(rt.alloc(), room, tasks)?;
    let bodies: Vec<Body<NoWork>> = Net::build(rt.alloc(), &script, Vec::new(rt.alloc()))?;
    let kept = run_bodies(rt.alloc(), script.tasks.as_slice(), bodies, 1000)?.ok_or(NoMemory)?;
    expect_same(rt, kept.as_slice(), plain.as_slice(), room, tasks);
    for seed in 1..4 {
        let bodies: Vec<Body<NoWork>> = Net::build(rt.alloc(), &script, Vec::new(rt.alloc()))?;
        let tasks_now = script.tasks.as_slice();
        let kept = run_shuffled(rt.alloc(), tasks_now, bodies, seed, 10_000)?.ok_or(NoMemory)?;
        expect_same(rt, kept.as_slice(), plain.as_slice(), room, tasks);
    }
    Ok(())
}

#[test]
fn bodies_keep_what_the_plain_run_gives(rt: HostRuntime) -> Result<(), Fail> {
    let scripts = [
        "",
        "task a lines\n",
        "task a count 0\ntask b count 3\n",
        "task a lines\n| hello\n| world\ntask b upper from a\ntask c number from b\n",
        "task a lines\n| ab\n|\n| a\n| abc\n| b\ntask k keep ab from a\n",
        "task a lines\n| ab\n|\n| a\n| abc\n| b\ntask d drop ab from a\n",
        "task a count 9\ntask t tally from a\n",
        "task a lines\ntask t tally from a\ntask u number from t\n",
        "task a count 5\ntask p pin 2 from a\n",
        "task a count 3\ntask b lines\n| x\n| y\ntask c cat from b a\n",
        "task a count 0\ntask b lines\n| x\ntask c cat from a b\n",
        "task a count 2\ntask b lines\ntask c cat from a b\n",
        "task a lines\ntask b count 0\ntask c cat from a b\n",
        "task a lines\n| x\ntask b count 3\ntask w weave from a b\n",
        "task a count 3\ntask b count 0\ntask w weave from a b\n",
        "task a count 0\ntask b count 3\ntask w weave from a b\n",
        "task a count 0\ntask b lines\ntask w weave from a b\n",
        "task a count 4\ntask b count 6\ntask w weave from b a\ntask c count 2\ntask d cat from c w\ntask e count 1\n",
    ];
    for tasks in scripts {
        for room in [1, 2, 4, 64] {
            expect_plain_run(&rt, room, tasks)?;
        }
    }
    Ok(())
}

// A line of bytes that have no line feed.
fn line<R: Abort + AllocGlobal>(rt: &R, bytes: &[u8]) -> Result<Line, NoMemory> {
    let bytes = Vec::from_slice(rt.alloc(), bytes)?;
    assert!(rt; is_line(bytes.as_slice()));
    Ok(Line::new(bytes))
}

#[test]
fn several_lines_are_held_in_order(rt: HostRuntime) -> Result<(), Fail> {
    let mut said = Lines::new(rt.alloc());
    let texts: [&[u8]; 3] = [b"1", b"2", b"3"];
    for text in texts {
        said.push(line(&rt, text)?)?;
    }
    let mut held = Held::new(rt.alloc());
    held.push(Item::Text(line(&rt, b"0")?))?;
    hold(&mut said, &mut held)?;
    assert!(rt; said.is_empty());
    let expected: [&[u8]; 4] = [b"0", b"1", b"2", b"3"];
    for text in expected {
        match held.pop() {
            Some(Item::Text(found)) => assert_eq!(rt; found.as_slice(), text),
            _ => panic!(rt; "a line is missing"),
        }
    }
    assert!(rt; held.is_empty());
    Ok(())
}

// A work that puts out each line in upper case, where memory is there.
#[derive(Drop)]
struct Shout {
    alloc: Global,
    memory: bool,
}

impl Work for Shout {
    ghost meaning = { λ _. plan.Upper };

    fn eat(&mut self, line: &Line, out: &mut Lines) -> Result<(), NoMemory> {
        if !self.memory {
            return Err(NoMemory);
        }
        let copy = Line::new(Vec::from_slice(self.alloc, line.as_slice())?);
        let mut plan = Plan::Upper;
        step_plan(self.alloc, &mut plan, 0, copy, out)
    }

    fn end(&mut self, _out: &mut Lines) -> Result<(), NoMemory> {
        Ok(())
    }

    fn has_one_side(&self) {}
}

fn task(alloc: Global, plan: Plan, from: &[u32]) -> Result<TaskDef, NoMemory>
    ensures { IfOk result (λ d. (d.plan ≡ plan) × (d.from ≡ from.now)) }
{
    let from = Sources::from_vec(Vec::from_slice(alloc, from)?);
    let name = Line::new(Vec::new(alloc));
    Ok(TaskDef {
        name,
        plan,
        custom: None,
        from,
    })
}

// Counts up to two, which a work puts out in upper case.
#[tactic(auto, using(crate::proofs::TestScripts::one_reader))]
fn shouted(alloc: Global, memory: bool) -> Result<Vec<Body<Shout>>, NoMemory> {
    let source = task(alloc, Plan::Count { next: 1, last: 2 }, &[])?;
    let reader = task(alloc, Plan::Upper, &[0])?;
    let tasks = [source, reader];
    let mut courses = Vec::new(alloc);
    courses.push(Course::Own(Plan::Count { next: 1, last: 2 }))?;
    courses.push(Course::Brought(Custom::new(Shout { alloc, memory })))?;
    build_courses(alloc, 4, &tasks, courses)
}

#[test]
fn a_work_runs_in_a_body(rt: HostRuntime) -> Result<(), Fail> {
    let mut bodies = shouted(rt.alloc(), true)?;
    for _ in 0..12 {
        turn_of(&mut bodies, 0)?;
        turn_of(&mut bodies, 1)?;
    }
    let Some(body) = bodies.pop() else {
        panic!(rt; "a body is missing")
    };
    let kept = body.kept();
    assert_eq!(rt; kept.len(), 2);
    let expected: [&[u8]; 2] = [b"1", b"2"];
    for (place, text) in expected.iter().enumerate() {
        match kept.get(place) {
            Some(found) => assert_eq!(rt; found.as_slice(), *text),
            None => panic!(rt; "a line is missing"),
        }
    }
    Ok(())
}

#[test]
fn refused_memory_is_answered_for_good(rt: HostRuntime) -> Result<(), Fail> {
    let mut bodies = shouted(rt.alloc(), false)?;
    for _ in 0..2 {
        turn_of(&mut bodies, 0)?;
    }
    for _ in 0..3 {
        assert!(rt; turn_of(&mut bodies, 1).is_err());
        turn_of(&mut bodies, 0)?;
    }
    assert!(rt; !have_ended(bodies.as_slice()));
    Ok(())
}

// What a work puts out for a line and at the end.
fn eaten<W: Work>(alloc: Global, work: W, line: &Line) -> Result<Lines, NoMemory> {
    let mut custom = Custom::new(work);
    let mut out = Lines::new(alloc);
    custom.eat(line, &mut out)?;
    custom.end(&mut out)?;
    Ok(out)
}

#[test]
fn a_work_in_a_box_is_a_work(rt: HostRuntime) -> Result<(), Fail> {
    let shout = Shout {
        alloc: rt.alloc(),
        memory: true,
    };
    let work: Box<dyn Work + Send + Drop> = Box::new(rt.alloc(), shout)?;
    let mut out = eaten(rt.alloc(), work, &line(&rt, b"az")?)?;
    match out.pop() {
        Some(found) => assert_eq!(rt; found.as_slice(), b"AZ".as_slice()),
        None => panic!(rt; "a line is missing"),
    }
    assert!(rt; out.is_empty());
    Ok(())
}
