ghost use Rattle.std.specs.Prelude.{◌≡◌, IfOk};
ghost use Rattle.task_script.specs.Forest.{IsForest};
ghost use Rattle.task_script.specs.Plan.{sides};

use super::*;
use handoff_data::{Line, Lines, NoMemory, Shape, is_line};
use std::alloc::Global;
use std::process::Abort;
use std::test::Fail;
use task_script::{Plan, Script, Sources, TaskDef, Tasks};

// A line of bytes that have no line feed.
fn line<R: Abort + AllocGlobal>(rt: &R, bytes: &[u8]) -> Result<Line, NoMemory> {
    let bytes = Vec::from_slice(rt.alloc(), bytes)?;
    assert!(rt; is_line(bytes.as_slice()));
    Ok(Line::new(bytes))
}

fn lines<R: Abort + AllocGlobal>(rt: &R, texts: &[&[u8]]) -> Result<Lines, NoMemory> {
    let mut lines = Lines::new(rt.alloc());
    for text in texts {
        lines.push(line(rt, text)?)?;
    }
    Ok(lines)
}

fn expect_lines<R: Abort>(rt: &R, mut found: Lines, expected: &[&[u8]]) {
    assert_eq!(rt; found.len(), expected.len());
    for text in expected {
        match found.pop() {
            Some(line) => assert_eq!(rt; line.as_slice(), *text),
            None => panic!(rt; "a line is missing"),
        }
    }
}

fn task<R: Abort + AllocGlobal>(rt: &R, plan: Plan, from: &[u32]) -> Result<TaskDef, NoMemory>
    ensures { IfOk result (λ d. (d.plan ≡ plan) × (d.from ≡ from.now)) }
{
    let from = Sources::from_vec(Vec::from_slice(rt.alloc(), from)?);
    Ok(TaskDef {
        name: line(rt, b"t")?,
        plan,
        custom: None,
        from,
    })
}

fn script_of(tasks: Vec<TaskDef>) -> Script
    ensures { result.tasks ≡ tasks.items }
{
    Script {
        shape: Shape {
            cpus: 1,
            caches: 1,
            tasks: 0,
            conds: 0,
            agents: 0,
        },
        room: 1,
        tasks: Tasks::from_vec(tasks),
    }
}

#[tactic(auto, using(crate::proofs::TestForests::no_tasks))]
fn without_tasks(alloc: Global) -> Script
    ensures { IsForest result.tasks }
{
    script_of(Vec::new(alloc))
}

#[test]
fn a_script_without_tasks_has_no_lines(rt: HostRuntime) -> Result<(), Fail> {
    let found = run_forest(rt.alloc(), without_tasks(rt.alloc()))?;
    assert!(rt; found.is_empty());
    Ok(())
}

// A source, and a task that reads it.
#[tactic(auto, using(crate::proofs::TestForests::one_reader))]
fn read_by_one<R: Abort + AllocGlobal>(
    rt: &R,
    source: Plan,
    reader: Plan,
) -> Result<Script, NoMemory>
    requires { (sides source ≡ 0) × (sides reader ≡ 1) }
    ensures { IfOk result (λ s. IsForest s.tasks) }
{
    let source = task(rt, source, &[])?;
    let reader = task(rt, reader, &[0])?;
    Ok(script_of(vec![in rt.alloc(); source, reader]?))
}

// Two sources, and a task that reads both.
#[tactic(auto, using(crate::proofs::TestForests::two_read))]
fn read_by_both<R: Abort + AllocGlobal>(
    rt: &R,
    first: Plan,
    second: Plan,
    reader: Plan,
) -> Result<Script, NoMemory>
    requires sources { (sides first ≡ 0) × (sides second ≡ 0) }
    requires reader { sides reader ≡ 2 }
    ensures { IfOk result (λ s. IsForest s.tasks) }
{
    let first = task(rt, first, &[])?;
    let second = task(rt, second, &[])?;
    let reader = task(rt, reader, &[0, 1])?;
    Ok(script_of(vec![in rt.alloc(); first, second, reader]?))
}

// Only the last of the tasks has lines left, since it reads all others.
fn expect_last<R: Abort + AllocGlobal>(
    rt: &R,
    script: Script,
    expected: &[&[u8]],
) -> Result<(), NoMemory>
    requires { IsForest script.tasks }
{
    let mut found = run_forest(rt.alloc(), script)?;
    match found.pop() {
        Some(lines) => expect_lines(rt, lines, expected),
        None => panic!(rt; "no task"),
    }
    for lines in &found {
        assert!(rt; lines.is_empty());
    }
    Ok(())
}

// What a plan that reads one side puts out for these lines.
fn expect_reader<R: Abort + AllocGlobal>(
    rt: &R,
    texts: &[&[u8]],
    reader: Plan,
    expected: &[&[u8]],
) -> Result<(), NoMemory>
    requires { sides reader ≡ 1 }
{
    let left = lines(rt, texts)?;
    let script = read_by_one(rt, Plan::Lines { left }, reader)?;
    expect_last(rt, script, expected)
}

// What a plan that reads two sides puts out for these lines and the numbers from 1 to `last`.
fn expect_join<R: Abort + AllocGlobal>(
    rt: &R,
    texts: &[&[u8]],
    last: u64,
    reader: Plan,
    expected: &[&[u8]],
) -> Result<(), NoMemory>
    requires { sides reader ≡ 2 }
{
    let left = lines(rt, texts)?;
    let script = read_by_both(
        rt,
        Plan::Lines { left },
        Plan::Count { next: 1, last },
        reader,
    )?;
    expect_last(rt, script, expected)
}

#[test]
fn each_kind_puts_out_its_lines(rt: HostRuntime) -> Result<(), Fail> {
    feeding_gives_lines();
    let bytes: [&[u8]; 1] = [b"@[`{az\x80\xff\x00\x0d"];
    expect_reader(&rt, &bytes, Plan::Upper, &[b"@[`{AZ\x80\xff\x00\x0d"])?;
    let blanks: [&[u8]; 3] = [b"", b"  a ", b""];
    let numbers: [&[u8]; 3] = [b"1 ", b"2   a ", b"3 "];
    expect_reader(&rt, &blanks, Plan::Number { next: 1 }, &numbers)?;
    expect_reader(&rt, &[], Plan::Number { next: 1 }, &[])?;
    let texts: [&[u8]; 5] = [b"ab", b"", b"a", b"abc", b"b"];
    let prefix = line(&rt, b"ab")?;
    expect_reader(&rt, &texts, Plan::Keep { prefix }, &[b"ab", b"abc"])?;
    let prefix = line(&rt, b"ab")?;
    expect_reader(&rt, &texts, Plan::Drop { prefix }, &[b"", b"a", b"b"])?;
    let pin = Plan::Pin { left: 1, on: false };
    expect_reader(&rt, &texts, pin, &texts)?;
    let pin = Plan::Pin { left: 9, on: false };
    expect_reader(&rt, &texts, pin, &texts)?;
    expect_reader(&rt, &texts, Plan::Tally { n: 0 }, &[b"5"])?;
    expect_reader(&rt, &[], Plan::Tally { n: 0 }, &[b"0"])?;
    let many = Plan::Count {
        next: 1,
        last: 100_000,
    };
    let script = read_by_one(&rt, many, Plan::Tally { n: 0 })?;
    expect_last(&rt, script, &[b"100000"])?;
    Ok(())
}

#[test]
fn two_sides_are_joined(rt: HostRuntime) -> Result<(), Fail> {
    let cat = || Plan::Cat { side: 0 };
    expect_join(&rt, &[], 2, cat(), &[b"1", b"2"])?;
    expect_join(&rt, &[b"x", b"y"], 1, cat(), &[b"x", b"y", b"1"])?;
    expect_join(&rt, &[], 0, cat(), &[])?;
    let weave = || Plan::Weave {
        side: 0,
        ended: false,
    };
    expect_join(&rt, &[b"x"], 3, weave(), &[b"x", b"1", b"2", b"3"])?;
    expect_join(
        &rt,
        &[b"x", b"y", b"z"],
        1,
        weave(),
        &[b"x", b"1", b"y", b"z"],
    )?;
    expect_join(&rt, &[], 2, weave(), &[b"1", b"2"])?;
    expect_join(&rt, &[b"x"], 0, weave(), &[b"x"])?;
    expect_join(&rt, &[], 0, weave(), &[])?;
    Ok(())
}

#[test]
fn a_counter_stands_still_at_its_last_value(rt: HostRuntime) -> Result<(), Fail> {
    let mut plan = Plan::Number { next: u64::MAX - 1 };
    let mut out = Lines::new(rt.alloc());
    step_plan(rt.alloc(), &mut plan, 0, line(&rt, b"a")?, &mut out)?;
    step_plan(rt.alloc(), &mut plan, 0, line(&rt, b"b")?, &mut out)?;
    step_plan(rt.alloc(), &mut plan, 0, line(&rt, b"c")?, &mut out)?;
    assert!(rt; !end_plan(rt.alloc(), &mut plan, 0, &mut out)?);
    expect_lines(
        &rt,
        out,
        &[
            b"18446744073709551614 a",
            b"18446744073709551615 b",
            b"18446744073709551615 c",
        ],
    );
    Ok(())
}
