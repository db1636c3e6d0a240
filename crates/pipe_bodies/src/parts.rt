// A body's plan, its ends of rings and what it holds.
ghost use Rattle.std.specs.Prelude.{◌≡◌, ◌<◌, ◌↔◌, [], ◌∷◌, ◌++◌, if◌then◌else◌};
ghost use Rattle.std.specs.Prelude.{IfOk, IsTrue, MatchOption, IsSome, OnOk, OnErr, false};
ghost use Rattle.pipe_tasks.specs.Plans.{wants};
ghost use Rattle.pipe_bodies.specs.Items.{heard, after, makes, more, as_texts, pinned};
ghost use Rattle.pipe_bodies.specs.Rings.{in_ring, out_ring, got, out_of, known, free_slots};
ghost use Rattle.pipe_bodies.specs.Parts.{KeepsNone, KeepsLine};
ghost use Rattle.pipe_bodies.specs.Turns.{is_end};

use crate::custom::Custom;
use crate::held::Held;
use crate::item::Item;
use crate::verdict::{Then, Verdict};
use handoff_data::{Lines, NoMemory};
use pipe_tasks::{Work, end_plan, make_line, move_plan, said_line, wanted_side};
use rtrb::{Consumer, Producer};
use std::alloc::Global;
use task_script::Plan;

#[derive(Drop)]
pub(crate) struct Parts<W: Work> {
    pub(crate) left: Option<Consumer<Item>>,
    pub(crate) right: Option<Consumer<Item>>,
    pub(crate) output: Option<Producer<Item>>,
    pub(crate) kept: Lines,
    // Lines that a plan said, on their way to those that are held: nothing between turns.
    pub(crate) said: Lines,
    pub(crate) held: Held,
    pub(crate) plan: Option<Course<W>>,
    pub(crate) ended: bool,
}

// A plan of the script, or one that the caller brought.
#[derive(Drop)]
pub enum Course<W: Work> {
    Own(Plan),
    Brought(Custom<W>),
}

// The side that a course reads next.
fn wanted<W: Work>(course: &Course<W>) -> Option<u32>
    ensures { result ≡ wants (plan_in course.now) }
{
    match course {
        Course::Own(plan) => wanted_side(plan),
        Course::Brought(work) => Some(work.side()),
    }
}

ghost use Rattle.pipe_bodies.specs.Courses.{plan_in, plan_on};

// Holds what a plan says for an item of a side, and answers whether the plan goes on.
fn hear_plan(
    alloc: Global,
    plan: &mut Plan,
    side: u32,
    item: Item,
    said: &mut Lines,
    held: &mut Held,
) -> Result<bool, NoMemory>
    requires wanted { wants plan.old ≡ Some side }
    requires said { said.old ≡ [] }
    ensures heard { IfOk result (λ on. (after plan.old side item ≡ (if on then Some plan.new else None))
        × (held.new ≡ held.old ++ heard plan.old side item)) }
    ensures said { OnOk result (said.new ≡ []) }
{
    match item {
        Item::Text(line) => {
            let line = said_line(alloc, plan, side, line)?;
            move_plan(plan);
            if let Some(line) = line {
                held.push(Item::Text(line))?;
            }
            Ok(true)
        }
        Item::End => {
            let goes_on = end_plan(alloc, plan, side, said)?;
            hold(said, held)?;
            if !goes_on {
                held.push(Item::End)?;
            }
            Ok(goes_on)
        }
    }
}

// Holds lines.
pub(crate) fn hold(said: &mut Lines, held: &mut Held) -> Result<(), NoMemory>
    ensures held { OnOk result (held.new ≡ held.old ++ as_texts said.old) }
    ensures said { OnOk result (said.new ≡ []) }
{
    while let Some(line) = said.pop() {
        held.push(Item::Text(line))?;
    }
    Ok(())
}

// Holds what a work says for an item of its side, and answers whether it goes on.
fn hear_work<W: Work>(
    work: &mut Custom<W>,
    item: Item,
    said: &mut Lines,
    held: &mut Held,
) -> Result<bool, NoMemory>
    requires said { said.old ≡ [] }
    ensures heard { IfOk result (λ on. (after work.old 0 item ≡ (if on then Some work.new else None))
        × (held.new ≡ held.old ++ heard work.old 0 item)) }
    ensures said { OnOk result (said.new ≡ []) }
{
    match item {
        Item::Text(line) => {
            work.eat(&line, said)?;
            hold(said, held)?;
            Ok(true)
        }
        Item::End => {
            // The clauses of `side` say that a work has one side, which ends here.
            let _side = work.side();
            work.end(said)?;
            hold(said, held)?;
            held.push(Item::End)?;
            Ok(false)
        }
    }
}

fn hear<W: Work>(
    alloc: Global,
    course: &mut Course<W>,
    side: u32,
    item: Item,
    said: &mut Lines,
    held: &mut Held,
) -> Result<bool, NoMemory>
    requires wanted { wants (plan_in course.old) ≡ Some side }
    requires said { said.old ≡ [] }
    ensures said { OnOk result (said.new ≡ []) }
    ensures heard { IfOk result (λ on. (after (plan_in course.old) side item
        ≡ (if on then Some (plan_in course.new) else None))
        × (held.new ≡ held.old ++ heard (plan_in course.old) side item)) }
{
    match course {
        Course::Own(plan) => hear_plan(alloc, plan, side, item, said, held),
        Course::Brought(work) => hear_work(work, item, said, held),
    }
}

// Holds what a source puts out next, and answers whether the source goes on.
fn make<W: Work>(alloc: Global, course: &mut Course<W>, held: &mut Held) -> Result<bool, NoMemory>
    requires { wants (plan_in course.old) ≡ None }
    ensures { IfOk result (λ on. (more (plan_in course.old) ≡ (if on then Some (plan_in course.new) else None))
        × (held.new ≡ held.old ++ makes (plan_in course.old))) }
{
    match course {
        Course::Own(plan) => make_plan(alloc, plan, held),
        Course::Brought(work) => {
            // The clauses of `side` say that a work has one side, so it is no source.
            let _side = work.side();
            unreachable!()
        }
    }
}

fn make_plan(alloc: Global, plan: &mut Plan, held: &mut Held) -> Result<bool, NoMemory>
    requires { wants plan.old ≡ None }
    ensures { IfOk result (λ on. (more plan.old ≡ (if on then Some plan.new else None))
        × (held.new ≡ held.old ++ makes plan.old)) }
{
    match make_line(alloc, plan)? {
        Some(line) => {
            held.push(Item::Text(line))?;
            Ok(true)
        }
        None => {
            held.push(Item::End)?;
            Ok(false)
        }
    }
}

// Takes one item from a side.
fn pull(input: &mut Option<Consumer<Item>>) -> Option<Item>
    requires { IsSome (in_ring input.old) }
    ensures ring { in_ring input.new ≡ in_ring input.old }
    ensures got { MatchOption result (got input.new ≡ got input.old) (λ i. got input.new ≡ got input.old ++ i ∷ []) }
    ensures none { result ≡ None → known input.new ≡ [] }
{
    match input {
        None => None,
        Some(consumer) => consumer.pop().ok(),
    }
}

// Whether the ring has no room. Where nobody reads there is always some.
fn is_full(output: &mut Option<Producer<Item>>) -> bool
    ensures ring { out_ring output.new ≡ out_ring output.old }
    ensures out { (kept : _) (ended : _) → out_of output.new kept ended ≡ out_of output.old kept ended }
    ensures full { IsTrue result ↔ (free_slots output.new ≡ 0) }
{
    let Some(producer) = output else {
        return false;
    };
    producer.is_full()
}

// Puts an item out, on the ring or into what is kept.
fn put(output: &mut Option<Producer<Item>>, kept: &mut Lines, item: Item) -> Result<(), NoMemory>
    requires { 0 < free_slots output.old }
    ensures ring { out_ring output.new ≡ out_ring output.old }
    ensures out { OnOk result (out_of output.new kept.new (is_end item)
        ≡ out_of output.old kept.old false ++ item ∷ []) }
    ensures bare { KeepsNone (out_ring output.old) kept.old → KeepsNone (out_ring output.new) kept.new }
    ensures err { OnErr result ((out_of output.new kept.new false ≡ out_of output.old kept.old false)
        × (kept.new ≡ kept.old) × (free_slots output.new ≡ free_slots output.old)) }
    ensures cause { OnErr result (KeepsLine item (out_ring output.old)) }
{
    match output {
        None => match item {
            Item::Text(line) => kept.push(line),
            Item::End => Ok(()),
        },
        Some(producer) => {
            producer.push_reserved(item);
            Ok(())
        }
    }
}

impl<W: Work> Parts<W> {
    ghost use Rattle.std.specs.Prelude.{◌≡◌, ◌<◌, [], length, IfOk, OnOk, OnErr, IsSome, false};
    ghost use Rattle.pipe_bodies.specs.Turns.{Turns, Ordered, WaitsFor, RefusedTakes};
    ghost use Rattle.pipe_bodies.specs.Courses.{plan_on};
    ghost use Rattle.pipe_bodies.specs.Parts.{seen, rings, knows, IsJoined, KeepsNone, StaysOut, MayTakeMemory};

    // Puts the oldest held item out, or holds it on where the ring has no room.
    fn put_oldest(&mut self) -> Result<Verdict, NoMemory>
        requires { (0 < length self.old.held) × (self.old.ended ≡ false) }
        ensures turns { IfOk result (λ v. Turns (seen self.old) (seen self.new) v) }
        ensures waits { IfOk result (λ v. WaitsFor v.then (knows self.new)) }
        ensures rings { rings self.new ≡ rings self.old }
        ensures bare { KeepsNone (rings self.old).output self.old.kept
            → KeepsNone (rings self.new).output self.new.kept }
        ensures said { self.new.said ≡ self.old.said }
        ensures err { OnErr result (StaysOut self.old self.new) }
        ensures taken { OnErr result (RefusedTakes (seen self.old) (seen self.new)) }
        ensures cause { OnErr result (MayTakeMemory self.old.held (plan_on self.old.plan) (rings self.old).output) }
    {
        if is_full(&mut self.output) {
            return Ok(quiet(is_pinned(&self.plan), Then::WaitOut));
        }
        let Some(item) = self.held.pop() else {
            unreachable!()
        };
        let is_end = is_end(&item);
        put(&mut self.output, &mut self.kept, item)?;
        self.ended = is_end;
        Ok(Verdict {
            read: None,
            wrote: true,
            pin: is_pinned(&self.plan),
            then: Then::More,
        })
    }

    // A source's next line, or one item from the side that the plan wants.
    fn go_on(&mut self, alloc: Global) -> Result<Verdict, NoMemory>
        requires held { self.old.held ≡ [] }
        requires said { self.old.said ≡ [] }
        requires joined { IsJoined (plan_on self.old.plan) (rings self.old).left (rings self.old).right }
        ensures turns { IfOk result (λ v. Turns (seen self.old) (seen self.new) v) }
        ensures waits { IfOk result (λ v. WaitsFor v.then (knows self.new)) }
        ensures rings { rings self.new ≡ rings self.old }
        ensures bare { KeepsNone (rings self.old).output self.old.kept
            → KeepsNone (rings self.new).output self.new.kept }
        ensures said { OnOk result (self.new.said ≡ []) }
        ensures out { (self.new.output ≡ self.old.output) × (self.new.kept ≡ self.old.kept)
            × (self.new.ended ≡ self.old.ended) }
        ensures taken { OnErr result (RefusedTakes (seen self.old) (seen self.new)) }
        ensures cause { OnErr result (IsSome (plan_on self.old.plan)) }
    {
        let Some(course) = &mut self.plan else {
            return Ok(quiet(false, Then::Exit));
        };
        let Some(side) = wanted(course) else {
            if !make(alloc, course, &mut self.held)? {
                self.plan = None;
            }
            return Ok(quiet(is_pinned(&self.plan), Then::More));
        };
        if side == 0 {
            let Some(item) = pull(&mut self.left) else {
                return Ok(quiet(is_pinned(&self.plan), Then::WaitIn(side)));
            };
            if !hear(alloc, course, side, item, &mut self.said, &mut self.held)? {
                self.plan = None;
            }
            return Ok(took(is_pinned(&self.plan), side));
        }
        let Some(item) = pull(&mut self.right) else {
            return Ok(quiet(is_pinned(&self.plan), Then::WaitIn(side)));
        };
        if !hear(alloc, course, side, item, &mut self.said, &mut self.held)? {
            self.plan = None;
        }
        Ok(took(is_pinned(&self.plan), side))
    }

    // One turn: the first case that applies.
    pub(crate) fn turn(&mut self, alloc: Global) -> Result<Verdict, NoMemory>
        requires said { self.old.said ≡ [] }
        requires ordered { Ordered self.old.ended (plan_on self.old.plan) self.old.held }
        requires joined { IsJoined (plan_on self.old.plan) (rings self.old).left (rings self.old).right }
        ensures turns { IfOk result (λ v. Turns (seen self.old) (seen self.new) v) }
        ensures waits { IfOk result (λ v. WaitsFor v.then (knows self.new)) }
        ensures rings { rings self.new ≡ rings self.old }
        ensures bare { KeepsNone (rings self.old).output self.old.kept
            → KeepsNone (rings self.new).output self.new.kept }
        ensures said { OnOk result (self.new.said ≡ []) }
        ensures err { OnErr result ((self.old.ended ≡ false) × StaysOut self.old self.new) }
        ensures taken { OnErr result (RefusedTakes (seen self.old) (seen self.new)) }
        ensures cause { OnErr result (MayTakeMemory self.old.held (plan_on self.old.plan) (rings self.old).output) }
    {
        if !self.held.is_empty() {
            return self.put_oldest();
        }
        if self.ended {
            return Ok(quiet(false, Then::Exit));
        }
        self.go_on(alloc)
    }
}

// Whether the task is to be migration-disabled.
fn is_pinned<W: Work>(plan: &Option<Course<W>>) -> bool
    ensures { result ≡ pinned (plan_on plan.now) }
{
    match plan {
        None => false,
        Some(Course::Own(Plan::Pin { on, .. })) => *on,
        Some(Course::Own(_)) => false,
        Some(Course::Brought(work)) => {
            // The clauses of `side` say that a work has one side, and is no pin.
            let _side = work.side();
            false
        }
    }
}

fn is_end(item: &Item) -> bool
    ensures { result ≡ is_the_end item.now }
{
    matches!(item, Item::End)
}

ghost use Rattle.pipe_bodies.specs.Turns.{is_end as is_the_end};
ghost use Rattle.std.specs.Prelude.{None, Some, true};

fn quiet(pin: bool, next: Then) -> Verdict
    ensures { (result.read ≡ None) × (result.wrote ≡ false) × (result.then ≡ next) × (result.pin ≡ pin) }
{
    Verdict {
        read: None,
        wrote: false,
        pin,
        then: next,
    }
}

fn took(pin: bool, side: u32) -> Verdict
    ensures { (result.read ≡ Some side) × (result.wrote ≡ false) × (result.then ≡ More) × (result.pin ≡ pin) }
{
    Verdict {
        read: Some(side),
        wrote: false,
        pin,
        then: Then::More,
    }
}

ghost use Rattle.pipe_bodies.specs.declared.verdict.Then.TheVariants.{More};
