// The body of a task.
use crate::held::Held;
use crate::item::Item;
use crate::parts::{Course, Parts};
use crate::verdict::Verdict;
use boxcar::tag::{Names, Tag};
use handoff_data::{Lines, NoMemory, TaskNo};
use pipe_tasks::{Work, feeding_gives_lines};
use rtrb::{Consumer, Producer};
use std::alloc::Global;
use std::marker::Model;

/// What a task does: it takes items, and puts out what its plan says.
#[derive(Drop)]
pub struct Body<W: Work> {
    task: TaskNo,
    alloc: Global,
    broken: bool,
    parts: Parts<W>,
    // The plan at build, which only contracts read.
    origin: Tag,
}

impl<W: Work> Model for Body<W> {
    ghost use Rattle.pipe_bodies.specs.Bodies.{BodyView};

    ghost Value = { BodyView };

    ghost use Rattle.pipe_bodies.specs.Inside.{view_of, IsBody};

    ghost view = { view_of };

    ghost invariant = { IsBody };
}

// How the plan of a course is read off it.
struct PlanNumbers;

impl<W: Work> Names<Course<W>> for PlanNumbers {
    ghost use Rattle.pipe_bodies.specs.Codes.{plan_code};
    ghost use Rattle.pipe_bodies.specs.Courses.{plan_in};

    ghost numbers = { λ c. plan_code (plan_in c) };
}

impl<W: Work> Body<W> {
    ghost use Rattle.std.specs.Prelude.{◌≡◌, [], IfOk, IsOk, OnOk, OnErr, IsErr, Some, true, false};
    ghost use Rattle.rtrb.specs.Ring.{sent, known_free, producer_capacity};
    ghost use Rattle.pipe_bodies.specs.Courses.{plan_in};
    ghost use Rattle.pipe_bodies.specs.Rings.{in_ring, ring_out, got, known};
    ghost use Rattle.pipe_bodies.specs.Bodies.{lasting_by, joined_by, IsFresh};
    ghost use Rattle.pipe_bodies.specs.Turns.{Turns, Sound, WaitsFor, RefusedTakes};
    ghost use Rattle.pipe_bodies.specs.declared.verdict.Then.TheVariants.{Exit};
    ghost use Rattle.pipe_bodies.specs.Parts.{seen, rings, IsJoined, KeepsNone, MayTakeMemory};

    // A body that has done nothing, and that nobody reads yet.
    pub(crate) fn new(
        alloc: Global,
        task: TaskNo,
        course: Course<W>,
        left: Option<Consumer<Item>>,
        right: Option<Consumer<Item>>,
    ) -> Body<W>
        requires joined { IsJoined (Some (plan_in course)) (in_ring left) (in_ring right) }
        requires empty { (got left ≡ []) × (got right ≡ []) × (known left ≡ []) × (known right ≡ []) }
        ensures lasting { result.lasting ≡ lasting_by task (plan_in course) (in_ring left) (in_ring right) }
        ensures fresh { IsFresh result }
    {
        let origin = Tag::of::<Course<W>, PlanNumbers>(&course);
        let parts = Parts {
            left,
            right,
            output: None,
            kept: Lines::new(alloc),
            said: Lines::new(alloc),
            held: Held::new(alloc),
            plan: Some(course),
            ended: false,
        };
        Body {
            task,
            alloc,
            broken: false,
            parts,
            origin,
        }
    }

    // The ring that another task reads from now on.
    pub(crate) fn join(&mut self, producer: Producer<Item>)
        requires fresh { IsFresh self.old }
        requires empty { (sent producer ≡ []) × (known_free producer ≡ producer_capacity producer) }
        ensures lasting { self.new.lasting ≡ joined_by self.old.lasting (ring_out producer) }
        ensures fresh { IsFresh self.new }
    {
        self.parts.output = Some(producer);
    }

    /// One turn, which does the first of these that applies: the oldest held item is put out; the task is done where
    /// its end was put out; a source makes its next item; an item is taken from the side that the plan wants. What the
    /// plan says for it is held.
    ///
    /// A turn may be refused memory only where it keeps a line, or makes or takes an item. What was put out then stays
    /// as it was, and so does the whole body from then on: every later turn is refused.
    #[tactic(auto, using(crate::proofs::BodyLaws::body_laws))]
    pub fn turn(&mut self) -> Result<Verdict, NoMemory>
        ensures turns { IfOk result (λ v. Turns self.old.seen self.new.seen v) }
        ensures waits { IfOk result (λ v. WaitsFor v.then self.new.known) }
        ensures exit { IfOk result (λ v. v.then ≡ Exit → self.new.seen.ended ≡ true) }
        ensures over { self.old.seen.ended ≡ true → IsOk result × IfOk result (λ v. v.then ≡ Exit) }
        ensures lasting { self.new.lasting ≡ self.old.lasting }
        ensures ended { self.old.seen.ended ≡ true → self.new.seen.ended ≡ true }
        ensures broken { self.old.broken ≡ true → IsErr result × (self.new ≡ self.old) }
        ensures sound { OnOk result (self.new.broken ≡ false) }
        ensures err { OnErr result (self.new.broken ≡ true) }
        ensures out { OnErr result ((self.new.seen.out ≡ self.old.seen.out) × (self.new.kept ≡ self.old.kept)
            × (self.new.seen.ended ≡ self.old.seen.ended) × (self.new.known.free ≡ self.old.known.free)) }
        ensures taken { OnErr result (self.old.broken ≡ false → RefusedTakes self.old.seen self.new.seen) }
        ensures cause { OnErr result (self.old.broken ≡ false
            → MayTakeMemory self.old.seen.held self.old.seen.plan self.old.lasting.rings.output) }
    {
        if self.broken {
            return Err(NoMemory);
        }
        feeding_gives_lines();
        match self.parts.turn(self.alloc) {
            Ok(verdict) => Ok(verdict),
            Err(_) => {
                self.broken = true;
                Err(NoMemory)
            }
        }
    }

    // The parts of a body, and what is known of one that has ended.
    pub(crate) fn apart(self) -> Parts<W>
        ensures seen { seen result ≡ self.seen }
        ensures rings { rings result ≡ self.lasting.rings }
        ensures kept { result.kept ≡ self.kept }
        ensures sound { self.seen.ended ≡ true → Sound self.lasting.begun self.seen }
        ensures bare { KeepsNone self.lasting.rings.output self.kept }
    {
        let Body {
            task: _,
            alloc: _,
            broken: _,
            parts,
            origin: _,
        } = self;
        parts
    }

    /// Whether the end was put out.
    pub fn has_ended(&self) -> bool
        ensures { result ≡ self.now.seen.ended }
    {
        self.parts.ended
    }

    /// The lines that were put out where nobody reads.
    pub fn kept(&self) -> &Lines
        ensures { result.now ≡ self.now.kept }
    {
        &self.parts.kept
    }
}
