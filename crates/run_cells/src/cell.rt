//! Bodies as the shared table keeps them.
ghost use Rattle.std.specs.Prelude.{◌≡◌, map, true, IfOk, None};
ghost use Rattle.pipe_bodies.specs.Bodies.{BodyView};
ghost use Rattle.pipe_bodies.specs.Lastings.{lasting_code};
ghost use Rattle.run_cells.specs.Ends.{body_of};

use handoff_data::{CondNo, NoMemory};
use pipe_bodies::{Body, Verdict, Work};
use std::alloc::Global;
use std::marker::Model;
use task_words::Kept;

/// A body in a box of its own: what takes it out of the table, or home, moves no more than its address. Contracts see
/// the body itself.
#[derive(Drop)]
pub struct BodyBox<W: Work> {
    inner: Box<Body<W>>,
}

impl<W: Work> Model for BodyBox<W> {
    ghost use Rattle.pipe_bodies.specs.Bodies.{BodyView};

    ghost Value = { BodyView };

    ghost view = { λ b. b.inner.value };
}

impl<W: Work> BodyBox<W> {
    ghost use Rattle.std.specs.Prelude.{◌≡◌, true, IfOk};
    ghost use Rattle.pipe_bodies.specs.Turns.{Turns};
    ghost use Rattle.pipe_bodies.specs.declared.verdict.Then.TheVariants.{Exit};

    /// A body in a box. Answers `NoMemory` where memory runs out.
    pub fn new(alloc: Global, body: Body<W>) -> Result<BodyBox<W>, NoMemory>
        ensures { IfOk result (λ b. b ≡ body) }
    {
        let inner = Box::new(alloc, body)?;
        Ok(BodyBox { inner })
    }

    /// One turn of the body, as by `Body::turn`, which answers `NoMemory` where memory runs out.
    pub fn turn(&mut self) -> Result<Verdict, NoMemory>
        ensures turns { IfOk result (λ v. Turns self.old.seen self.new.seen v) }
        ensures exit { IfOk result (λ v. v.then ≡ Exit → self.new.seen.ended ≡ true) }
        ensures lasting { self.new.lasting ≡ self.old.lasting }
        ensures ended { self.old.seen.ended ≡ true → self.new.seen.ended ≡ true }
    {
        self.inner.turn()
    }

    /// Whether the body has put out its end.
    pub fn has_ended(&self) -> bool
        ensures { result ≡ self.now.seen.ended }
    {
        self.inner.has_ended()
    }

    /// The body, out of its box.
    pub fn into_inner(self) -> Body<W>
        ensures { result ≡ self }
    {
        let BodyBox { inner } = self;
        Box::into_inner(inner)
    }
}

/// A body, and where its task waits: the condition, and the value of it with which the task last went to sleep.
#[derive(Drop)]
pub struct Cell<W: Work> {
    pub body: BodyBox<W>,
    pub on: Option<(CondNo, u64)>,
}

impl<W: Work> Kept for Cell<W> {
    ghost use Rattle.pipe_bodies.specs.Lastings.{lasting_code};

    ghost lasting = { λ c. lasting_code c.body.lasting };

    ghost ended = { λ c. c.body.seen.ended };
}

/// The cells of bodies whose tasks wait nowhere, in the same order, or NoMemory.
pub fn into_cells<W: Work>(alloc: Global, bodies: Vec<Body<W>>) -> Result<Vec<Cell<W>>, NoMemory>
    ensures bodies { IfOk result (λ r. map body_of r.items ≡ bodies.items) }
{
    let mut cells = Vec::with_capacity(alloc, bodies.len())?;
    for body in bodies {
        let body = BodyBox::new(alloc, body)?;
        cells.push(Cell { body, on: None })?;
    }
    Ok(cells)
}

/// The bodies of cells, in the same order, or NoMemory.
pub fn into_bodies<W: Work>(alloc: Global, cells: Vec<Cell<W>>) -> Result<Vec<Body<W>>, NoMemory>
    ensures bodies { IfOk result (λ r. r.items ≡ map body_of cells.items) }
{
    let mut bodies = Vec::with_capacity(alloc, cells.len())?;
    for cell in cells {
        let Cell { body, on: _ } = cell;
        bodies.push(body.into_inner())?;
    }
    Ok(bodies)
}
