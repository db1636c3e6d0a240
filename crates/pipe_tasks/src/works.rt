// Works that are there for every caller.
ghost use Rattle.std.specs.Prelude.{◌≡◌, ◌≢◌, map};
ghost use Rattle.task_script.specs.Maps.{mapped_line};
ghost use Rattle.pipe_tasks.specs.Works.{swapped_byte, swap_map};

use crate::copies::copy_line;
use crate::work::Work;
use handoff_data::{Line, Lines, NoMemory};
use std::alloc::Global;

/// A work that puts out each line with the letters `a` to `z` and `A` to `Z` in the other case.
#[derive(Drop)]
pub struct Swap {
    alloc: Global,
}

impl Swap {
    ghost use Rattle.std.specs.Prelude.{◌≡◌};
    ghost use Rattle.pipe_tasks.specs.Works.{swap_plan};

    /// The work. No memory is taken.
    pub fn new(alloc: Global) -> Swap
        ensures { ⟦<Swap as Work>⟧.meaning result ≡ swap_plan }
    {
        Swap { alloc }
    }
}

impl Work for Swap {
    ghost use Rattle.pipe_tasks.specs.Works.{swap_plan};

    ghost meaning = { λ _. swap_plan };

    fn eat(&mut self, line: &Line, out: &mut Lines) -> Result<(), NoMemory> {
        out.push(swap_line(copy_line(self.alloc, line)?))
    }

    fn end(&mut self, _out: &mut Lines) -> Result<(), NoMemory> {
        Ok(())
    }

    fn has_one_side(&self) {}
}

/// A work that puts out each line, and a line of its own at the end.
#[derive(Drop)]
pub struct Closing {
    alloc: Global,
    last: Line,
}

impl Closing {
    ghost use Rattle.std.specs.Prelude.{◌≡◌};
    ghost use Rattle.pipe_tasks.specs.Works.{closing_plan};

    /// The work with its last line. No memory is taken.
    pub fn new(alloc: Global, last: Line) -> Closing
        ensures { ⟦<Closing as Work>⟧.meaning result ≡ closing_plan last }
    {
        Closing { alloc, last }
    }
}

impl Work for Closing {
    ghost use Rattle.pipe_tasks.specs.Works.{closing_plan};

    ghost meaning = { λ c. closing_plan c.last };

    #[tactic(auto, using(crate::proofs::WorkLaws::closing_laws))]
    fn eat(&mut self, line: &Line, out: &mut Lines) -> Result<(), NoMemory> {
        out.push(copy_line(self.alloc, line)?)
    }

    fn end(&mut self, out: &mut Lines) -> Result<(), NoMemory> {
        out.push(copy_line(self.alloc, &self.last)?)
    }

    fn has_one_side(&self) {}
}

// A letter in the other case, and every other byte itself.
#[tactic(auto, using(crate::proofs::WorkLaws::swap_laws))]
fn swap_byte(byte: u8) -> u8
    ensures byte { result ≡ swapped_byte byte }
    ensures no_feed { byte ≢ 10 → result ≢ 10 }
{
    if byte.is_ascii_lowercase() {
        byte - 32
    } else if byte.is_ascii_uppercase() {
        byte + 32
    } else {
        byte
    }
}

// Each byte with its letters in the other case.
#[tactic(auto, using(crate::proofs::WorkLaws::one_more))]
fn swap_bytes(bytes: &mut [u8])
    ensures { bytes.new ≡ map swapped_byte bytes.old }
{
    for byte in bytes.iter_mut() {
        *byte = swap_byte(*byte);
    }
}

// The line with its letters in the other case, in the memory that it has.
#[tactic(auto, using(crate::proofs::WorkLaws::swap_line_laws))]
fn swap_line(line: Line) -> Line
    ensures { result ≡ mapped_line swap_map line }
{
    let mut bytes = line.into_bytes();
    swap_bytes(bytes.as_mut_slice());
    Line::new(bytes)
}
