use crate::line::Line;
use crate::no_memory::NoMemory;
use std::alloc::Global;
use std::collections::VecDeque;
use std::marker::Model;

/// A queue of lines, first in, first out. Contracts see it as the list of its lines, the oldest first.
#[derive(Drop)]
pub struct Lines {
    list: VecDeque<Line>,
}

impl Model for Lines {
    ghost use Rattle.std.specs.Prelude.{ℕ, List};

    ghost Value = { List (List ℕ) };

    ghost view = { λ l. l.list.items };
}

impl Lines {
    ghost use Rattle.std.specs.Prelude.{◌≡◌, ◌↔◌, [], ◌∷◌, ◌++◌, length, IsTrue, OnOk, OnErr, MatchOption};
    ghost use Rattle.std.specs.Prelude.{option_copied, slice_get};

    /// No lines. No memory is taken.
    pub fn new(alloc: Global) -> Lines
        ensures { result ≡ [] }
    {
        Lines {
            list: VecDeque::new(alloc),
        }
    }

    /// The lines of a `Vec`, for which no memory is taken.
    pub fn from_vec(list: Vec<Line>) -> Lines
        ensures { result ≡ list.items }
    {
        Lines {
            list: VecDeque::from_vec(list),
        }
    }

    /// Adds a line at the end. A refusal leaves the lines as they were. Answers `NoMemory` where memory runs out.
    pub fn push(&mut self, line: Line) -> Result<(), NoMemory>
        ensures ok { OnOk result (self.new ≡ self.old ++ line ∷ []) }
        ensures err { OnErr result (self.new ≡ self.old) }
    {
        self.list.push_back(line)?;
        Ok(())
    }

    /// Takes the first line out, if there is one.
    pub fn pop(&mut self) -> Option<Line>
        ensures { MatchOption result ((self.old ≡ []) × (self.new ≡ [])) (λ line. self.old ≡ line ∷ self.new) }
    {
        self.list.pop_front()
    }

    /// The line at a place, counted from 0, if there is one.
    pub fn get(&self, index: usize) -> Option<&Line>
        ensures { option_copied result ≡ slice_get self.now index }
    {
        self.list.get(index)
    }

    /// How many lines there are.
    pub fn len(&self) -> usize
        ensures { result ≡ length self.now }
    {
        self.list.len()
    }

    /// Whether there is no line.
    pub fn is_empty(&self) -> bool
        ensures { IsTrue result ↔ (length self.now ≡ 0) }
    {
        self.list.is_empty()
    }
}
