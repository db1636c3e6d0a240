use handoff_data::NoMemory;
use std::alloc::Global;
use std::collections::BTreeMap;
use std::marker::Model;

/// Names in the order in which they were added, each with the number of its first place. Contracts see it as their
/// list. A name is a part of the input, so that none is copied.
#[derive(Drop)]
pub struct Names<'a> {
    list: Vec<&'a [u8]>,
    numbers: BTreeMap<&'a [u8], usize>,
}

impl<'a> Model for Names<'a> {
    ghost use Rattle.std.specs.Prelude.{List, ℕ, map};
    ghost use Rattle.task_script.specs.Names.{texts, AreNumbered};

    ghost Value = { List (List ℕ) };

    ghost view = { λ n. texts n.list.items };

    ghost invariant = { λ n. AreNumbered n.list.items n.numbers };
}

impl<'a> Names<'a> {
    ghost use Rattle.std.specs.Prelude.{◌≡◌, ◌==◌, [], ◌∷◌, ◌++◌, length, OnOk, OnErr};
    ghost use Rattle.std.specs.List.{list_any};
    ghost use Rattle.std.specs.Str.{bytes_eq};
    ghost use Rattle.task_script.specs.Script.{number_of};

    /// No names.
    pub fn new(alloc: Global) -> Names<'a>
        ensures { result ≡ [] }
    {
        Names {
            list: Vec::new(alloc),
            numbers: BTreeMap::new(alloc),
        }
    }

    /// How many names there are.
    pub fn len(&self) -> usize
        ensures { result ≡ length self.now }
    {
        self.list.len()
    }

    /// Whether there is none.
    pub fn is_empty(&self) -> bool
        ensures { result ≡ (length self.now == 0) }
    {
        self.list.is_empty()
    }

    /// The number of a name, from 0, if it is there.
    pub fn number_of(&self, name: &[u8]) -> Option<usize>
        ensures { result ≡ number_of self.now name.now }
    {
        self.numbers.get(name).copied()
    }

    /// Whether a name is there.
    pub fn contains(&self, name: &[u8]) -> bool
        ensures { result ≡ list_any (λ other. bytes_eq other name.now) self.now }
    {
        self.numbers.contains_key(name)
    }

    /// Adds a name at the end. One that is there already keeps its first number. Answers `NoMemory` where memory runs
    /// out.
    pub fn push(&mut self, name: &'a [u8]) -> Result<(), NoMemory>
        ensures ok { OnOk result (self.new ≡ self.old ++ name.now ∷ []) }
        ensures err { OnErr result (self.new ≡ self.old) }
    {
        if self.numbers.contains_key(name) {
            self.list.push(name)?;
            return Ok(());
        }
        let number = self.list.len();
        self.list.push(name)?;
        if self.numbers.insert(name, number).is_err() {
            self.list.pop();
            return Err(NoMemory);
        }
        Ok(())
    }
}
