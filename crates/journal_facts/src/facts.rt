use crate::fact::Fact;
use std::marker::Model;

/// Facts in their order. Contracts see them as that list.
#[derive(Debug, Drop)]
pub struct Facts {
    pub(crate) items: Vec<Fact>,
}

impl Model for Facts {
    ghost use Rattle.std.specs.Prelude.{List, IsSorted};
    ghost use Rattle.journal_facts.specs.declared.fact.Fact.{Fact};

    ghost Value = { List Fact };

    ghost use Rattle.journal_facts.specs.Facts.{fact_cmp};

    ghost view = { λ f. f.items.items };

    ghost invariant = { λ f. IsSorted fact_cmp f.items.items };
}

impl Facts {
    ghost use Rattle.std.specs.Prelude.{◌≡◌, IsPermutation, IsSorted};
    ghost use Rattle.journal_facts.specs.Facts.{fact_cmp};

    /// Sorts the facts, in time n log n, and takes no memory.
    pub fn sorted(facts: Vec<Fact>) -> Facts
        ensures { IsPermutation facts.items result }
    {
        let mut items = facts;
        items.sort_unstable();
        Facts { items }
    }

    /// The facts in their order.
    pub fn as_slice(&self) -> &[Fact]
        ensures items { result.now ≡ self.now }
        ensures sorted { IsSorted fact_cmp self.now }
    {
        self.items.as_slice()
    }
}
