use crate::item::Item;
use handoff_data::NoMemory;
use std::alloc::Global;
use std::collections::VecDeque;
use std::marker::Model;

// Items that are still to be put out, the oldest first. The oldest stands apart, so that a line that is held alone goes
// through no queue.
#[derive(Drop)]
pub(crate) struct Held {
    first: Option<Item>,
    later: VecDeque<Item>,
}

impl Model for Held {
    ghost use Rattle.std.specs.Prelude.{List};
    ghost use Rattle.pipe_bodies.specs.declared.item.Item.{Item};
    ghost use Rattle.pipe_bodies.specs.Items.{first_and};

    ghost Value = { List Item };

    ghost view = { λ h. first_and h.first h.later.items };
}

impl Held {
    ghost use Rattle.std.specs.Prelude.{◌≡◌, ◌↔◌, [], ◌∷◌, ◌++◌, IsTrue, OnOk, MatchOption};

    pub(crate) fn new(alloc: Global) -> Held
        ensures { result ≡ [] }
    {
        Held {
            first: None,
            later: VecDeque::new(alloc),
        }
    }

    pub(crate) fn is_empty(&self) -> bool
        ensures { IsTrue result ↔ (self.now ≡ []) }
    {
        self.first.is_none() && self.later.is_empty()
    }

    pub(crate) fn push(&mut self, item: Item) -> Result<(), NoMemory>
        ensures { OnOk result (self.new ≡ self.old ++ item ∷ []) }
    {
        if self.is_empty() {
            self.first = Some(item);
            return Ok(());
        }
        self.later.push_back(item)?;
        Ok(())
    }

    pub(crate) fn pop(&mut self) -> Option<Item>
        ensures { MatchOption result ((self.old ≡ []) × (self.new ≡ [])) (λ item. self.old ≡ item ∷ self.new) }
    {
        match self.first.take() {
            Some(item) => Some(item),
            None => self.later.pop_front(),
        }
    }
}
