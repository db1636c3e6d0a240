//! The rule of the table.
ghost use Rattle.word_table.specs.Ruled.{Ruled, first_view};

use crate::slot::{Key, Slot};
use crate::view::View;
use atomic_table::{Table, TableRule};
use handoff_data::Kept;
use std::alloc::Global;
use std::marker::PhantomData;

/// What holds between any two steps (`specs/Ruled`).
pub struct Rule<B> {
    of: PhantomData<B>,
}

impl<B: Kept> TableRule<Slot<B>, View, Key<B>> for Rule<B> {
    ghost holds = { Ruled B.lasting B.ended };

    ghost first = { first_view B.lasting };
}

pub type Board<B> = Table<Slot<B>, View, Key<B>, Rule<B>, Global>;
