//! The eleven rules of journals, decided for one entry after another by the facts that all entries tell, and whether
//! tasks have ended.
//!
//! A file a group of rules, over small questions in the words of the rules (`asked.rt`): `ranges.rt` has rule 1,
//! `numbers.rt` 2, `causes.rt` 3 and 4, `rises.rt` 5, `runs.rt` 6, `leaves.rt` 7, `listings.rt` 8 with a mark a waker
//! (`marks.rt`), `turns.rt` 9, `masks.rt` 10 and 11; `ends.rt` whether a task has ended. A rule may change without the
//! others.
#![tactic(auto)]

mod asked;
mod causes;
mod ends;
mod entries;
mod lasts;
mod leaves;
mod listings;
mod marks;
mod masks;
mod numbers;
mod ranges;
mod rises;
mod runs;
mod turns;

pub use asked::{is_end, is_finish};
pub use causes::{caused, chained};
pub use ends::has_ended;
pub use entries::{change_of, entry_at, run_of};
pub use leaves::leaves_while_running;
pub use listings::{listed_in_order, no_marks, note_taken};
pub use marks::Mark;
pub use masks::{done_stood, masked_and_stood};
pub use numbers::not_repeated;
pub use ranges::in_range;
pub use rises::rises_in_journal;
pub use runs::runs_alternate;
pub use turns::outage_leaves_none;

#[cfg(test)]
mod tests;
