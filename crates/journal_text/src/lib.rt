//! The text of journals: written in one way, and read with some freedom.
//!
//! Reading: `fields.rt` (words, numbers), `keyword.rt`, `entries.rt`, `heading.rt` (the first lines), `draft.rt` (one
//! line onto what was read), `reading.rt`. Writing: `writing.rt`. Laws: `law.rt`.
//!
//! Each function has a definition of the same shape in `specs/`, so a body may change under it. The laws are proved
//! bottom up in `proofs/`: reading back by `Digits`, `Readback`, `MaskBack`, `EntryBack`, `LineBack`, `TextBack`; the
//! freedoms by `Runs` (a text is read where its lines make a whole), `LineChange`, `Alike` (fields that are read
//! alike), `FreeLines`, `FreeBlanks`, `FreeNumbers`; refusals by `Refusals`.
#![tactic(auto)]

mod draft;
mod entries;
mod fields;
mod heading;
mod keyword;
mod law;
mod reading;
mod writing;

pub use law::{
    blank_lines_are_free, blanks_are_free, freedoms_change_nothing, leading_zeros_are_free,
    mask_order_is_free, refused_lines_are_final, returns_are_free, texts_are_bounded,
    written_is_read,
};
pub use reading::{JournalError, TEXT_LIMIT, read_journal};
pub use writing::write_journal;

#[cfg(test)]
mod tests;
