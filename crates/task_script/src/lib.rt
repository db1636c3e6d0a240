//! Scripts of text tasks: what a script is, and which bytes are one.
//!
//! `plan.rt`, `byte_map.rt`, `script.rt`, `lists.rt` are the types; `pieces.rt` has lines and words, `form.rt` the form
//! of a line, `names.rt` names in an ordered map, `reader.rt` the reader, of which one line is one step; `equal.rt`,
//! `law.rt`.
//!
//! `specs/Lines`, `Forms` and `Script` are the definition of a script, `Valid` says what each script is; `Reading` is
//! the reader's own, and no crate above cites it.
#![tactic(auto)]

mod byte_map;
mod equal;
mod form;
mod law;
mod lists;
mod names;
mod pieces;
mod plan;
mod reader;
mod script;

pub use byte_map::ByteMap;
pub use law::law_script;
pub use lists::{Sources, Tasks};
pub use plan::Plan;
pub use reader::{SCRIPT_LIMIT, read_script};
pub use script::{Script, ScriptError, ScriptFault, TaskDef};

#[cfg(test)]
mod tests;
