//! The types that every other crate speaks of: texts, names, nodes, the cells of a source and their
//! values, and the tape on which an evaluation notes the cells that it reads.
#![tactic(auto)]

mod blanks;
mod cells;
mod chars;
mod expressions;
mod names;
mod qualified;
mod tape;

pub use blanks::{is_blank, is_space};
pub use cells::{AttrPair, Cell, CellValue, Facet, Kind, NameId, NodeName, NodeRef, SourceView};
pub use chars::Chars;
pub use expressions::{Axis, CompareOp, NodeTest, TextFunction};
pub use names::{Name, NameTable, Spaces, XML_URI};
pub use qualified::{WrittenName, begins_name, continues_name, is_digit, is_name, parted};
pub use sqlite_items::Items;
pub use tape::Tape;

/// Want of memory: the one answer that any call which takes memory may give.
pub type NoMemory = std::alloc::AllocError;

#[cfg(test)]
mod tests;
