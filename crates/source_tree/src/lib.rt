//! The source of a document in memory: its nodes under their numbers, and what can be asked of them.
#![tactic(auto)]

mod begin;
mod laws;
mod lines;
mod staged;
mod tree;

pub use laws::{
    a_begun_source_is_writable, a_tree_begins_its_own_document,
    documents_of_proper_sources_are_whole, lines_do_not_show, printable_while_names_grow,
    printing_reads_back, typing_keeps_a_source_writable,
};
pub use staged::Staged;
pub use tree::SourceTree;

#[cfg(test)]
mod tests;
