//! Tree lines: the form in which documents, stylesheets and schemas come, its reader and its writer.
#![tactic(auto)]

mod declarations;
mod draft;
mod keys;
mod laws;
mod read;
mod reader;
mod rules;
mod tags;
mod texts;
mod tree;
mod write;

pub use laws::{
    documents_are_named, documents_are_whole, elements_are_written_in_parts,
    escapes_keep_texts_apart, faultless_lines_are_a_document, lines_say_the_document,
    numbers_are_of_lines_alone, reading_writes_back, what_was_read_is_writable, worked_faults,
    writing_reads_back,
};
pub use read::read_tree;
pub use rules::{LineFault, LineRule};
pub use texts::unescape;
pub use tree::{Line, Tree, TreeItem};
pub use write::{TreeWriter, write_tree};

#[cfg(test)]
mod tests;
#[cfg(test)]
mod write_tests;
