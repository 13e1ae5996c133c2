//! What a source is: a tree of numbered nodes, its cells, paths and axes, when it is proper, and the text that the built-in rules
//! make of it.
//!
//! The crate is its definitions (`specs/`) and the laws on them; the functions here carry the laws.
#![tactic(auto)]

mod laws;

pub use laws::{
    cells_tell_the_source, document_order_is_strict, entries_are_in_document_order,
    five_axes_part_the_nodes, members_determine_a_list_in_order,
    names_of_a_proper_source_are_known, parent_undoes_child_and_attribute, proper_while_names_grow,
    worked_axes,
};
