//! Maps from the cells of a source to their values that never change once they are made, and share what they have in
//! common.
//!
//! A map with some cells changed costs a copy of three short lists and of one node's cells for each changed node, whatever the map's
//! size. Each cell has a stamp beside its value: the revision of the last change that named it. Nothing here waits.
#![tactic(auto)]

mod frozen;
mod kept;
pub mod laws;
mod node;
mod revisions;
mod shelf;

pub use frozen::Frozen;
pub use kept::{CellChange, KeptValue, SharedItems};
pub use revisions::{Kept, Revisions};

#[cfg(test)]
mod tests;
