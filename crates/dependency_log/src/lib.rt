//! Which cells each slot of the editor's core read, and which slots read a cell.
//!
//! Each pair of a slot and a cell is one edge, which stands in the list of its cell and in that of its slot.
#![tactic(auto)]

pub use log::{Log, NoMemory};
pub use slots::Slots;

mod edges;
pub mod laws;
mod log;
mod slots;
#[cfg(test)]
mod tests;
