//! What an editor did and undid: two stacks of changes.
//!
//! A change that is made is pushed, an undo moves it to the changes that can be redone, and a redo moves it back. That
//! these lead from a source to the present one, and back to it, is told by the laws.
#![tactic(auto)]

mod change;
mod history;
pub mod laws;
#[cfg(test)]
mod tests;

pub use change::Change;
pub use history::{History, NothingToRedo, NothingToUndo};
