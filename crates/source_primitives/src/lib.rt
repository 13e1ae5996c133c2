//! The smallest changes of a source, what takes each back, and how places live through them: definitions and laws.
#![tactic(auto)]

pub mod laws;
mod primitive;

pub use primitive::{Begun, Caret, CaretPlace, Moves, Primitive, SubItem, Undoing};
