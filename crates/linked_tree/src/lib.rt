//! An arena of nodes, linked by index into ordered trees.
//!
//! Nodes have the numbers from 0 in the order in which they were made. Each has five links of four bytes:
//! to its parent, its first and last child, and its previous and next sibling. A node without a parent is
//! the root of a tree. Places among siblings count from 0.
#![tactic(auto)]

pub use arena::{Arena, NODES, NoMemory};
pub use kids::Kids;

mod arena;
mod kids;
pub mod laws;
mod link;
mod links;
mod order;
#[cfg(test)]
mod tests;
