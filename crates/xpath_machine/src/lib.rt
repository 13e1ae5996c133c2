//! Reads lists of tokens by a machine, for any grammar: a tree, or the first token with which no tree's tokens can go on.
#![tactic(auto)]

mod reading;

pub use reading::{MOST_OPEN, Machine, parse};
pub use serna_kinds::NoMemory;
