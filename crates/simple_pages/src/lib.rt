//! The pages of a result before there is layout.
#![tactic(auto)]

mod groups;
mod pages;
mod runs;

pub use pages::{Laid, lay_out};

#[cfg(test)]
mod tests;
