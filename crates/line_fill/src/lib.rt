//! The lines of a paragraph.
//!
//! Lengths are in millipoints, thousandths of 1/72 inch. A text is cut into clusters (UAX 29), each as wide
//! as its columns (UAX 11), a column being half as wide as the font is high. A line takes as many words as
//! fit, else as many clusters as fit, else one cluster.
#![tactic(auto)]

mod clusters;
mod cuts;
mod filling;
pub mod laws;
mod para;
mod parts;
mod spans;
mod sums;
#[cfg(test)]
mod tests;

pub use filling::lines;
pub use para::{Align, Para};
