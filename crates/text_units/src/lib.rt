//! The units of a text: its clusters, which a caret steps over, the columns that they take, and the
//! boundaries between them.
//!
//! A text is a `&str`, and a place in it counts bytes from its start and stands between two of its
//! characters. Clusters are the extended grapheme clusters of UAX 29. Nothing here takes memory.
#![tactic(auto)]

pub use segments::Clusters;
pub use stops::{next_stop, prev_stop, snap};
pub use units::{clusters, columns};

pub mod laws;
mod segments;
mod stops;
#[cfg(test)]
mod tests;
mod units;
