//! The arithmetic of tables: how wide the columns are, where the cells stand, how high the rows are.
//!
//! Widths and heights are in millipoints, thousandths of 1/72 inch. Each counts from 0 to 10^18: one below
//! 0 counts as 0, and one past 10^18 as 10^18. Rows and columns are counted from 0.
#![tactic(auto)]

mod cells;
mod heights;
pub mod laws;
mod sizes;
#[cfg(test)]
mod tests;
mod widths;

pub use cells::{GridCell, Span, grid};
pub use heights::row_heights;
pub use widths::{ColumnWidth, columns};
