//! Expressions of XPath 1.0, written so that they read back as themselves.
#![tactic(auto)]

mod chains;
mod laws;
mod names;
mod steps;
mod words;
mod write;

pub use laws::writing_reads_back;
pub use serna_kinds::NoMemory;
pub use write::write_expr;
