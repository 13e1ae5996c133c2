//! Transformations: what an instance gives, and the result that a stylesheet makes of a source.
#![tactic(auto)]

mod batch;
mod body;
mod laws;
mod matching;
mod nodes;
mod result;

pub use batch::transform;
pub use body::run_body;
pub use laws::{kept_results_make_the_whole, worked_example};
pub use result::RunResult;

#[cfg(test)]
mod tests;
