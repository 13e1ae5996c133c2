//! The choice of a template rule: which one answers what is asked for.
#![tactic(auto)]

mod choice;
mod laws;
mod matcher;

pub use choice::choose;
pub use laws::the_greatest_is_chosen;
pub use matcher::Matcher;

#[cfg(test)]
mod tests;
