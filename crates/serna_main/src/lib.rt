//! The top call of the program: from the bytes of an input to the bytes of its answers.
#![tactic(auto)]

mod opening;
mod read;
mod run;
mod sections;
mod status;
#[cfg(test)]
mod tests;
mod top;

pub use status::Status;
pub use top::serna_alone;
