//! How pages are printed, and how what is printed is offered to a sink.
#![tactic(auto)]

mod faces;
mod lines;
mod offers;
mod print;

pub use offers::offer;
pub use print::{page_text, plain_text};

#[cfg(test)]
mod tests;
