//! Results of transformations, with where each piece comes from, and the pages of lines that are made of them.
#![tactic(auto)]

mod filling;
mod fragments;
mod items;
mod origin;
mod pages;

pub use filling::assemble;
pub use fragments::Fragments;
pub use items::{Fragment, Item};
pub use origin::Origin;
pub use pages::{Face, Line, Page, Part, Run};

#[cfg(test)]
mod tests;
