//! Content models, and whether a list of children is allowed by one.
//!
//! `Model::read` reads the declaration of an element's content in the syntax of XML 1.0, section 3.2, and
//! `Model::allows` says whether the children of an element, a list of symbols, are in the model's language. `Symbols`
//! gives each written name a number.
#![tactic(auto)]

mod builder;
mod matching;
mod model;
mod particle;
mod reader;
mod stack;
mod symbols;

pub use model::{Model, ModelFault, numbers_of_names, one_first_fault};
pub use particle::{Occurrence, Separator};
pub use symbols::{Symbols, number_laws};

/// No memory was left.
pub type NoMemory = std::alloc::AllocError;

#[cfg(test)]
mod tests;
