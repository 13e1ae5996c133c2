//! Instances of templates: what each is asked for.
#![tactic(auto)]

mod request;

pub use request::{Asked, Call, Place, Request};

#[cfg(test)]
mod tests;
