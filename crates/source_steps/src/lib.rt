//! The smallest changes of a source as changes of its cells, each with what takes it back.
#![tactic(auto)]

mod attributes;
mod changes;
mod children;
mod difference;
mod putting;
mod read;
mod run;
mod step;
mod taking;
mod text;

pub use attributes::copied_pairs;
pub use children::whole_document;
pub use difference::Difference;
pub use read::{Said, body_at, kids_in};
pub use run::Run;
pub use step::Step;
