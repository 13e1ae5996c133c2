//! Stylesheets: their rules and bodies, as they are read from the trees of their modules.
#![tactic(auto)]

mod laws;
mod names;
mod order;
mod reader;
mod reading;
mod style;
mod texts;

pub use laws::{comments, lines_do_not_show, one_style, places, white_space};
pub use reading::{Module, StyleFault, compile};
pub use style::{Body, Choice, Instruction, Pattern, Rule, Style};

#[cfg(test)]
mod tests;
