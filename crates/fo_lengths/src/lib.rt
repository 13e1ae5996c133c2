//! The values that attributes of formatting objects hold: lengths, colours, numbers and whole numbers.
//!
//! Each reader takes the text of an attribute and answers its value, or `BadValue` exactly where the text
//! is outside the grammar. Spaces (U+0020) at the ends of a text do not count. No call takes memory.
#![tactic(auto)]

mod bad_value;
mod colors;
mod decimal;
mod laws;
mod lengths;
mod numbers;
mod scan;
mod unit;
mod whole;

pub use bad_value::BadValue;
pub use colors::read_color;
pub use laws::{at_most_one_value, units_agree};
pub use lengths::{Length, read_length};
pub use numbers::read_number;
pub use scan::trimmed;
pub use whole::read_whole;

#[cfg(test)]
mod tests;
