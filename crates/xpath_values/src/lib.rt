//! The arithmetic of XPath 1.0 without trees: values and their conversions, numbers, comparisons and the
//! string functions. Nodes come in as their string-values, and numbers are whole.
#![tactic(auto)]

mod call;
mod comparisons;
mod draft;
mod laws;
mod number;
mod numerals;
mod side;
mod texts;
mod value;

pub use call::call_text;
pub use comparisons::compare;
pub use laws::{comparisons_agree, numbers_and_texts, remainders, string_functions};
pub use number::Num;
pub use numerals::{number_text, sum, to_number};
pub use value::{Binding, Operand, Value, to_truth, truth_text};

#[cfg(test)]
mod tests;
