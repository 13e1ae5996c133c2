//! Expressions of XPath 1.0 and patterns of XSLT 1.0, read from their text into trees, with the first fault of a text that is
//! none.
#![tactic(auto)]

mod laws;
mod pattern_laws;
mod pattern_paths;
mod pattern_reader;
mod pattern_state;
mod pattern_step;
mod reader;

pub use laws::{one_tree, readings_are_shallow, readings_are_well_formed};
pub use pattern_laws::{one_pattern, pattern_readings_are_readings, patterns_are_expressions};
pub use pattern_reader::read_pattern;
pub use reader::{ExprFault, read_expr};
pub use serna_kinds::NoMemory;
pub use xpath_tokens::ExprRule;
pub use xpath_trees::{Alternative, ArithOp, Expr, Function, PathStart, Pattern, Signs, Step};
