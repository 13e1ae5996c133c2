//! Expressions of XPath 1.0 and patterns of XSLT 1.0 as trees.
#![tactic(auto)]

mod copy;
mod expr;
mod globals;
mod pattern;

pub use expr::{ArithOp, Expr, Function, PathStart, Signs, Step};
pub use globals::{Global, GlobalBody, Globals};
pub use pattern::{Alternative, Pattern};
pub use serna_kinds::NoMemory;
