//! The variables of a stylesheet's outermost element.

use crate::expr::Expr;
use serna_kinds::{Chars, Items, NameId};

/// What a top-level variable is bound to (XSLT 1.0, section 11.4).
#[derive(Drop)]
pub enum GlobalBody {
    /// The value of an expression at the root of the source.
    Select(Expr),
    /// A text.
    Text(Chars),
}

/// A top-level variable. Its body names only variables that stand before it in the list of all.
#[derive(Drop)]
pub struct Global {
    pub name: NameId,
    pub body: GlobalBody,
}

/// The top-level variables, each of another name, in an order in which they can be valued.
pub type Globals = Items<Global>;
