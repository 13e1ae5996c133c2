//! Operands, and the chains and paths that they stand in.

use serna_kinds::{Axis, NodeTest};
use sqlite_items::Items;
use xpath_tokens::Operator;
use xpath_trees::{Expr, PathStart, Step};

/// The chains of operators, the loosest first (XPath 1.0, section 3.4, 3.5 and 3.3).
#[derive(Clone, Copy, Debug)]
pub enum Level {
    Or,
    And,
    Equality,
    Relational,
    Additive,
    Multiplicative,
    Union,
}

/// A path so far.
#[derive(Drop)]
pub struct Path {
    pub start: PathStart,
    pub steps: Items<Step>,
}

/// The operand that was just read. It may still go on.
#[derive(Drop)]
pub enum Operand {
    /// `/` alone. A step may follow.
    Root,
    /// A path that ends in `.` or `..`.
    Abbreviated(Path),
    /// A step behind a path, with its predicates so far.
    Step(Path, Axis, NodeTest, Items<Expr>),
    /// Any other operand, with its predicates so far.
    Primary(Expr, Items<Expr>),
}

/// A chain that waits for its next operand: the first one, further ones, each with the operator before it, and the operator
/// behind the last of them. All operators are of one level.
#[derive(Drop)]
pub struct Chain {
    pub first: Expr,
    pub others: Items<(Operator, Expr)>,
    pub last: Operator,
}
