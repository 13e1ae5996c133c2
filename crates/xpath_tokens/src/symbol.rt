//! Tokens as the grammar sees them.

use serna_kinds::{Axis, CompareOp, NodeTest};
use xpath_trees::{ArithOp, Expr, Function};

/// An operator that stands between two operands.
#[derive(Clone, Copy, Debug)]
pub enum Operator {
    Or,
    And,
    Compare(CompareOp),
    Arith(ArithOp),
    Union,
}

/// A token, with the part of the tree that it stands for by itself.
#[derive(Drop)]
pub enum Symbol {
    /// A literal, a number or a variable.
    Atom(Expr),
    /// A name, `*` or `p:*` as a node test.
    Test(NodeTest),
    /// A node type before its `(`.
    NodeType(NodeTest),
    /// A function's name before its `(`.
    Callee(Function),
    /// An axis before its `::`.
    AxisName(Axis),
    Operator(Operator),
    Slash,
    DoubleSlash,
    Open,
    Close,
    OpenBracket,
    CloseBracket,
    Comma,
    Colons,
    At,
    Dot,
    DotDot,
    /// What can stand nowhere.
    Wrong,
}
