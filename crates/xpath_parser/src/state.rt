//! The reader of an expression between two tokens.

use serna_kinds::{Axis, NodeTest};
use sqlite_items::Items;
use xpath_grammar::{Chain, Operand, Path};
use xpath_tokens::Stack;
use xpath_trees::{Expr, Function, Signs};

/// What waits for the operand that comes next.
#[derive(Drop)]
pub enum Pending {
    Chain(Chain),
    Minus(Signs),
    /// `(`
    Group,
    /// A call with its arguments so far.
    Call(Function, Items<Expr>),
    /// The operand whose predicate is being read.
    Predicate(Operand),
}

/// What is wanted next.
#[derive(Drop)]
pub enum Place {
    Operand,
    /// An operand or the `)` of a call without arguments.
    Argument,
    /// The `(` of a call.
    Callee(Function),
    /// A step.
    Step(Path),
    /// The `::` of an axis.
    Axis(Path, Axis),
    /// A node test.
    Test(Path, Axis),
    /// The `(` of a node type.
    NodeOpen(Path, Axis, NodeTest),
    /// The `)` of a node type.
    NodeClose(Path, Axis, NodeTest),
    /// Nothing: an operand was read.
    Behind(Operand),
}

/// Where the reader stands, and what waits, the innermost first.
#[derive(Drop)]
pub struct State {
    pub place: Place,
    pub stack: Stack<Pending>,
}
