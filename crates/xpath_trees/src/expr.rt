//! Expressions as trees. A chain of operators of one level is one node, so that no chain makes a tree deeper.

ghost use Rattle.std.specs.Prelude.{◌≡◌};
ghost use Rattle.xpath_trees.specs.Functions.{takes_text, takes};

use serna_kinds::{Axis, Chars, CompareOp, NameId, NodeTest, TextFunction};
use sqlite_items::{Boxed, Items};

/// An operator on numbers (XPath 1.0, section 3.5). There is no `div`.
#[derive(Clone, Copy, Debug, PartialEq, Eq)]
pub enum ArithOp {
    Add,
    Subtract,
    Multiply,
    /// `mod`
    Remainder,
}

/// A function (XPath 1.0, section 4; XSLT 1.0, section 12.4).
#[derive(Clone, Copy, Debug, PartialEq, Eq)]
pub enum Function {
    Last,
    Position,
    Count,
    LocalName,
    NamespaceUri,
    Name,
    /// `string`
    Text,
    /// A function on strings.
    On(TextFunction),
    Boolean,
    Not,
    True,
    False,
    Number,
    Sum,
    Floor,
    Ceiling,
    Round,
    Current,
    GenerateId,
}

fn takes_text(function: TextFunction, count: usize) -> bool
    ensures { result ≡ takes_text function count }
{
    match function {
        TextFunction::Concat => 2 <= count,
        TextFunction::StartsWith => count == 2,
        TextFunction::Contains => count == 2,
        TextFunction::SubstringBefore => count == 2,
        TextFunction::SubstringAfter => count == 2,
        TextFunction::Substring => 2 <= count && count <= 3,
        TextFunction::StringLength => count <= 1,
        TextFunction::NormalizeSpace => count <= 1,
        TextFunction::Translate => count == 3,
    }
}

impl Function {
    /// Whether the function takes so many arguments.
    pub fn takes(self, count: usize) -> bool
        ensures { result ≡ takes self count }
    {
        match self {
            Function::Last => count == 0,
            Function::Position => count == 0,
            Function::Count => count == 1,
            Function::LocalName => count <= 1,
            Function::NamespaceUri => count <= 1,
            Function::Name => count <= 1,
            Function::Text => count <= 1,
            Function::On(text) => takes_text(text, count),
            Function::Boolean => count == 1,
            Function::Not => count == 1,
            Function::True => count == 0,
            Function::False => count == 0,
            Function::Number => count <= 1,
            Function::Sum => count == 1,
            Function::Floor => count == 1,
            Function::Ceiling => count == 1,
            Function::Round => count == 1,
            Function::Current => count == 0,
            Function::GenerateId => count <= 1,
        }
    }
}

/// The minus signs before an operand. More than two are as two where their number is even, and as one where it is odd: an
/// even number of signs makes a number of the operand and turns nothing else.
#[derive(Clone, Copy, Debug, PartialEq, Eq)]
pub enum Signs {
    Once,
    Twice,
}

/// Where a path begins.
#[cycle(expr)]
#[derive(Drop)]
pub enum PathStart {
    /// At the node that the expression is valued at.
    Context,
    /// At the root of that node's document.
    Root,
    /// At the nodes that an expression gives.
    From(Boxed<Expr>),
}

/// A location step (XPath 1.0, section 2.1).
#[cycle(expr)]
#[derive(Drop)]
pub struct Step {
    pub axis: Axis,
    pub test: NodeTest,
    pub predicates: Items<Expr>,
}

/// An expression (XPath 1.0, section 3). The operands of a chain group to the left.
#[cycle(expr)]
#[derive(Drop)]
pub enum Expr {
    /// Operands joined by `or`, two or more.
    Or(Items<Expr>),
    /// Operands joined by `and`, two or more.
    And(Items<Expr>),
    /// A first operand and further ones, one or more, each behind its comparison: either `=` and `!=` alone or the others alone.
    Compare(Boxed<Expr>, Items<(CompareOp, Expr)>),
    /// A first operand and further ones, one or more, each behind its operator on numbers: either `+` and `-` alone or the
    /// others alone.
    Arith(Boxed<Expr>, Items<(ArithOp, Expr)>),
    Negate(Signs, Boxed<Expr>),
    /// Operands joined by `|`, two or more.
    Union(Items<Expr>),
    /// Steps from a start. Only from the root there may be none.
    Path(PathStart, Items<Step>),
    /// An expression that is no path with its predicates, one or more.
    Filter(Boxed<Expr>, Items<Expr>),
    Text(Chars),
    Number(u64),
    Variable(NameId),
    Call(Function, Items<Expr>),
}
