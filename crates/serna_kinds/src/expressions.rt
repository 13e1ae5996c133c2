//! Words of expressions that several crates speak of (XPath 1.0).
ghost use Rattle.std.specs.Prelude.{◌≡◌, IfOk};

use crate::{Chars, NameId};
use std::alloc::AllocError;

/// A comparison of two values (XPath 1.0, section 3.4).
#[derive(Clone, Copy, Debug, PartialEq, Eq, Hash)]
pub enum CompareOp {
    Equal,
    NotEqual,
    Less,
    LessOrEqual,
    Greater,
    GreaterOrEqual,
}

/// A function on strings (XPath 1.0, section 4.2).
#[derive(Clone, Copy, Debug, PartialEq, Eq, Hash)]
pub enum TextFunction {
    Concat,
    StartsWith,
    Contains,
    SubstringBefore,
    SubstringAfter,
    Substring,
    StringLength,
    NormalizeSpace,
    Translate,
}

/// The direction of a location step (XPath 1.0, section 2.2, without the namespace axis).
#[derive(Clone, Copy, Debug, PartialEq, Eq, Hash)]
pub enum Axis {
    Child,
    Descendant,
    DescendantOrSelf,
    /// The axis `self`, whose name is a word of Rust.
    Itself,
    Parent,
    Ancestor,
    AncestorOrSelf,
    FollowingSibling,
    PrecedingSibling,
    Following,
    Preceding,
    Attribute,
}

/// Which nodes of an axis a step takes (XPath 1.0, section 2.3).
#[derive(Debug, Drop)]
pub enum NodeTest {
    /// `node()`.
    AnyNode,
    /// `text()`.
    AnyText,
    /// `comment()`.
    AnyComment,
    /// `*`.
    AnyName,
    /// `p:*`, by the URI that `p` is bound to.
    Within(Chars),
    /// A name, by its number in the table of names.
    Named(NameId),
}

impl NodeTest {
    /// The same test, in memory of its own.
    pub fn copy(&self) -> Result<NodeTest, AllocError>
        ensures { IfOk result (λ test. test ≡ self.now) }
    {
        match self {
            NodeTest::AnyNode => Ok(NodeTest::AnyNode),
            NodeTest::AnyText => Ok(NodeTest::AnyText),
            NodeTest::AnyComment => Ok(NodeTest::AnyComment),
            NodeTest::AnyName => Ok(NodeTest::AnyName),
            NodeTest::Within(uri) => {
                let uri = uri.copy()?;
                Ok(NodeTest::Within(uri))
            }
            NodeTest::Named(name) => Ok(NodeTest::Named(*name)),
        }
    }
}
