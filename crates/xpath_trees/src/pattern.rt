//! Patterns as trees.

use crate::expr::Step;
use sqlite_items::Items;

/// A location path of a pattern (XSLT 1.0, section 5.2). Its steps are those of the same text read as an expression: on the axes
/// child and attribute, and `descendant-or-self::node()` without predicates for each `//`.
#[derive(Drop)]
pub struct Alternative {
    /// Whether it begins at the root, and else at any node.
    pub from_root: bool,
    /// One step or more. Only from the root there may be none.
    pub steps: Items<Step>,
}

/// A pattern (XSLT 1.0, section 5.2): the alternatives that stand between its `|`, in order, one or more.
#[derive(Drop)]
pub struct Pattern {
    pub alternatives: Items<Alternative>,
}
