//! The reader of a pattern between two tokens.

use serna_kinds::{Axis, NodeTest};
use sqlite_items::Items;
use xpath_parser::State;
use xpath_trees::{Alternative, Expr};

/// The step that was read last, with its predicates so far.
#[derive(Drop)]
pub struct LastStep {
    /// The steps before it.
    pub before: Alternative,
    pub axis: Axis,
    pub test: NodeTest,
    pub predicates: Items<Expr>,
}

/// What is wanted next.
#[derive(Drop)]
pub enum PatternPlace {
    /// The beginning of an alternative.
    Beginning,
    /// A step behind these.
    Step(Alternative),
    /// The `::` of an axis.
    Axis(Alternative, Axis),
    /// A node test.
    Test(Alternative, Axis),
    /// The `(` of a node type.
    NodeOpen(Alternative, Axis, NodeTest),
    /// The `)` of a node type.
    NodeClose(Alternative, Axis, NodeTest),
    /// Nothing, or a step: `/` alone was read.
    Root,
    /// Nothing: a step was read.
    Behind(LastStep),
    /// The rest of a predicate of that step. It is read as an expression of its own.
    Predicate(LastStep, State),
}

/// Where the reader stands, with the alternatives that have ended.
#[derive(Drop)]
pub struct PatternState {
    pub ended: Items<Alternative>,
    pub place: PatternPlace,
}
