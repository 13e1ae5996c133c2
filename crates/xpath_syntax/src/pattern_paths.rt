//! The paths of a pattern as they are put together.

ghost use Rattle.std.specs.Prelude.{◌≡◌, IfOk};
ghost use Rattle.xpath_syntax.specs.PatternMachine.{from_context, root_alone, with_step, with_descendants, last_step, whole, with_predicate, is_bar, is_close_bracket};

use crate::NoMemory;
use crate::pattern_state::LastStep;
use serna_kinds::{Axis, NodeTest};
use sqlite_items::Items;
use std::alloc::Global;
use xpath_grammar::step_of;
use xpath_tokens::{Operator, Symbol};
use xpath_trees::{Alternative, Expr, Step};

pub fn is_bar(symbol: &Symbol) -> bool
    ensures { result ≡ is_bar symbol.now }
{
    match symbol {
        Symbol::Operator(operator) => match operator {
            Operator::Union => true,
            _ => false,
        },
        _ => false,
    }
}

pub fn is_close_bracket(symbol: &Symbol) -> bool
    ensures { result ≡ is_close_bracket symbol.now }
{
    match symbol {
        Symbol::CloseBracket => true,
        _ => false,
    }
}

// Paths

/// A path without steps, from any node.
pub fn from_context(alloc: Global) -> Alternative
    ensures { result ≡ from_context }
{
    Alternative {
        from_root: false,
        steps: Items::new(alloc),
    }
}

/// `/` alone.
pub fn root_alone(alloc: Global) -> Alternative
    ensures { result ≡ root_alone }
{
    Alternative {
        from_root: true,
        steps: Items::new(alloc),
    }
}

pub fn with_step(path: Alternative, step: Step) -> Result<Alternative, NoMemory>
    ensures { IfOk result (λ longer. longer ≡ with_step path step) }
{
    let Alternative {
        from_root,
        mut steps,
    } = path;
    steps.push(step)?;
    Ok(Alternative { from_root, steps })
}

/// The path with the step that `//` stands for.
pub fn with_descendants(alloc: Global, path: Alternative) -> Result<Alternative, NoMemory>
    ensures { IfOk result (λ longer. longer ≡ with_descendants path) }
{
    with_step(
        path,
        step_of(Axis::DescendantOrSelf, NodeTest::AnyNode, Items::new(alloc)),
    )
}

// Steps

/// A step without predicates so far.
pub fn last_step(alloc: Global, before: Alternative, axis: Axis, test: NodeTest) -> LastStep
    ensures { result ≡ last_step before axis test }
{
    LastStep {
        before,
        axis,
        test,
        predicates: Items::new(alloc),
    }
}

/// The path with its last step.
pub fn whole(last: LastStep) -> Result<Alternative, NoMemory>
    ensures { IfOk result (λ path. path ≡ whole last) }
{
    let LastStep {
        before,
        axis,
        test,
        predicates,
    } = last;
    with_step(before, step_of(axis, test, predicates))
}

pub fn with_predicate(last: LastStep, tree: Expr) -> Result<LastStep, NoMemory>
    ensures { IfOk result (λ longer. longer ≡ with_predicate last tree) }
{
    let LastStep {
        before,
        axis,
        test,
        mut predicates,
    } = last;
    predicates.push(tree)?;
    Ok(LastStep {
        before,
        axis,
        test,
        predicates,
    })
}
