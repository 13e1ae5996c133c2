//! A token behind an operand.

ghost use Rattle.std.specs.Prelude.{◌≡◌, IfOk};
ghost use Rattle.xpath_parser.specs.Machine.{end_group, next_argument, with_predicate, end_predicate, begin_predicate, after_root, after_operand};

use crate::NoMemory;
use crate::closing::{closed, push_operator, put_together};
use crate::state::{Pending, Place, State};
use crate::wanted::{after_step, at, behind};
use std::alloc::Global;
use xpath_grammar::{
    Operand, from_root, level_of, operand_tree, path_behind, rank, whole, with_descendants,
};
use xpath_tokens::{Operator, Stack, Symbol};
use xpath_trees::Expr;

/// A `)` behind an operand that is put together.
fn end_group(
    alloc: Global,
    tree: Expr,
    mut stack: Stack<Pending>,
) -> Result<Option<State>, NoMemory>
    ensures { IfOk result (λ next. next ≡ end_group tree stack) }
{
    match stack.pop() {
        Some(Pending::Group) => Ok(behind(whole(alloc, tree), stack)),
        Some(Pending::Call(function, mut args)) => {
            args.push(tree)?;
            Ok(behind(whole(alloc, Expr::Call(function, args)), stack))
        }
        _ => Ok(None),
    }
}

/// A `,` behind an operand that is put together.
fn next_argument(tree: Expr, mut stack: Stack<Pending>) -> Result<Option<State>, NoMemory>
    ensures { IfOk result (λ next. next ≡ next_argument tree stack) }
{
    match stack.pop() {
        Some(Pending::Call(function, mut args)) => {
            args.push(tree)?;
            stack.push(Pending::Call(function, args))?;
            Ok(at(Place::Operand, stack))
        }
        _ => Ok(None),
    }
}

/// An operand with one more predicate, where it may get one.
fn with_predicate(operand: Operand, tree: Expr) -> Result<Option<Operand>, NoMemory>
    ensures { IfOk result (λ longer. longer ≡ with_predicate operand tree) }
{
    match operand {
        Operand::Root => Ok(None),
        Operand::Abbreviated(_) => Ok(None),
        Operand::Step(path, axis, test, mut predicates) => {
            predicates.push(tree)?;
            Ok(Some(Operand::Step(path, axis, test, predicates)))
        }
        Operand::Primary(inner, mut predicates) => {
            predicates.push(tree)?;
            Ok(Some(Operand::Primary(inner, predicates)))
        }
    }
}

/// A `]` behind an operand that is put together.
pub fn end_predicate(tree: Expr, mut stack: Stack<Pending>) -> Result<Option<State>, NoMemory>
    ensures { IfOk result (λ next. next ≡ end_predicate tree stack) }
{
    match stack.pop() {
        Some(Pending::Predicate(operand)) => match with_predicate(operand, tree)? {
            Some(longer) => Ok(behind(longer, stack)),
            None => Ok(None),
        },
        _ => Ok(None),
    }
}

/// A `[` behind an operand.
fn begin_predicate(operand: Operand, mut stack: Stack<Pending>) -> Result<Option<State>, NoMemory>
    ensures { IfOk result (λ next. next ≡ begin_predicate operand stack) }
{
    match operand {
        Operand::Root => Ok(None),
        Operand::Abbreviated(_) => Ok(None),
        other => {
            stack.push(Pending::Predicate(other))?;
            Ok(at(Place::Operand, stack))
        }
    }
}

/// A token behind an operand that ends nothing and goes on with nothing: a step may begin behind `/` alone.
fn after_root(
    alloc: Global,
    operand: Operand,
    stack: Stack<Pending>,
    symbol: Symbol,
) -> Result<Option<State>, NoMemory>
    ensures { IfOk result (λ next. next ≡ after_root operand stack symbol) }
{
    match operand {
        Operand::Root => after_step(alloc, from_root(alloc), stack, symbol),
        _ => Ok(None),
    }
}

/// A `/` behind an operand.
fn after_slash(
    alloc: Global,
    operand: Operand,
    stack: Stack<Pending>,
) -> Result<Option<State>, NoMemory>
    ensures { IfOk result (λ next. next ≡ after_operand operand stack Symbol.Slash) }
{
    match path_behind(alloc, operand)? {
        Some(path) => Ok(at(Place::Step(path), stack)),
        None => Ok(None),
    }
}

/// A `//` behind an operand.
fn after_double_slash(
    alloc: Global,
    operand: Operand,
    stack: Stack<Pending>,
) -> Result<Option<State>, NoMemory>
    ensures { IfOk result (λ next. next ≡ after_operand operand stack Symbol.DoubleSlash) }
{
    match path_behind(alloc, operand)? {
        Some(path) => {
            let path = with_descendants(alloc, path)?;
            Ok(at(Place::Step(path), stack))
        }
        None => Ok(None),
    }
}

/// An operator behind an operand.
fn after_operator(
    alloc: Global,
    operand: Operand,
    mut stack: Stack<Pending>,
    op: Operator,
) -> Result<Option<State>, NoMemory>
    ensures { IfOk result (λ next. next ≡ after_operand operand stack (Symbol.Operator op)) }
{
    let tree = operand_tree(alloc, operand)?;
    let tree = closed(alloc, rank(level_of(op)), tree, &mut stack)?;
    push_operator(alloc, op, tree, &mut stack)?;
    Ok(at(Place::Operand, stack))
}

/// A token behind an operand.
pub fn after_operand(
    alloc: Global,
    operand: Operand,
    mut stack: Stack<Pending>,
    symbol: Symbol,
) -> Result<Option<State>, NoMemory>
    ensures { IfOk result (λ next. next ≡ after_operand operand stack symbol) }
{
    match symbol {
        Symbol::Operator(op) => after_operator(alloc, operand, stack, op),
        Symbol::Close => {
            let tree = put_together(alloc, operand, &mut stack)?;
            end_group(alloc, tree, stack)
        }
        Symbol::CloseBracket => {
            let tree = put_together(alloc, operand, &mut stack)?;
            end_predicate(tree, stack)
        }
        Symbol::Comma => {
            let tree = put_together(alloc, operand, &mut stack)?;
            next_argument(tree, stack)
        }
        Symbol::OpenBracket => begin_predicate(operand, stack),
        Symbol::Slash => after_slash(alloc, operand, stack),
        Symbol::DoubleSlash => after_double_slash(alloc, operand, stack),
        other => after_root(alloc, operand, stack, other),
    }
}
