//! A token where an operand or a step is wanted.

ghost use Rattle.std.specs.Prelude.{◌≡◌, IfOk, Some};
ghost use Rattle.xpath_parser.specs.Machine.{is_minus, is_open, is_close, is_colons, after_step, after_axis, after_sign, after_first, end_call, after_argument};

use crate::NoMemory;
use crate::closing::is_level;
use crate::state::{Pending, Place, State};
use serna_kinds::{Axis, NodeTest};
use sqlite_items::Items;
use std::alloc::Global;
use xpath_grammar::{
    Level, Operand, Path, from_root, here, level_of, once_more, step_of, whole, with_descendants,
    with_step,
};
use xpath_tokens::{Operator, Stack, Symbol};
use xpath_trees::{ArithOp, Expr, Signs};

/// Whether a token is `(`.
pub fn is_open(symbol: &Symbol) -> bool
    ensures { result ≡ is_open symbol.now }
{
    match symbol {
        Symbol::Open => true,
        _ => false,
    }
}

/// Whether a token is `)`.
pub fn is_close(symbol: &Symbol) -> bool
    ensures { result ≡ is_close symbol.now }
{
    match symbol {
        Symbol::Close => true,
        _ => false,
    }
}

/// Whether a token is `::`.
pub fn is_colons(symbol: &Symbol) -> bool
    ensures { result ≡ is_colons symbol.now }
{
    match symbol {
        Symbol::Colons => true,
        _ => false,
    }
}

fn is_minus(op: Operator) -> bool
    ensures { result ≡ is_minus op }
{
    match op {
        Operator::Arith(arith) => match arith {
            ArithOp::Subtract => true,
            _ => false,
        },
        _ => false,
    }
}

pub fn at(place: Place, stack: Stack<Pending>) -> Option<State>
    ensures { result ≡ Some (record { place = place; stack = stack }) }
{
    Some(State { place, stack })
}

pub fn behind(operand: Operand, stack: Stack<Pending>) -> Option<State>
    ensures { result ≡ Some (record { place = Place.Behind operand; stack = stack }) }
{
    at(Place::Behind(operand), stack)
}

/// A token that a step begins with.
pub fn after_step(
    alloc: Global,
    path: Path,
    stack: Stack<Pending>,
    symbol: Symbol,
) -> Result<Option<State>, NoMemory>
    ensures { IfOk result (λ next. next ≡ after_step path stack symbol) }
{
    match symbol {
        Symbol::Test(test) => {
            let step = Operand::Step(path, Axis::Child, test, Items::new(alloc));
            Ok(behind(step, stack))
        }
        Symbol::NodeType(test) => Ok(at(Place::NodeOpen(path, Axis::Child, test), stack)),
        Symbol::AxisName(axis) => Ok(at(Place::Axis(path, axis), stack)),
        Symbol::At => Ok(at(Place::Test(path, Axis::Attribute), stack)),
        Symbol::Dot => {
            let step = step_of(Axis::Itself, NodeTest::AnyNode, Items::new(alloc));
            let path = with_step(path, step)?;
            Ok(behind(Operand::Abbreviated(path), stack))
        }
        Symbol::DotDot => {
            let step = step_of(Axis::Parent, NodeTest::AnyNode, Items::new(alloc));
            let path = with_step(path, step)?;
            Ok(behind(Operand::Abbreviated(path), stack))
        }
        _ => Ok(None),
    }
}

/// A node test behind an axis.
pub fn after_axis(
    alloc: Global,
    path: Path,
    axis: Axis,
    stack: Stack<Pending>,
    symbol: Symbol,
) -> Option<State>
    ensures { result ≡ after_axis path axis stack symbol }
{
    match symbol {
        Symbol::Test(test) => behind(Operand::Step(path, axis, test, Items::new(alloc)), stack),
        Symbol::NodeType(test) => at(Place::NodeOpen(path, axis, test), stack),
        _ => None,
    }
}

/// A minus sign where an operand is wanted. Behind `|` none may stand.
fn after_sign(mut stack: Stack<Pending>) -> Result<Option<State>, NoMemory>
    ensures { IfOk result (λ next. next ≡ after_sign stack) }
{
    match stack.pop() {
        Some(Pending::Chain(chain)) => {
            if is_level(level_of(chain.last), Level::Union) {
                return Ok(None);
            }
            stack.push(Pending::Chain(chain))?;
            stack.push(Pending::Minus(Signs::Once))?;
        }
        Some(Pending::Minus(signs)) => stack.push(Pending::Minus(once_more(signs)))?,
        Some(other) => {
            stack.push(other)?;
            stack.push(Pending::Minus(Signs::Once))?;
        }
        None => stack.push(Pending::Minus(Signs::Once))?,
    }
    Ok(at(Place::Operand, stack))
}

/// A token that an operand begins with.
pub fn after_first(
    alloc: Global,
    mut stack: Stack<Pending>,
    symbol: Symbol,
) -> Result<Option<State>, NoMemory>
    ensures { IfOk result (λ next. next ≡ after_first stack symbol) }
{
    match symbol {
        Symbol::Atom(tree) => Ok(behind(whole(alloc, tree), stack)),
        Symbol::Callee(function) => Ok(at(Place::Callee(function), stack)),
        Symbol::Operator(op) => {
            if is_minus(op) {
                after_sign(stack)
            } else {
                Ok(None)
            }
        }
        Symbol::Open => {
            stack.push(Pending::Group)?;
            Ok(at(Place::Operand, stack))
        }
        Symbol::Slash => Ok(behind(Operand::Root, stack)),
        Symbol::DoubleSlash => {
            let path = with_descendants(alloc, from_root(alloc))?;
            Ok(at(Place::Step(path), stack))
        }
        other => after_step(alloc, here(alloc), stack, other),
    }
}

/// The `)` of a call without arguments.
fn end_call(mut stack: Stack<Pending>, alloc: Global) -> Result<Option<State>, NoMemory>
    ensures { IfOk result (λ next. next ≡ end_call stack) }
{
    match stack.pop() {
        Some(Pending::Call(function, args)) => {
            Ok(behind(whole(alloc, Expr::Call(function, args)), stack))
        }
        _ => Ok(None),
    }
}

/// A token right behind the `(` of a call.
pub fn after_argument(
    alloc: Global,
    stack: Stack<Pending>,
    symbol: Symbol,
) -> Result<Option<State>, NoMemory>
    ensures { IfOk result (λ next. next ≡ after_argument stack symbol) }
{
    if is_close(&symbol) {
        end_call(stack, alloc)
    } else {
        after_first(alloc, stack, symbol)
    }
}
