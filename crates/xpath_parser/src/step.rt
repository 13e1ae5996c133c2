//! How a token moves the reader of an expression.

ghost use Rattle.std.specs.Prelude.{◌≡◌, IfOk};
ghost use Rattle.xpath_parser.specs.Machine.{after_in, after, beginning, finish_in, finish};

use crate::NoMemory;
use crate::closing::put_together;
use crate::ending::after_operand;
use crate::state::{Pending, Place, State};
use crate::wanted::{
    after_argument, after_axis, after_first, after_step, at, behind, is_close, is_colons, is_open,
};
use serna_kinds::{Axis, NodeTest};
use sqlite_items::Items;
use std::alloc::Global;
use xpath_grammar::{Operand, Path};
use xpath_machine::Machine;
use xpath_tokens::{Stack, Symbol};
use xpath_trees::{Expr, Function};

// Between the parts of an operand

/// The `(` of a call.
fn after_callee(
    alloc: Global,
    function: Function,
    mut stack: Stack<Pending>,
    symbol: Symbol,
) -> Result<Option<State>, NoMemory>
    ensures { IfOk result (λ next. next ≡ after_in (Place.Callee function) stack symbol) }
{
    if is_open(&symbol) {
        stack.push(Pending::Call(function, Items::new(alloc)))?;
        Ok(at(Place::Argument, stack))
    } else {
        Ok(None)
    }
}

/// The `::` behind an axis.
fn after_axis_name(path: Path, axis: Axis, stack: Stack<Pending>, symbol: Symbol) -> Option<State>
    ensures { result ≡ after_in (Place.Axis path axis) stack symbol }
{
    if is_colons(&symbol) {
        at(Place::Test(path, axis), stack)
    } else {
        None
    }
}

/// The `(` behind a node type.
fn after_node_type(
    path: Path,
    axis: Axis,
    test: NodeTest,
    stack: Stack<Pending>,
    symbol: Symbol,
) -> Option<State>
    ensures { result ≡ after_in (Place.NodeOpen path axis test) stack symbol }
{
    if is_open(&symbol) {
        at(Place::NodeClose(path, axis, test), stack)
    } else {
        None
    }
}

/// The `)` of a node type.
fn end_node_type(
    alloc: Global,
    path: Path,
    axis: Axis,
    test: NodeTest,
    stack: Stack<Pending>,
    symbol: Symbol,
) -> Option<State>
    ensures { result ≡ after_in (Place.NodeClose path axis test) stack symbol }
{
    if is_close(&symbol) {
        behind(Operand::Step(path, axis, test, Items::new(alloc)), stack)
    } else {
        None
    }
}

// Any token

fn after_in(
    alloc: Global,
    place: Place,
    stack: Stack<Pending>,
    symbol: Symbol,
) -> Result<Option<State>, NoMemory>
    ensures { IfOk result (λ next. next ≡ after_in place stack symbol) }
{
    match place {
        Place::Operand => after_first(alloc, stack, symbol),
        Place::Argument => after_argument(alloc, stack, symbol),
        Place::Callee(function) => after_callee(alloc, function, stack, symbol),
        Place::Step(path) => after_step(alloc, path, stack, symbol),
        Place::Axis(path, axis) => Ok(after_axis_name(path, axis, stack, symbol)),
        Place::Test(path, axis) => Ok(after_axis(alloc, path, axis, stack, symbol)),
        Place::NodeOpen(path, axis, test) => Ok(after_node_type(path, axis, test, stack, symbol)),
        Place::NodeClose(path, axis, test) => {
            Ok(end_node_type(alloc, path, axis, test, stack, symbol))
        }
        Place::Behind(operand) => after_operand(alloc, operand, stack, symbol),
    }
}

/// Where a token leads: None where no expression can go on with it.
pub fn step(alloc: Global, state: State, symbol: Symbol) -> Result<Option<State>, NoMemory>
    ensures { IfOk result (λ next. next ≡ after state symbol) }
{
    let State { place, stack } = state;
    after_in(alloc, place, stack, symbol)
}

/// Before the first token.
pub fn beginning(alloc: Global) -> State
    ensures { result ≡ beginning }
{
    State {
        place: Place::Operand,
        stack: Stack::new(alloc),
    }
}

/// The tree of an operand behind which the tokens may end.
fn finish_operand(
    alloc: Global,
    operand: Operand,
    mut stack: Stack<Pending>,
) -> Result<Option<Expr>, NoMemory>
    ensures { IfOk result (λ tree. tree ≡ finish_in (Place.Behind operand) stack) }
{
    let tree = put_together(alloc, operand, &mut stack)?;
    match stack.pop() {
        Some(_) => Ok(None),
        None => Ok(Some(tree)),
    }
}

/// The tree, where the tokens may end here.
pub fn finish(alloc: Global, state: State) -> Result<Option<Expr>, NoMemory>
    ensures { IfOk result (λ tree. tree ≡ finish state) }
{
    let State { place, stack } = state;
    match place {
        Place::Behind(operand) => finish_operand(alloc, operand, stack),
        _ => Ok(None),
    }
}

impl Machine for State {
    ghost use Rattle.std.specs.Prelude.{Some};
    ghost use Rattle.xpath_grammar.specs.Grammar.{IsExpr};
    ghost use Rattle.xpath_parser.specs.Machine.{beginning, run, after, finish};

    type Tree = Expr;

    ghost run = { run (Some beginning) };

    ghost leads = { after };

    ghost ends = { finish };

    ghost grammar = { IsExpr };

    fn beginning(alloc: Global) -> State {
        beginning(alloc)
    }

    fn step(self, alloc: Global, symbol: Symbol) -> Result<Option<State>, NoMemory> {
        step(alloc, self, symbol)
    }

    fn finish(self, alloc: Global) -> Result<Option<Expr>, NoMemory> {
        finish(alloc, self)
    }
}
