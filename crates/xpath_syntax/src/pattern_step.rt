//! How a token moves the reader of a pattern.

ghost use Rattle.std.specs.Prelude.{◌≡◌, ◌++◌, [], ◌∷◌, IfOk, Some, None, option_map};
ghost use Rattle.xpath_parser.specs.Machine.{finish, after};
ghost use Rattle.xpath_syntax.specs.PatternMachine.{from_context, root_alone, last_step, whole, with_predicate, on_axis, begin_step, after_axis, after_beginning, after_last, closes, after_predicate, alternative_at, next, after_path, after_pattern, pattern_beginning, finish_pattern};

use crate::NoMemory;
use crate::pattern_paths::{
    from_context, is_bar, is_close_bracket, last_step, root_alone, whole, with_descendants,
    with_predicate,
};
use crate::pattern_state::{LastStep, PatternPlace, PatternState};
use serna_kinds::{Axis, NodeTest};
use sqlite_items::Items;
use std::alloc::Global;
use xpath_grammar::Operand;
use xpath_machine::Machine;
use xpath_parser::step::{beginning, step};
use xpath_parser::{
    Pending, Place, State, end_predicate, is_close, is_colons, is_open, put_together,
};
use xpath_tokens::{Stack, Symbol};
use xpath_trees::{Alternative, Pattern};

/// The name of an axis, which may be child or attribute.
fn on_axis(before: Alternative, axis: Axis) -> Option<PatternPlace>
    ensures { result ≡ on_axis before axis }
{
    match axis {
        Axis::Child => Some(PatternPlace::Axis(before, Axis::Child)),
        Axis::Attribute => Some(PatternPlace::Axis(before, Axis::Attribute)),
        _ => None,
    }
}

/// A token that a step begins with.
fn begin_step(alloc: Global, before: Alternative, symbol: Symbol) -> Option<PatternPlace>
    ensures { result ≡ begin_step before symbol }
{
    match symbol {
        Symbol::AxisName(axis) => on_axis(before, axis),
        Symbol::At => Some(PatternPlace::Test(before, Axis::Attribute)),
        other => after_axis(alloc, before, Axis::Child, other),
    }
}

/// A node test behind an axis.
fn after_axis(
    alloc: Global,
    before: Alternative,
    axis: Axis,
    symbol: Symbol,
) -> Option<PatternPlace>
    ensures { result ≡ after_axis before axis symbol }
{
    match symbol {
        Symbol::Test(test) => Some(PatternPlace::Behind(last_step(alloc, before, axis, test))),
        Symbol::NodeType(test) => Some(PatternPlace::NodeOpen(before, axis, test)),
        _ => None,
    }
}

/// A token that an alternative begins with.
fn after_beginning(alloc: Global, symbol: Symbol) -> Result<Option<PatternPlace>, NoMemory>
    ensures { IfOk result (λ next. next ≡ after_beginning symbol) }
{
    match symbol {
        Symbol::Slash => Ok(Some(PatternPlace::Root)),
        Symbol::DoubleSlash => {
            let path = with_descendants(alloc, root_alone(alloc))?;
            Ok(Some(PatternPlace::Step(path)))
        }
        other => Ok(begin_step(alloc, from_context(alloc), other)),
    }
}

/// A token behind a step, but for `|`.
fn after_last(
    alloc: Global,
    last: LastStep,
    symbol: Symbol,
) -> Result<Option<PatternPlace>, NoMemory>
    ensures { IfOk result (λ next. next ≡ after_last last symbol) }
{
    match symbol {
        Symbol::OpenBracket => Ok(Some(PatternPlace::Predicate(last, beginning(alloc)))),
        Symbol::Slash => Ok(Some(PatternPlace::Step(whole(last)?))),
        Symbol::DoubleSlash => {
            let path = with_descendants(alloc, whole(last)?)?;
            Ok(Some(PatternPlace::Step(path)))
        }
        _ => Ok(None),
    }
}

// Predicates

/// A `]` behind an operand of a predicate: the predicate ends where no bracket is open in it.
fn close_behind(
    alloc: Global,
    last: LastStep,
    operand: Operand,
    mut stack: Stack<Pending>,
) -> Result<Option<PatternPlace>, NoMemory>
    ensures { IfOk result (λ next. next ≡ closes last (finish (record { place = Place.Behind operand; stack = stack })) (after (record { place = Place.Behind operand; stack = stack }) Symbol.CloseBracket)) }
{
    let tree = put_together(alloc, operand, &mut stack)?;
    match stack.pop() {
        None => Ok(Some(PatternPlace::Behind(with_predicate(last, tree)?))),
        Some(top) => {
            stack.push(top)?;
            match end_predicate(tree, stack)? {
                Some(inner) => Ok(Some(PatternPlace::Predicate(last, inner))),
                None => Ok(None),
            }
        }
    }
}

/// A `]` in a predicate.
fn close(alloc: Global, last: LastStep, inner: State) -> Result<Option<PatternPlace>, NoMemory>
    ensures { IfOk result (λ next. next ≡ closes last (finish inner) (after inner Symbol.CloseBracket)) }
{
    let State { place, stack } = inner;
    match place {
        Place::Behind(operand) => close_behind(alloc, last, operand, stack),
        _ => Ok(None),
    }
}

/// A token in a predicate.
fn after_predicate(
    alloc: Global,
    last: LastStep,
    inner: State,
    symbol: Symbol,
) -> Result<Option<PatternPlace>, NoMemory>
    ensures { IfOk result (λ next. next ≡ after_predicate last inner symbol) }
{
    if is_close_bracket(&symbol) {
        return close(alloc, last, inner);
    }
    match step(alloc, inner, symbol)? {
        Some(inner) => Ok(Some(PatternPlace::Predicate(last, inner))),
        None => Ok(None),
    }
}

// Any token

/// Where a token leads that ends no alternative.
fn after_path(
    alloc: Global,
    place: PatternPlace,
    symbol: Symbol,
) -> Result<Option<PatternPlace>, NoMemory>
    ensures { IfOk result (λ next. next ≡ after_path place symbol) }
{
    match place {
        PatternPlace::Beginning => after_beginning(alloc, symbol),
        PatternPlace::Step(path) => Ok(begin_step(alloc, path, symbol)),
        PatternPlace::Axis(path, axis) => {
            if is_colons(&symbol) {
                Ok(Some(PatternPlace::Test(path, axis)))
            } else {
                Ok(None)
            }
        }
        PatternPlace::Test(path, axis) => Ok(after_axis(alloc, path, axis, symbol)),
        PatternPlace::NodeOpen(path, axis, test) => {
            if is_open(&symbol) {
                Ok(Some(PatternPlace::NodeClose(path, axis, test)))
            } else {
                Ok(None)
            }
        }
        PatternPlace::NodeClose(path, axis, test) => {
            if is_close(&symbol) {
                Ok(Some(PatternPlace::Behind(last_step(alloc, path, axis, test))))
            } else {
                Ok(None)
            }
        }
        PatternPlace::Root => Ok(begin_step(alloc, root_alone(alloc), symbol)),
        PatternPlace::Behind(last) => after_last(alloc, last, symbol),
        PatternPlace::Predicate(last, inner) => after_predicate(alloc, last, inner, symbol),
    }
}

fn next(ended: Items<Alternative>, place: Option<PatternPlace>) -> Option<PatternState>
    ensures { result ≡ next ended None place }
{
    match place {
        Some(place) => Some(PatternState { ended, place }),
        None => None,
    }
}

/// The reader behind the `|` of an alternative.
fn next_alternative(
    mut ended: Items<Alternative>,
    path: Alternative,
) -> Result<Option<PatternState>, NoMemory>
    ensures { IfOk result (λ state. state ≡ next ended (Some path) None) }
{
    ended.push(path)?;
    Ok(Some(PatternState {
        ended,
        place: PatternPlace::Beginning,
    }))
}

/// A `|`.
fn after_bar(
    alloc: Global,
    ended: Items<Alternative>,
    place: PatternPlace,
    symbol: Symbol,
) -> Result<Option<PatternState>, NoMemory>
    ensures { IfOk result (λ state. state ≡ next ended (alternative_at place) (after_path place symbol)) }
{
    match place {
        PatternPlace::Root => next_alternative(ended, root_alone(alloc)),
        PatternPlace::Behind(last) => next_alternative(ended, whole(last)?),
        other => Ok(next(ended, after_path(alloc, other, symbol)?)),
    }
}

/// Where a token leads: None where no pattern can go on with it.
fn pattern_step(
    alloc: Global,
    state: PatternState,
    symbol: Symbol,
) -> Result<Option<PatternState>, NoMemory>
    ensures { IfOk result (λ next. next ≡ after_pattern state symbol) }
{
    let PatternState { ended, place } = state;
    if is_bar(&symbol) {
        after_bar(alloc, ended, place, symbol)
    } else {
        Ok(next(ended, after_path(alloc, place, symbol)?))
    }
}

/// Before the first token.
fn pattern_beginning(alloc: Global) -> PatternState
    ensures { result ≡ pattern_beginning }
{
    PatternState {
        ended: Items::new(alloc),
        place: PatternPlace::Beginning,
    }
}

/// The alternative that may end here.
fn alternative_at(alloc: Global, place: PatternPlace) -> Result<Option<Alternative>, NoMemory>
    ensures { IfOk result (λ path. path ≡ alternative_at place) }
{
    match place {
        PatternPlace::Root => Ok(Some(root_alone(alloc))),
        PatternPlace::Behind(last) => Ok(Some(whole(last)?)),
        _ => Ok(None),
    }
}

/// The pattern, where the tokens may end here.
fn finish_pattern(alloc: Global, state: PatternState) -> Result<Option<Pattern>, NoMemory>
    ensures { IfOk result (λ pattern. pattern ≡ finish_pattern state) }
{
    let PatternState { mut ended, place } = state;
    match alternative_at(alloc, place)? {
        Some(path) => {
            ended.push(path)?;
            Ok(Some(Pattern {
                alternatives: ended,
            }))
        }
        None => Ok(None),
    }
}

impl Machine for PatternState {
    ghost use Rattle.std.specs.Prelude.{Some};
    ghost use Rattle.xpath_syntax.specs.Patterns.{IsPattern};
    ghost use Rattle.xpath_syntax.specs.PatternMachine.{pattern_beginning, run_pattern, after_pattern, finish_pattern};

    type Tree = Pattern;

    ghost run = { run_pattern (Some pattern_beginning) };

    ghost leads = { after_pattern };

    ghost ends = { finish_pattern };

    ghost grammar = { IsPattern };

    fn beginning(alloc: Global) -> PatternState {
        pattern_beginning(alloc)
    }

    fn step(self, alloc: Global, symbol: Symbol) -> Result<Option<PatternState>, NoMemory> {
        pattern_step(alloc, self, symbol)
    }

    fn finish(self, alloc: Global) -> Result<Option<Pattern>, NoMemory> {
        finish_pattern(alloc, self)
    }
}
