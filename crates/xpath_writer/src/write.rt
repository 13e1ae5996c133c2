//! Writes an expression so that it reads back as itself.

ghost use Rattle.std.specs.Prelude.{◌≡◌, ℕ, ◌+◌, ◌++◌, ◌∷◌, [], List, map, slice_get, encode_utf8_all, IfOk, OnOk};
ghost use Rattle.std.specs.String.{string_bytes};
ghost use Rattle.std.specs.Option.{option_map};
ghost use Rattle.xpath_tokens.specs.declared.tokens.Kind.TheVariants as kind;
ghost use Rattle.std.specs.Str.{IsUtf8};
ghost use Rattle.serna_kinds.specs.Lookups.{AreTexts};
ghost use Rattle.xpath_tokens.specs.Tokens.{tokens_of};
ghost use Rattle.xpath_tokens.specs.Named.{HasNames};
ghost use Rattle.xpath_syntax.specs.Reading.{IsReading};
ghost use Rattle.xpath_grammar.specs.Trees.{level_of, rank};
ghost use Rattle.xpath_writer.specs.Writing.{WrittenStep, spelled, mark, operator_kind, function_text, operand, further_operands, joined_by, compares_rank, ariths_rank, sign_words, predicate_words, argument_words, is_empty, steps_words, shown, shown_start, shown_step, written, before_next};

use crate::NoMemory;
use crate::chains::{
    FILTER, PRIMARY, arith_at, ariths_rank, before_next, compare_at, compares_rank, push_signs,
    rank_of, same_at,
};
use crate::names::push_variable;
use crate::steps::{
    is_bare, is_slash, is_wide, push_axis, push_root, push_slash, push_test, short_for,
};
use crate::words::{function_text, operator_kind, push_literal, push_mark, push_number, push_word};
use serna_kinds::{Chars, CompareOp, NameTable, Spaces};
use sqlite_items::Items;
use std::alloc::Global;
use xpath_grammar::{level_of, rank};
use xpath_tokens::{Kind, Operator};
use xpath_trees::{ArithOp, Expr, Function, PathStart, Signs, Step};

#[cycle(write)]
fn push_predicates(
    out: &mut String,
    predicates: &[Expr],
    spaces: &Spaces,
    names: &NameTable,
) -> Result<(), NoMemory>
    ensures { OnOk result (string_bytes out.new ≡ string_bytes out.old ++ spelled (predicate_words (map (shown spaces.now names.now) predicates.now))) }
{
    for predicate in predicates {
        push_mark(out, Kind::OpenBracket)?;
        push_expr(out, predicate, false, spaces, names)?;
        push_mark(out, Kind::CloseBracket)?;
    }
    Ok(())
}

#[cycle(write)]
fn push_arguments(
    out: &mut String,
    arguments: &[Expr],
    spaces: &Spaces,
    names: &NameTable,
) -> Result<(), NoMemory>
    ensures { OnOk result (string_bytes out.new ≡ string_bytes out.old ++ spelled (argument_words (map (shown spaces.now names.now) arguments.now))) }
{
    let Some((first, others)) = arguments.split_first() else {
        return Ok(());
    };
    push_expr(out, first, false, spaces, names)?;
    for argument in others {
        push_mark(out, Kind::Comma)?;
        push_expr(out, argument, false, spaces, names)?;
    }
    Ok(())
}

#[cycle(write)]
fn push_step(
    out: &mut String,
    step: &Step,
    spaces: &Spaces,
    names: &NameTable,
) -> Result<(), NoMemory>
    ensures { OnOk result (string_bytes out.new ≡ string_bytes out.old ++ spelled (shown_step spaces.now names.now step.now).words) }
{
    let bare = is_bare(&step.test, step.predicates.as_slice());
    if let Some(kind) = short_for(step.axis, bare) {
        return push_mark(out, kind);
    }
    push_axis(out, step.axis)?;
    push_test(out, &step.test, spaces, names)?;
    push_predicates(out, step.predicates.as_slice(), spaces, names)
}

/// Adds a step behind this slash, unless a `//` before the next step is to stand for it; the result is the slash before the
/// next step.
#[cycle(write)]
fn push_next_step(
    out: &mut String,
    step: &Step,
    behind: Option<Kind>,
    is_last: bool,
    spaces: &Spaces,
    names: &NameTable,
) -> Result<Option<Kind>, NoMemory>
    ensures { IfOk result (λ next. (rest : List WrittenStep) → is_empty rest ≡ is_last
        → string_bytes out.new ++ spelled (steps_words next rest) ≡ string_bytes out.old ++ spelled (steps_words behind (shown_step spaces.now names.now step.now ∷ rest))) }
{
    if is_slash(behind) && is_wide(step, spaces, names) && !is_last {
        return Ok(Some(Kind::DoubleSlash));
    }
    push_slash(out, behind)?;
    push_step(out, step, spaces, names)?;
    Ok(Some(Kind::Slash))
}

/// Adds steps, the first behind this slash.
#[cycle(write)]
fn push_steps(
    out: &mut String,
    steps: &[Step],
    behind: Option<Kind>,
    spaces: &Spaces,
    names: &NameTable,
) -> Result<(), NoMemory>
    ensures { OnOk result (string_bytes out.new ≡ string_bytes out.old ++ spelled (steps_words behind (map (shown_step spaces.now names.now) steps.now))) }
{
    let mut next = behind;
    for (index, step) in steps.iter().enumerate() {
        let is_last = index + 1 == steps.len();
        next = push_next_step(out, step, next, is_last, spaces, names)?;
    }
    Ok(())
}

/// Adds the start of a path, which is alone where no step follows; the result is the slash before the first step.
#[cycle(write)]
fn push_start(
    out: &mut String,
    start: &PathStart,
    alone: bool,
    before: bool,
    spaces: &Spaces,
    names: &NameTable,
) -> Result<Option<Kind>, NoMemory>
    ensures { IfOk result (λ slash. (steps : List WrittenStep) → is_empty steps ≡ alone
        → string_bytes out.new ++ spelled (steps_words slash steps) ≡ string_bytes out.old ++ spelled (shown_start spaces.now names.now start.now before steps)) }
{
    match start {
        PathStart::Context => Ok(None),
        PathStart::Root => {
            push_root(out, alone, before)?;
            Ok(Some(Kind::Slash))
        }
        PathStart::From(inner) => {
            push_operand(out, inner.get(), FILTER, false, spaces, names)?;
            Ok(Some(Kind::Slash))
        }
    }
}

/// Adds an operator and the operand behind it. The flag is that of the operand.
#[cycle(write)]
fn push_further(
    out: &mut String,
    op: Operator,
    expr: &Expr,
    least: u8,
    before: bool,
    spaces: &Spaces,
    names: &NameTable,
) -> Result<(), NoMemory>
    ensures { OnOk result (string_bytes out.new ≡ string_bytes out.old ++ spelled (mark (operator_kind op) ∷ operand least before (shown spaces.now names.now expr.now))) }
{
    push_mark(out, operator_kind(op))?;
    push_operand(out, expr, least, before, spaces, names)
}

/// Adds operands with one operator between each and the next.
#[cycle(write)]
fn push_joined(
    out: &mut String,
    op: Operator,
    operands: &Items<Expr>,
    before: bool,
    spaces: &Spaces,
    names: &NameTable,
) -> Result<(), NoMemory>
    ensures { OnOk result (string_bytes out.new ≡ string_bytes out.old ++ spelled (joined_by op (rank (level_of op) + 1) before (map (shown spaces.now names.now) operands.now))) }
{
    let Some((first, others)) = operands.as_slice().split_first() else {
        return Ok(());
    };
    let least = rank(level_of(op)) + 1;
    let next = before_next(same_at(op, others, 0), before);
    push_operand(out, first, least, next, spaces, names)?;
    for (index, operand) in others.iter().enumerate() {
        let next = before_next(same_at(op, others, index + 1), before);
        push_further(out, op, operand, least, next, spaces, names)?;
    }
    Ok(())
}

/// Adds the first operand of a chain of comparisons.
#[cycle(write)]
fn push_first_compared(
    out: &mut String,
    first: &Expr,
    others: &[(CompareOp, Expr)],
    before: bool,
    spaces: &Spaces,
    names: &NameTable,
) -> Result<(), NoMemory>
    ensures { OnOk result (string_bytes out.new ≡ string_bytes out.old ++ spelled (operand (compares_rank others.now + 1) (before_next (option_map (λ x. Operator.Compare x.0) (slice_get others.now 0)) before) (shown spaces.now names.now first.now))) }
{
    let chain_rank = compares_rank(others);
    let next = before_next(compare_at(others, 0), before);
    push_operand(out, first, chain_rank + 1, next, spaces, names)
}

/// Adds the operands of a chain of comparisons behind its first one.
#[cycle(write)]
fn push_compared(
    out: &mut String,
    others: &[(CompareOp, Expr)],
    before: bool,
    spaces: &Spaces,
    names: &NameTable,
) -> Result<(), NoMemory>
    ensures { OnOk result (string_bytes out.new ≡ string_bytes out.old ++ spelled (further_operands (compares_rank others.now + 1) before (map (λ x. (Operator.Compare x.0, shown spaces.now names.now x.1)) others.now))) }
{
    let least = compares_rank(others) + 1;
    for (index, (op, operand)) in others.iter().enumerate() {
        let next = before_next(compare_at(others, index + 1), before);
        push_further(
            out,
            Operator::Compare(*op),
            operand,
            least,
            next,
            spaces,
            names,
        )?;
    }
    Ok(())
}

/// Adds the first operand of a chain of operators on numbers.
#[cycle(write)]
fn push_first_computed(
    out: &mut String,
    first: &Expr,
    others: &[(ArithOp, Expr)],
    before: bool,
    spaces: &Spaces,
    names: &NameTable,
) -> Result<(), NoMemory>
    ensures { OnOk result (string_bytes out.new ≡ string_bytes out.old ++ spelled (operand (ariths_rank others.now + 1) (before_next (option_map (λ x. Operator.Arith x.0) (slice_get others.now 0)) before) (shown spaces.now names.now first.now))) }
{
    let chain_rank = ariths_rank(others);
    let next = before_next(arith_at(others, 0), before);
    push_operand(out, first, chain_rank + 1, next, spaces, names)
}

/// Adds the operands of a chain of operators on numbers behind its first one.
#[cycle(write)]
fn push_computed(
    out: &mut String,
    others: &[(ArithOp, Expr)],
    before: bool,
    spaces: &Spaces,
    names: &NameTable,
) -> Result<(), NoMemory>
    ensures { OnOk result (string_bytes out.new ≡ string_bytes out.old ++ spelled (further_operands (ariths_rank others.now + 1) before (map (λ x. (Operator.Arith x.0, shown spaces.now names.now x.1)) others.now))) }
{
    let least = ariths_rank(others) + 1;
    for (index, (op, operand)) in others.iter().enumerate() {
        let next = before_next(arith_at(others, index + 1), before);
        push_further(
            out,
            Operator::Arith(*op),
            operand,
            least,
            next,
            spaces,
            names,
        )?;
    }
    Ok(())
}

/// Adds an operand that must bind so tightly, in parentheses where it does not.
#[cycle(write)]
fn push_operand(
    out: &mut String,
    expr: &Expr,
    least: u8,
    before: bool,
    spaces: &Spaces,
    names: &NameTable,
) -> Result<(), NoMemory>
    ensures { OnOk result (string_bytes out.new ≡ string_bytes out.old ++ spelled (operand least before (shown spaces.now names.now expr.now))) }
{
    if rank_of(expr, spaces, names) < least {
        push_mark(out, Kind::Open)?;
        push_expr(out, expr, false, spaces, names)?;
        push_mark(out, Kind::Close)
    } else {
        push_expr(out, expr, before, spaces, names)
    }
}

#[cycle(write)]
fn push_negated(
    out: &mut String,
    signs: Signs,
    expr: &Expr,
    before: bool,
    spaces: &Spaces,
    names: &NameTable,
) -> Result<(), NoMemory>
    ensures { OnOk result (string_bytes out.new ≡ string_bytes out.old ++ spelled (sign_words signs ++ operand 8 before (shown spaces.now names.now expr.now))) }
{
    push_signs(out, signs)?;
    push_operand(out, expr, 8, before, spaces, names)
}

#[cycle(write)]
fn push_call(
    out: &mut String,
    function: Function,
    arguments: &Items<Expr>,
    spaces: &Spaces,
    names: &NameTable,
) -> Result<(), NoMemory>
    ensures { OnOk result (string_bytes out.new ≡ string_bytes out.old ++ spelled ((kind.Callee, function_text function) ∷ (mark kind.Open ∷ (argument_words (map (shown spaces.now names.now) arguments.now) ++ mark kind.Close ∷ [])))) }
{
    push_word(out, function_text(function))?;
    push_mark(out, Kind::Open)?;
    push_arguments(out, arguments.as_slice(), spaces, names)?;
    push_mark(out, Kind::Close)
}

/// Adds an expression. The flag says that an operator follows that is told by the token before it alone.
#[cycle(write)]
fn push_expr(
    out: &mut String,
    expr: &Expr,
    before: bool,
    spaces: &Spaces,
    names: &NameTable,
) -> Result<(), NoMemory>
    ensures { OnOk result (string_bytes out.new ≡ string_bytes out.old ++ spelled ((shown spaces.now names.now expr.now).words before)) }
{
    match expr {
        Expr::Or(operands) => push_joined(out, Operator::Or, operands, before, spaces, names),
        Expr::And(operands) => push_joined(out, Operator::And, operands, before, spaces, names),
        Expr::Compare(first, others) => {
            let others = others.as_slice();
            push_first_compared(out, first.get(), others, before, spaces, names)?;
            push_compared(out, others, before, spaces, names)
        }
        Expr::Arith(first, others) => {
            let others = others.as_slice();
            push_first_computed(out, first.get(), others, before, spaces, names)?;
            push_computed(out, others, before, spaces, names)
        }
        Expr::Negate(signs, inner) => push_negated(out, *signs, inner.get(), before, spaces, names),
        Expr::Union(operands) => push_joined(out, Operator::Union, operands, before, spaces, names),
        Expr::Path(start, steps) => {
            let behind = push_start(out, start, steps.is_empty(), before, spaces, names)?;
            push_steps(out, steps.as_slice(), behind, spaces, names)
        }
        Expr::Filter(inner, predicates) => {
            push_operand(out, inner.get(), PRIMARY, false, spaces, names)?;
            push_predicates(out, predicates.as_slice(), spaces, names)
        }
        Expr::Text(text) => push_literal(out, text.as_text()),
        Expr::Number(number) => push_number(out, *number),
        Expr::Variable(name) => push_variable(out, *name, names),
        Expr::Call(function, arguments) => push_call(out, *function, arguments, spaces, names),
    }
}

/// Writes an expression by the canonical spelling of Writing: its tokens with a space behind each, parentheses only where the
/// tree wants them, and each abbreviation that can stand. What `read_expr` read reads back as itself with the same
/// declarations, also at the limits on brackets and arguments (`writing_reads_back`).
///
/// `spaces` are the declarations that the expression was read with: a node test `p:*` keeps only its URI, so its prefix is
/// looked up there. `names` is the table that it was read with, or what that has grown to.
pub fn write_expr(
    alloc: Global,
    expr: &Expr,
    spaces: &Spaces,
    names: &NameTable,
) -> Result<Chars, NoMemory>
    // In UTF-8 it is the expression's text.
    ensures text { IfOk result (λ text. encode_utf8_all text ≡ written spaces.now names.now expr.now) }
    // The tree of a text that was read with these declarations reads back as itself, where the table has the text's names.
    ensures back { IfOk result (λ text. (read : List ℕ) → IsUtf8 read → AreTexts spaces.now → HasNames spaces.now names.now read (tokens_of read)
        → IsReading spaces.now names.now read expr.now → IsReading spaces.now names.now (encode_utf8_all text) expr.now) }
{
    let mut text = String::new(alloc);
    push_expr(&mut text, expr, false, spaces, names)?;
    Chars::from_string(text)
}
