//! The operators of chains, and how tightly an expression binds.

ghost use Rattle.std.specs.Prelude.{◌≡◌, ◌++◌, slice_get, OnOk};
ghost use Rattle.std.specs.String.{string_bytes};
ghost use Rattle.std.specs.Option.{option_map};
ghost use Rattle.xpath_writer.specs.Writing.{spelled, compares_rank, ariths_rank, sign_words, shown, before_next};

use crate::NoMemory;
use crate::words::{is_named, operator_kind, push_mark};
use serna_kinds::{CompareOp, NameTable, Spaces};
use xpath_grammar::{level_of, rank};
use xpath_tokens::{Kind, Operator};
use xpath_trees::{ArithOp, Expr, Signs};

/// The least rank of what predicates may follow: it is no operator, no path and has no predicates.
pub const PRIMARY: u8 = 11;

/// The least rank of what steps may follow.
pub const FILTER: u8 = 10;

/// The operator before the operand at a place of those behind the first one of a chain.
pub fn same_at(op: Operator, others: &[Expr], place: usize) -> Option<Operator>
    ensures { result ≡ option_map (λ _. op) (slice_get others.now place) }
{
    others.get(place)?;
    Some(op)
}

pub fn compare_at(others: &[(CompareOp, Expr)], place: usize) -> Option<Operator>
    ensures { result ≡ option_map (λ x. Operator.Compare x.0) (slice_get others.now place) }
{
    let (op, _) = others.get(place)?;
    Some(Operator::Compare(*op))
}

pub fn arith_at(others: &[(ArithOp, Expr)], place: usize) -> Option<Operator>
    ensures { result ≡ option_map (λ x. Operator.Arith x.0) (slice_get others.now place) }
{
    let (op, _) = others.get(place)?;
    Some(Operator::Arith(*op))
}

/// Whether an operator that is told by the token before it alone follows an operand, by the operator behind it in its chain
/// and what follows the chain.
pub fn before_next(operator: Option<Operator>, before: bool) -> bool
    ensures { result ≡ before_next operator before }
{
    match operator {
        Some(op) => is_named(operator_kind(op)),
        None => before,
    }
}

pub fn compares_rank(others: &[(CompareOp, Expr)]) -> u8
    ensures { result ≡ compares_rank others.now }
{
    match others.first() {
        Some((op, _)) => rank(level_of(Operator::Compare(*op))),
        None => 3,
    }
}

pub fn ariths_rank(others: &[(ArithOp, Expr)]) -> u8
    ensures { result ≡ ariths_rank others.now }
{
    match others.first() {
        Some((op, _)) => rank(level_of(Operator::Arith(*op))),
        None => 5,
    }
}

/// How tightly an expression binds, from 1 for `or` on.
pub fn rank_of(expr: &Expr, spaces: &Spaces, names: &NameTable) -> u8
    ensures { result ≡ (shown spaces.now names.now expr.now).rank }
{
    match expr {
        Expr::Or(_) => 1,
        Expr::And(_) => 2,
        Expr::Compare(_, others) => compares_rank(others.as_slice()),
        Expr::Arith(_, others) => ariths_rank(others.as_slice()),
        Expr::Negate(_, _) => 7,
        Expr::Union(_) => 8,
        Expr::Path(_, _) => 9,
        Expr::Filter(_, _) => FILTER,
        Expr::Text(_) => PRIMARY,
        Expr::Number(_) => PRIMARY,
        Expr::Variable(_) => PRIMARY,
        Expr::Call(_, _) => PRIMARY,
    }
}

pub fn push_signs(out: &mut String, signs: Signs) -> Result<(), NoMemory>
    ensures { OnOk result (string_bytes out.new ≡ string_bytes out.old ++ spelled (sign_words signs)) }
{
    match signs {
        Signs::Once => push_mark(out, Kind::Minus),
        Signs::Twice => {
            push_mark(out, Kind::Minus)?;
            push_mark(out, Kind::Minus)
        }
    }
}
