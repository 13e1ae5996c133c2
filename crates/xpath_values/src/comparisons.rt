ghost use Rattle.std.specs.Prelude.{◌≡◌};
ghost use Rattle.std.specs.List.{list_any};
ghost use Rattle.xpath_values.specs.Comparisons.{holds, compares};
ghost use Rattle.xpath_values.specs.Extremes.{least_number, greatest_number};
ghost use Rattle.xpath_values.specs.Sides.{operand_of};

use crate::number::Num;
use crate::numerals::to_number;
use crate::side::{Side, holds};
use crate::value::Operand;
use serna_kinds::{Chars, CompareOp};

/// Whether the comparison holds of the two values (XPath 1.0, section 3.4).
///
/// A node-set against a truth is itself a truth first; else a node-set compares where some member does, by its
/// string-value. No comparison but `!=` holds of NaN.
pub fn compare(op: CompareOp, left: &Operand, right: &Operand) -> bool
    ensures { result ≡ compares op left.now right.now }
{
    match left {
        Operand::Nodes(members) => compare_nodes(op, members.as_slice(), right),
        Operand::Text(text) => compare_side(op, Side::Text(text), right),
        Operand::Number(number) => compare_side(op, Side::Number(*number), right),
        Operand::Truth(truth) => compare_side(op, Side::Truth(*truth), right),
    }
}

/// The comparison of a node-set with any value.
fn compare_nodes(op: CompareOp, members: &[Chars], right: &Operand) -> bool
    ensures { result ≡ compares op (Operand.Nodes members.now) right.now }
{
    match right {
        Operand::Nodes(others) => some_pair(op, members, others.as_slice()),
        Operand::Text(text) => some_left(op, members, Side::Text(text)),
        Operand::Number(number) => some_left(op, members, Side::Number(*number)),
        Operand::Truth(truth) => holds(op, Side::Truth(!members.is_empty()), Side::Truth(*truth)),
    }
}

/// The comparison of what is no node-set with any value.
fn compare_side(op: CompareOp, left: Side<'_>, right: &Operand) -> bool
    ensures { result ≡ compares op (operand_of left.entry) right.now }
{
    match right {
        Operand::Nodes(members) => match left {
            Side::Truth(_) => holds(op, left, Side::Truth(!members.is_empty())),
            _ => some_right(op, left, members.as_slice()),
        },
        Operand::Text(text) => holds(op, left, Side::Text(text)),
        Operand::Number(number) => holds(op, left, Side::Number(*number)),
        Operand::Truth(truth) => holds(op, left, Side::Truth(*truth)),
    }
}

/// Whether the comparison holds of some member on the left. One of order asks the least or greatest alone.
fn some_left(op: CompareOp, members: &[Chars], right: Side<'_>) -> bool
    ensures { result ≡ list_any (λ member. holds op (Operand.Text member) (operand_of right.entry)) members.now }
{
    match op {
        CompareOp::Equal | CompareOp::NotEqual => members
            .iter()
            .any(|member| holds(op, Side::Text(member), right)),
        CompareOp::Less => least(members).is_below(right.number()),
        CompareOp::LessOrEqual => least(members).is_up_to(right.number()),
        CompareOp::Greater => right.number().is_below(greatest(members)),
        CompareOp::GreaterOrEqual => right.number().is_up_to(greatest(members)),
    }
}

/// Whether the comparison holds of some member on the right. One of order asks the least or greatest alone.
fn some_right(op: CompareOp, left: Side<'_>, members: &[Chars]) -> bool
    ensures { result ≡ list_any (λ member. holds op (operand_of left.entry) (Operand.Text member)) members.now }
{
    match op {
        CompareOp::Equal | CompareOp::NotEqual => members
            .iter()
            .any(|member| holds(op, left, Side::Text(member))),
        CompareOp::Less => left.number().is_below(greatest(members)),
        CompareOp::LessOrEqual => left.number().is_up_to(greatest(members)),
        CompareOp::Greater => least(members).is_below(left.number()),
        CompareOp::GreaterOrEqual => least(members).is_up_to(left.number()),
    }
}

/// Whether the comparison holds of some member on the left and some on the right. `=` alone goes over the pairs.
fn some_pair(op: CompareOp, lefts: &[Chars], rights: &[Chars]) -> bool
    ensures { result ≡ list_any (λ left. list_any (λ right. holds op (Operand.Text left) (Operand.Text right)) rights.now) lefts.now }
{
    match op {
        CompareOp::Equal => lefts.iter().any(|left| some_right(
            CompareOp::Equal,
            Side::Text(left),
            rights,
        )),
        CompareOp::NotEqual => some_differ(lefts, rights),
        CompareOp::Less => least(lefts).is_below(greatest(rights)),
        CompareOp::LessOrEqual => least(lefts).is_up_to(greatest(rights)),
        CompareOp::Greater => least(rights).is_below(greatest(lefts)),
        CompareOp::GreaterOrEqual => least(rights).is_up_to(greatest(lefts)),
    }
}

/// Whether some text on the left is another than some on the right.
fn some_differ(lefts: &[Chars], rights: &[Chars]) -> bool
    ensures { result ≡ list_any (λ left. list_any (λ right. holds CompareOp.NotEqual (Operand.Text left) (Operand.Text right)) rights.now) lefts.now }
{
    // Where no text on the right is another than the first on the left, they are all one.
    let Some(first) = lefts.first() else {
        return false;
    };
    if some_right(CompareOp::NotEqual, Side::Text(first), rights) {
        return true;
    }
    if rights.is_empty() {
        return false;
    }
    some_left(CompareOp::NotEqual, lefts, Side::Text(first))
}

/// The least number that some text spells, and NaN where none spells one.
fn least(texts: &[Chars]) -> Num
    ensures { result ≡ least_number texts.now }
{
    texts.iter().fold(
        Num::NaN,
        |least, text| least.lesser(to_number(text.as_text())),
    )
}

/// The greatest number that some text spells, and NaN where none spells one.
fn greatest(texts: &[Chars]) -> Num
    ensures { result ≡ greatest_number texts.now }
{
    texts.iter().fold(
        Num::NaN,
        |greatest, text| greatest.greater(to_number(text.as_text())),
    )
}
