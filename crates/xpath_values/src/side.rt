ghost use Rattle.std.specs.Prelude.{◌≡◌};
ghost use Rattle.xpath_values.specs.Values.{operand_truth, operand_number};
ghost use Rattle.xpath_values.specs.Comparisons.{is_equal, holds};
ghost use Rattle.xpath_values.specs.Sides.{operand_of};

use crate::number::Num;
use crate::numerals::to_number;
use serna_kinds::{Chars, CompareOp};

/// A side of a comparison that is no node-set.
#[derive(Clone, Copy)]
pub(crate) enum Side<'a> {
    Text(&'a Chars),
    Number(Num),
    Truth(bool),
}

impl Side<'_> {
    /// The side as a truth (XPath 1.0, section 4.3).
    fn truth(self) -> bool
        ensures { result ≡ operand_truth (operand_of self.entry) }
    {
        match self {
            Side::Text(text) => !text.as_text().is_empty(),
            Side::Number(number) => number.is_true(),
            Side::Truth(holds) => holds,
        }
    }

    /// The side as a number (XPath 1.0, section 4.4).
    pub(crate) fn number(self) -> Num
        ensures { result ≡ operand_number (operand_of self.entry) }
    {
        match self {
            Side::Text(text) => to_number(text.as_text()),
            Side::Number(number) => number,
            Side::Truth(holds) => Num::from(holds),
        }
    }
}

/// Whether the comparison holds (XPath 1.0, section 3.4).
pub(crate) fn holds(op: CompareOp, left: Side<'_>, right: Side<'_>) -> bool
    ensures { result ≡ holds op (operand_of left.entry) (operand_of right.entry) }
{
    match op {
        CompareOp::Equal => are_equal(left, right),
        CompareOp::NotEqual => !are_equal(left, right),
        CompareOp::Less => left.number().is_below(right.number()),
        CompareOp::LessOrEqual => left.number().is_up_to(right.number()),
        CompareOp::Greater => right.number().is_below(left.number()),
        CompareOp::GreaterOrEqual => right.number().is_up_to(left.number()),
    }
}

/// Whether the sides are equal: as truths if one is a truth, else as numbers if one is a number, else as texts.
fn are_equal(left: Side<'_>, right: Side<'_>) -> bool
    ensures { result ≡ is_equal (operand_of left.entry) (operand_of right.entry) }
{
    match (left, right) {
        (Side::Truth(holds), _) => holds == right.truth(),
        (_, Side::Truth(holds)) => left.truth() == holds,
        (Side::Number(number), _) => number.equals(right.number()),
        (_, Side::Number(number)) => left.number().equals(number),
        (Side::Text(left), Side::Text(right)) => left.as_text() == right.as_text(),
    }
}
