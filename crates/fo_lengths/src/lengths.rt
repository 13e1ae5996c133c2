ghost use Rattle.std.specs.Prelude.{◌≡◌, ◌↔◌, IsErr, IfSome};
ghost use Rattle.fo_lengths.specs.LengthValue.{IsLength, IsLengthValue};
ghost use Rattle.fo_lengths.specs.declared.lengths.Length.{Length};

use crate::bad_value::BadValue;
use crate::decimal::split_decimal;
use crate::scan::trimmed;
use crate::unit::LengthUnit;

/// A length or a percentage, as it is written.
#[derive(Clone, Copy, Debug, PartialEq, Eq)]
pub enum Length {
    /// In millipoints: thousandths of 1/72 inch.
    Points(i64),
    /// In millionths of one em, the font size: `1.5em` is 1500000.
    Em(i64),
    /// In millionths of one per cent: `50%` is 50000000.
    Percent(i64),
}

/// Reads a length: an optional `-`, up to six digits, a point and up to six more where it has one, a digit at
/// least, and one of the units `pt`, `pc`, `in`, `cm`, `mm`, `em` and `%` right behind it; or `0` alone.
/// Points are cut to whole millipoints, toward 0. Spaces at the ends do not count, and every other text is bad.
/// (XSL 1.1, 5.9.6, 5.9.7 and 5.9.13; the bounds on digits are this project's.)
pub fn read_length(text: &str) -> Result<Length, BadValue>
    ensures value { (length : Length) → (result ≡ Ok length) ↔ IsLength text.now length }
    ensures bad { IsErr result ↔ ((length : Length) → ¬ IsLength text.now length) }
{
    length_value(trimmed(text)).ok_or(BadValue)
}

/// The length that a text without spaces at its ends writes.
fn length_value(value: &str) -> Option<Length>
    ensures found { IfSome result (IsLengthValue value.now) }
    ensures only { (length : Length) → IsLengthValue value.now length → result ≡ Some length }
{
    if value == "0" {
        return Some(Length::Points(0));
    }
    let (number, name) = split_decimal(value);
    let unit = LengthUnit::named(name)?;
    let millionths = number.millionths()?;
    Some(unit.length(number.is_negative, millionths))
}
