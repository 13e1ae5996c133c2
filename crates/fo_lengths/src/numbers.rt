ghost use Rattle.std.specs.Prelude.{◌≡◌, ◌↔◌, ℤ, IsErr, IfSome};
ghost use Rattle.fo_lengths.specs.NumberValue.{IsNumber, IsNumberValue};

use crate::bad_value::BadValue;
use crate::decimal::{split_decimal, with_sign};
use crate::scan::trimmed;

/// Reads a number without a unit, in millionths, so that `1.5` is 1500000: an optional `-`, up to six digits, a
/// point and up to six more where it has one, and a digit at least. Spaces at the ends do not count, and every
/// other text is bad. (XSL 1.1, 5.9.11; the bounds on digits are this project's.)
pub fn read_number(text: &str) -> Result<i64, BadValue>
    ensures value { (number : ℤ) → (result ≡ Ok number) ↔ IsNumber text.now number }
    ensures bad { IsErr result ↔ ((number : ℤ) → ¬ IsNumber text.now number) }
{
    number_value(trimmed(text)).ok_or(BadValue)
}

/// The number that a text without spaces at its ends writes, in millionths.
fn number_value(value: &str) -> Option<i64>
    ensures found { IfSome result (IsNumberValue value.now) }
    ensures only { (number : ℤ) → IsNumberValue value.now number → result ≡ Some number }
{
    let (number, rest) = split_decimal(value);
    if !rest.is_empty() {
        return None;
    }
    let millionths = number.millionths()?;
    Some(with_sign(number.is_negative, millionths))
}
