ghost use Rattle.std.specs.Prelude.{◌≡◌, ℕ, ◌↔◌, IsErr, IfSome};
ghost use Rattle.fo_lengths.specs.WholeNumber.{IsWhole, IsWholeNumber};

use crate::bad_value::BadValue;
use crate::scan::{digits_number, split_digits, trimmed};

/// The most digits of a whole number, leading zeros among them. So it is below 10^9.
const MOST_DIGITS: usize = 9;

/// Reads a whole number: one to nine decimal digits, with spaces at its ends that do not count. Every other
/// text is bad, one with a sign too. (XSL 1.1, 5.9.11; the bound of nine digits is this project's.)
pub fn read_whole(text: &str) -> Result<u32, BadValue>
    ensures value { (number : ℕ) → (result ≡ Ok number) ↔ IsWhole text.now number }
    ensures bad { IsErr result ↔ ((number : ℕ) → ¬ IsWhole text.now number) }
{
    whole_number(trimmed(text)).ok_or(BadValue)
}

/// The number that one to nine digits stand for, and nothing for any other text.
pub fn whole_number(digits: &str) -> Option<u32>
    ensures found { IfSome result (IsWholeNumber digits.now) }
    ensures only { (number : ℕ) → IsWholeNumber digits.now number → result ≡ Some number }
{
    // The length first, so that a long text is not gone over.
    if digits.is_empty() || digits.len() > MOST_DIGITS {
        return None;
    }
    let (number, rest) = split_digits(digits);
    if rest.is_empty() {
        Some(digits_number(number))
    } else {
        None
    }
}
