ghost use Rattle.std.specs.Prelude.{◌≡◌, ℤ, ◌↔◌, ◌≤◌, reverse, length, map, IfOk};
ghost use Rattle.std.specs.Option.{SomeIff};
ghost use Rattle.std.specs.Str.{chars};
ghost use Rattle.std.specs.Str.Parse.{AllDigits, digits_value};
ghost use Rattle.xpath_values.specs.Numbers.{sum_of};
ghost use Rattle.xpath_values.specs.Numerals.{without_spaces, trimmed, digits_number, numeral_number, text_number, number_text_of, Spells};

use crate::number::Num;
use serna_kinds::{Chars, NoMemory, is_space};
use std::alloc::Global;

/// The most digits of a number, leading zeros among them.
const MOST_DIGITS: usize = 15;

/// The number that a text spells (XPath 1.0, section 4.4): white space at its ends aside, an optional `-` and
/// 1 to 15 digits. Every other text is NaN.
pub fn to_number(text: &str) -> Num
    ensures number { result ≡ text_number (chars text.now) }
    ensures whole { (value : ℤ) → (result ≡ Num.Whole value) ↔ Spells (chars text.now) value }
    ensures nan { (result ≡ Num.NaN) ↔ ((value : ℤ) → ¬ Spells (chars text.now) value) }
{
    numeral_number(trim(text.as_bytes()))
}

/// The text of a number (XPath 1.0, section 4.2): `NaN`, or its digits with `-` before them where it is below 0.
pub fn number_text(alloc: Global, number: Num) -> Result<Chars, NoMemory>
    ensures { IfOk result (λ text. text ≡ number_text_of number) }
{
    match number {
        Num::NaN => Chars::from_text(alloc, "NaN"),
        Num::Whole(value) => {
            let text = format!(in alloc; "{value}")?;
            Chars::from_string(text)
        }
    }
}

/// `sum` (XPath 1.0, section 4.4) of nodes by their string-values: NaN where one is no number. Only the total is
/// held to 15 digits, and not what the sum is on the way.
pub fn sum(texts: &[Chars]) -> Num
    ensures { result ≡ sum_of (map text_number texts.now) }
{
    let mut total = 0;
    for text in texts {
        match to_number(text.as_text()) {
            Num::NaN => return Num::NaN,
            Num::Whole(value) => total += i128::from(value),
        }
    }
    Num::new(total)
}

/// The text without the white space at its ends.
fn trim(text: &[u8]) -> &[u8]
    ensures { result.now ≡ trimmed text.now }
{
    trim_end(trim_start(text))
}

/// The text without the white space that it begins with.
fn trim_start(text: &[u8]) -> &[u8]
    ensures { result.now ≡ without_spaces text.now }
{
    let mut rest = text;
    while let [first, behind @ ..] = rest {
        if !is_space(char::from(*first)) {
            break;
        }
        rest = behind;
    }
    rest
}

/// The text without the white space that it ends with.
fn trim_end(text: &[u8]) -> &[u8]
    ensures { result.now ≡ reverse (without_spaces (reverse text.now)) }
{
    let mut rest = text;
    while let [before @ .., last] = rest {
        if !is_space(char::from(*last)) {
            break;
        }
        rest = before;
    }
    rest
}

/// The number of a text that has no white space at its ends.
fn numeral_number(numeral: &[u8]) -> Num
    ensures { result ≡ numeral_number numeral.now }
{
    match numeral {
        [] => Num::NaN,
        [first, digits @ ..] => {
            if *first == b'-' {
                signed_number(true, digits)
            } else {
                signed_number(false, numeral)
            }
        }
    }
}

/// The number that is written with these digits, behind a minus sign or not.
fn signed_number(is_negative: bool, digits: &[u8]) -> Num
    ensures { result ≡ digits_number is_negative digits.now }
{
    if digits.is_empty() || digits.len() > MOST_DIGITS {
        return Num::NaN;
    }
    match size_of_digits(digits) {
        Some(size) => {
            let size = size as i64;
            Num::Whole(if is_negative { -size } else { size })
        }
        None => Num::NaN,
    }
}

/// The number that up to 15 digits stand for, and nothing where another character is among them.
fn size_of_digits(digits: &[u8]) -> Option<u64>
    requires { length digits.now ≤ 15 }
    ensures { SomeIff result (AllDigits 10 digits.now) (digits_value 10 digits.now) }
{
    let mut number = 0;
    for digit in digits {
        number = number * 10 + u64::from(char::from(*digit).to_digit(10)?);
    }
    Some(number)
}
