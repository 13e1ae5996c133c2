ghost use Rattle.std.specs.Prelude.{◌≡◌, ◌<◌, ◌^◌, ◌++◌, false, [], IfNone, option_map, unwrap_or};
ghost use Rattle.std.specs.Option.{SomeIff};
ghost use Rattle.std.specs.Str.Parse.{AllDigits};
ghost use Rattle.fo_lengths.specs.DecimalNumber.{sign_text, fraction_text, IsDecimal, fraction_digits, millionths, signed};
ghost use Rattle.fo_lengths.specs.Scan.{BeginsWithout, BeginsWithNoDigit, IsSplitBehindDecimal, decimal_of};

use crate::scan::{digits_number, split_digits};

/// The most digits before the point, and the most behind it.
const MOST_DIGITS: usize = 6;

/// A decimal number as it is written, taken apart. Any part may be missing.
#[derive(Clone, Copy)]
pub struct DecimalText<'a> {
    /// Is there a minus sign before it?
    pub is_negative: bool,
    /// The digits before the point.
    pub whole: &'a str,
    /// The digits behind the point, where there is one.
    pub fraction: Option<&'a str>,
}

impl DecimalText<'_> {
    /// The size of the number in millionths, its sign aside: nothing where a part has too many digits, or
    /// none has any.
    pub fn millionths(self) -> Option<u64>
        requires whole { AllDigits 10 (decimal_of self).whole }
        requires fraction { AllDigits 10 (fraction_digits (decimal_of self)) }
        ensures { SomeIff result (IsDecimal (decimal_of self.entry)) (millionths (decimal_of self.entry)) }
    {
        let fraction = self.fraction.unwrap_or("");
        if self.whole.len() > MOST_DIGITS || fraction.len() > MOST_DIGITS {
            return None;
        }
        if self.whole.is_empty() && fraction.is_empty() {
            return None;
        }
        let places = (MOST_DIGITS - fraction.len()) as u32;
        let units = u64::from(digits_number(self.whole));
        let parts = u64::from(digits_number(fraction));
        Some(units * 1_000_000 + parts * 10u64.pow(places))
    }
}

/// The number that the text begins with, and the rest.
pub fn split_decimal(text: &str) -> (DecimalText<'_>, &str)
    ensures { IsSplitBehindDecimal text.now (decimal_of result.0) result.1.now }
{
    let (is_negative, unsigned) = split_sign(text);
    let (whole, rest) = split_digits(unsigned);
    let (fraction, rest) = split_fraction(rest);
    (
        DecimalText {
            is_negative,
            whole,
            fraction,
        },
        rest,
    )
}

/// Whether the text begins with a minus sign, and the text without it.
fn split_sign(text: &str) -> (bool, &str)
    ensures written { text.now ≡ sign_text result.0 ++ result.1.now }
    ensures none { result.0 ≡ false → BeginsWithout 45 text.now }
{
    match text.strip_prefix('-') {
        Some(rest) => (true, rest),
        None => (false, text),
    }
}

/// The digits behind the point that the text begins with, if it does, and the rest.
fn split_fraction(text: &str) -> (Option<&str>, &str)
    requires { BeginsWithNoDigit text.now }
    ensures written { text.now ≡ fraction_text (option_map (λ digits. digits.now) result.0) ++ result.1.now }
    ensures decimal { AllDigits 10 (unwrap_or (option_map (λ digits. digits.now) result.0) []) }
    ensures longest { BeginsWithNoDigit result.1.now }
    ensures none { IfNone result.0 (BeginsWithout 46 result.1.now) }
{
    match text.strip_prefix('.') {
        Some(rest) => {
            let (digits, rest) = split_digits(rest);
            (Some(digits), rest)
        }
        None => (None, text),
    }
}

/// The number of that size, below 0 where it is told.
pub fn with_sign(is_negative: bool, size: u64) -> i64
    requires { size < 2 ^ 63 }
    ensures { result ≡ signed is_negative size }
{
    let number = size as i64;
    if is_negative { -number } else { number }
}
