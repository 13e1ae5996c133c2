//! Sums of lengths that stay within their bounds.
ghost use Rattle.std.specs.Prelude.{◌≡◌};
ghost use Rattle.line_fill.specs.Sums.{bounded, plus, minus, natural};

/// The bound of every length and sum.
pub(crate) const MOST: u64 = 1_000_000_000_000_000_000;

/// The bound on the other side of 0.
const LEAST: i128 = -1_000_000_000_000_000_000;

/// A number, or the bound that it passes.
fn bounded(number: i128) -> i64
    ensures { result ≡ bounded number }
{
    if number < LEAST {
        LEAST as i64
    } else if number > i128::from(MOST) {
        MOST as i64
    } else {
        number as i64
    }
}

/// The sum of two lengths.
pub(crate) fn plus(a: i64, b: i64) -> i64
    ensures { result ≡ plus a b }
{
    bounded(i128::from(a) + i128::from(b))
}

/// What a length leaves of another.
pub(crate) fn minus(a: i64, b: i64) -> i64
    ensures { result ≡ minus a b }
{
    bounded(i128::from(a) - i128::from(b))
}

/// A length, or 0 where it is below 0.
pub(crate) fn natural(length: i64) -> u64
    ensures { result ≡ natural length }
{
    if length < 0 { 0 } else { length as u64 }
}
