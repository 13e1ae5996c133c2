ghost use Rattle.std.specs.Prelude.{◌≡◌};
ghost use Rattle.fo_tables.specs.Sizes.{natural, size};

/// The bound of every width and height.
pub(crate) const MOST: u64 = 1_000_000_000_000_000_000;

/// A number, or 0 where it is below 0.
pub(crate) fn natural(number: i64) -> u64
    ensures { result ≡ natural number }
{
    if number < 0 { 0 } else { number as u64 }
}

/// A width or a height as it counts.
pub(crate) fn size(millipoints: i64) -> u64
    ensures { result ≡ size millipoints }
{
    natural(millipoints).min(MOST)
}
