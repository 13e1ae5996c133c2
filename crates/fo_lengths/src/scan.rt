// What the readers share: spaces at the ends of a text, and runs of digits.
ghost use Rattle.std.specs.Prelude.{◌≡◌, ◌≤◌, length};
ghost use Rattle.std.specs.Str.Parse.{AllDigits, digits_value};
ghost use Rattle.fo_lengths.specs.Scan.{IsSplitBehindDigits};
ghost use Rattle.fo_lengths.specs.Padding.{IsTrimmed};

/// The text without the spaces (U+0020) at its ends, all of them. Other white space stays.
pub fn trimmed(text: &str) -> &str
    ensures { IsTrimmed text.now result.now }
{
    text.trim_matches(' ')
}

/// The decimal digits that the text begins with, and the rest.
pub fn split_digits(text: &str) -> (&str, &str)
    ensures { IsSplitBehindDigits text.now result.0.now result.1.now }
{
    match text.find(|c: char| !c.is_ascii_digit()) {
        Some(end) => text.split_at(end),
        None => (text, ""),
    }
}

/// The number that up to nine decimal digits stand for: 0 for none.
pub fn digits_number(digits: &str) -> u32
    requires decimal { AllDigits 10 digits.now }
    requires few { length digits.now ≤ 9 }
    ensures { result ≡ digits_value 10 digits.now }
{
    digits.parse().unwrap_or(0)
}
