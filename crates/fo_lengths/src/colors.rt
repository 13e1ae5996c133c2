ghost use Rattle.std.specs.Prelude.{◌≡◌, ℕ, ◌+◌, ◌*◌, ◌<◌, ◌≤◌, ◌↔◌, List, ◌++◌, IsErr, IfSome, IsSomeAnd, length};
ghost use Rattle.std.specs.Option.{SomeIff};
ghost use Rattle.std.specs.Char.{digit_value};
ghost use Rattle.std.specs.Str.Parse.{AllDigits, digits_value};
ghost use lib.Chars.{codes};
ghost use Rattle.fo_lengths.specs.ColorValue.{IsColor, IsColorValue, IsChannel, IsRgb, IsHexDigits, color_named};
ghost use Rattle.fo_lengths.specs.Scan.{IsSplitBehindChannel};

use crate::bad_value::BadValue;
use crate::scan::trimmed;
use crate::whole::whole_number;

/// Reads a colour as 0xRRGGBB: `#rgb` or `#rrggbb` in hexadecimal digits of either case, `rgb(r,g,b)` with
/// whole numbers up to 255 and no space inside, or one of the sixteen names of HTML in lower case. Spaces at
/// the ends do not count, and every other text is bad. (XSL 1.1, 5.9.9 and 5.11; CSS 2, 4.3.6; HTML 4.01, 6.5.)
pub fn read_color(text: &str) -> Result<u32, BadValue>
    ensures value { (color : ℕ) → (result ≡ Ok color) ↔ IsColor text.now color }
    ensures bad { IsErr result ↔ ((color : ℕ) → ¬ IsColor text.now color) }
{
    color_value(trimmed(text)).ok_or(BadValue)
}

/// The colour that a text without spaces at its ends writes, in one of its forms.
fn color_value(value: &str) -> Option<u32>
    ensures found { IfSome result (IsColorValue value.now) }
    ensures only { (color : ℕ) → IsColorValue value.now color → result ≡ Some color }
{
    if let Some(digits) = value.strip_prefix('#') {
        hex_color(digits.as_bytes())
    } else if let Some(channels) = value.strip_prefix("rgb(") {
        rgb_color(channels)
    } else {
        named_color(value)
    }
}

/// The colour that is written `#` and these digits: three of them, or six.
fn hex_color(digits: &[u8]) -> Option<u32>
    ensures found { IfSome result (IsHexDigits digits.now) }
    ensures only { (color : ℕ) → IsHexDigits digits.now color → result ≡ Some color }
{
    match *digits {
        [r, g, b] => hex_number(&[r, r, g, g, b, b]),
        [_, _, _, _, _, _] => hex_number(digits),
        _ => None,
    }
}

/// The number that up to seven hexadecimal digits of either letter case stand for, and nothing where another
/// character is among them.
fn hex_number(digits: &[u8]) -> Option<u32>
    requires { length digits.now ≤ 7 }
    ensures { SomeIff result (AllDigits 16 digits.now) (digits_value 16 digits.now) }
{
    let mut number = 0;
    for digit in digits {
        number = number * 16 + char::from(*digit).to_digit(16)?;
    }
    Some(number)
}

/// The colour that is written `rgb(` and this text.
fn rgb_color(rest: &str) -> Option<u32>
    ensures found { IfSome result (IsRgb (codes "rgb(" ++ rest.now)) }
    ensures only { (color : ℕ) → IsRgb (codes "rgb(" ++ rest.now) color → result ≡ Some color }
{
    let (red, rest) = split_channel(rest, ',')?;
    let (green, rest) = split_channel(rest, ',')?;
    let (blue, rest) = split_channel(rest, ')')?;
    if rest.is_empty() {
        Some(color_of(red, green, blue))
    } else {
        None
    }
}

/// The part of `rgb( )` that the text begins with, up to the first `end`, and what follows that.
fn split_channel(text: &str, end: char) -> Option<(u8, &str)>
    requires ascii { end < 128 }
    requires no_digit { 10 ≤ digit_value end }
    ensures found { IfSome result (λ part. IsSplitBehindChannel text.now end part.0 part.1.now) }
    ensures only { (channel : ℕ) (rest : List ℕ) → IsSplitBehindChannel text.now end channel rest → IsSomeAnd result (λ part. (part.0 ≡ channel) × (part.1.now ≡ rest)) }
{
    let (digits, rest) = text.split_once(end)?;
    Some((channel(digits)?, rest))
}

/// A part of `rgb( )`.
fn channel(digits: &str) -> Option<u8>
    ensures found { IfSome result (IsChannel digits.now) }
    ensures only { (channel : ℕ) → IsChannel digits.now channel → result ≡ Some channel }
{
    u8::try_from(whole_number(digits)?).ok()
}

/// The colour 0xRRGGBB with these channels.
fn color_of(red: u8, green: u8, blue: u8) -> u32
    ensures { result ≡ red * 0x1_0000 + green * 0x100 + blue }
{
    u32::from(red) * 0x1_0000 + u32::from(green) * 0x100 + u32::from(blue)
}

/// The colour of that name, in lower case.
fn named_color(name: &str) -> Option<u32>
    ensures { result ≡ color_named name.now }
{
    let color = match name {
        "black" => 0x00_0000,
        "silver" => 0xc0_c0c0,
        "gray" => 0x80_8080,
        "white" => 0xff_ffff,
        "maroon" => 0x80_0000,
        "red" => 0xff_0000,
        "purple" => 0x80_0080,
        "fuchsia" => 0xff_00ff,
        "green" => 0x00_8000,
        "lime" => 0x00_ff00,
        "olive" => 0x80_8000,
        "yellow" => 0xff_ff00,
        "navy" => 0x00_0080,
        "blue" => 0x00_00ff,
        "teal" => 0x00_8080,
        "aqua" => 0x00_ffff,
        _ => return None,
    };
    Some(color)
}
