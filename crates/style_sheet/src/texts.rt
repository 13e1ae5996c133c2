//! What the texts of a stylesheet are.
ghost use Rattle.std.specs.Prelude.{◌≡◌, bytes_eq, encode_utf8_all};
ghost use Rattle.std.specs.List.{list_any};
ghost use Rattle.serna_kinds.specs.Blanks.{is_blank};
ghost use Rattle.style_sheet.specs.Built.{is_brace};

use serna_kinds::Chars;

// Whether a text is white space alone.
pub(crate) fn is_blank(text: &Chars) -> bool
    ensures { result ≡ is_blank text.now }
{
    serna_kinds::is_blank(text.as_text())
}

fn is_brace(character: char) -> bool
    ensures { result ≡ is_brace character }
{
    matches!(character, '{' | '}')
}

// Whether a text has a brace, so that it is a value template (XSLT 1.0, section 7.6.2).
pub(crate) fn has_brace(text: &Chars) -> bool
    ensures { result ≡ list_any is_brace text.now }
{
    text.as_text().chars().any(is_brace)
}

// Whether a text is this word.
pub(crate) fn is_word(text: &Chars, word: &str) -> bool
    ensures { result ≡ bytes_eq (encode_utf8_all text.now) word.now }
{
    text.as_text() == word
}
