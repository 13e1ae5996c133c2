//! The characters of lines, and the escapes in texts.
ghost use Rattle.std.specs.Prelude.{◌≡◌, ◌&&◌, ◌∷◌, true, false, [], Some, None, List, ℕ, IfOk, OnOk, MatchOption, if◌then◌else◌};
ghost use Rattle.std.specs.List.{list_all};
ghost use Rattle.std.specs.Str.{chars};
ghost use Rattle.tree_lines.specs.Texts.{is_allowed, is_line, has_escapes, meant};
ghost use Rattle.tree_lines.specs.Decoding.{Decoding, text_with, right_with};

use crate::draft::Draft;
use serna_kinds::{Chars, NoMemory};
use std::alloc::Global;
use std::marker::Model;
use std::str;

// Whether a character may stand in a line (after XML 1.0, section 2.2, Char).
fn is_allowed(c: char) -> bool
    ensures { result ≡ is_allowed c }
{
    c >= ' ' && c != '\u{fffe}' && c != '\u{ffff}'
}

fn are_allowed(text: &str) -> bool
    ensures { result ≡ list_all is_allowed (chars text.now) }
{
    text.chars().all(|c| is_allowed(c))
}

// The text of a line's bytes; None where they are not UTF-8 or have a character that may not stand in a line.
pub(crate) fn line_text(bytes: &[u8]) -> Option<&str>
    ensures { MatchOption result (is_line bytes.now ≡ false) (λ text. (is_line bytes.now ≡ true) × (text.now ≡ bytes.now)) }
{
    let Ok(text) = str::from_utf8(bytes) else {
        return None;
    };
    if !are_allowed(text) {
        return None;
    }
    Some(text)
}

// What a text means, and whether each backslash in it has its escape behind it. One that has none means itself, and so does
// the character behind it.
#[derive(Drop)]
pub(crate) struct Decoded {
    pub(crate) meant: Chars,
    pub(crate) is_right: bool,
}

// A text with escapes while it is read.
#[derive(Drop)]
struct Decoder {
    text: Draft,
    is_behind: bool,
    is_right: bool,
}

impl Model for Decoder {
    ghost use Rattle.tree_lines.specs.Decoding.{Decoding};

    ghost Value = { Decoding };

    ghost view = { λ d. record { text = d.text; is_behind = d.is_behind; is_right = d.is_right } };
}

impl Decoder {
    fn new(alloc: Global) -> Decoder
        ensures { result ≡ record { text = []; is_behind = false; is_right = true } }
    {
        Decoder {
            text: Draft::new(alloc),
            is_behind: false,
            is_right: true,
        }
    }

    // Reads the character behind a backslash.
    fn push_behind(&mut self, c: char) -> Result<(), NoMemory>
        ensures text { OnOk result ((rest : List ℕ) → self.old.is_behind ≡ true → text_with self.new rest ≡ text_with self.old (c ∷ rest)) }
        ensures right { OnOk result ((rest : List ℕ) → self.old.is_behind ≡ true → right_with self.new rest ≡ right_with self.old (c ∷ rest)) }
    {
        self.is_behind = false;
        match c {
            '\\' => self.text.push('\\')?,
            'n' => self.text.push('\n')?,
            't' => self.text.push('\t')?,
            _ => {
                self.is_right = false;
                self.text.push('\\')?;
                self.text.push(c)?;
            }
        }
        Ok(())
    }

    // Reads a character.
    fn push(&mut self, c: char) -> Result<(), NoMemory>
        ensures text { OnOk result ((rest : List ℕ) → text_with self.new rest ≡ text_with self.old (c ∷ rest)) }
        ensures right { OnOk result ((rest : List ℕ) → right_with self.new rest ≡ right_with self.old (c ∷ rest)) }
    {
        if self.is_behind {
            self.push_behind(c)?;
            return Ok(());
        }
        if c == '\\' {
            self.is_behind = true;
            return Ok(());
        }
        self.text.push(c)?;
        Ok(())
    }

    // Reads the end of the text.
    fn end(self) -> Result<Decoded, NoMemory>
        ensures text { IfOk result (λ decoded. decoded.meant ≡ text_with self []) }
        ensures right { IfOk result (λ decoded. decoded.is_right ≡ right_with self []) }
    {
        let Decoder {
            mut text,
            is_behind,
            is_right,
        } = self;
        if is_behind {
            text.push('\\')?;
        }
        Ok(Decoded {
            meant: text.into_chars()?,
            is_right: is_right && !is_behind,
        })
    }
}

// The characters that a text means: `\\` a backslash, `\n` LF and `\t` a tab.
pub(crate) fn decode(alloc: Global, text: &str) -> Result<Decoded, NoMemory>
    ensures text { IfOk result (λ decoded. decoded.meant ≡ meant text.now) }
    ensures right { IfOk result (λ decoded. decoded.is_right ≡ has_escapes text.now) }
{
    let mut decoder = Decoder::new(alloc);
    for c in text.chars() {
        decoder.push(c)?;
    }
    let decoded = decoder.end()?;
    Ok(decoded)
}

/// The characters that a text means: `\\` a backslash, `\n` LF and `\t` a tab.
///
/// None exactly where a backslash has another character behind it, or stands at the end.
pub fn unescape(alloc: Global, text: &str) -> Result<Option<Chars>, NoMemory>
    ensures { IfOk result (λ found. found ≡ (if has_escapes text.now then Some (meant text.now) else None)) }
{
    let Decoded { meant, is_right } = decode(alloc, text)?;
    if is_right {
        return Ok(Some(meant));
    }
    Ok(None)
}
