ghost use Rattle.std.specs.Prelude.{◌≡◌};
ghost use Rattle.std.specs.Str.{chars};
ghost use Rattle.serna_kinds.specs.Blanks.{is_space, is_blank};

/// Whether a character is white space: a space, a tab, CR or LF (XML 1.0, section 2.3).
pub fn is_space(character: char) -> bool
    ensures { result ≡ is_space character }
{
    matches!(character, ' ' | '\t' | '\r' | '\n')
}

/// Whether a text has no character but white space.
pub fn is_blank(text: &str) -> bool
    ensures { result ≡ is_blank (chars text.now) }
{
    text.chars().all(is_space)
}
