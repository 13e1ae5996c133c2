ghost use Rattle.std.specs.Prelude.{◌≡◌, [], IfOk, OnOk, OnErr};
ghost use Rattle.std.specs.Str.{chars};
ghost use Rattle.std.specs.String.{string_bytes};

use std::alloc::{AllocError, Global};
use std::marker::Model;
use std::sync::ArcStr;

/// A text that contracts see as the list of its characters (Unicode scalar values).
///
/// Its memory is shared: copies of one text share it, also among threads, and whoever changes a copy gets a text of its own.
#[derive(Debug, Drop)]
pub struct Chars {
    text: ArcStr,
}

impl Model for Chars {
    ghost use Rattle.std.specs.Prelude.{ℕ, List};
    ghost use Rattle.std.specs.Str.{chars};
    ghost use Rattle.std.specs.Arc.{arc_str_bytes};

    ghost Value = { List ℕ };

    ghost view = { λ c. chars (arc_str_bytes c.text) };
}

impl Chars {
    ghost use Rattle.std.specs.Prelude.{encode_utf8_all};
    ghost use Rattle.serna_kinds.specs.Texts.{IsPlaceIn, inserted};

    /// The text without characters.
    pub fn new(alloc: Global) -> Result<Chars, AllocError>
        ensures { IfOk result (λ c. c ≡ []) }
    {
        Chars::from_text(alloc, "")
    }

    /// The characters of a text that the caller hands over. Takes memory for what is shared beside it, and none for the text.
    pub fn from_string(text: String) -> Result<Chars, AllocError>
        ensures { IfOk result (λ c. c ≡ chars (string_bytes text)) }
    {
        let text = ArcStr::from_string(text)?;
        Ok(Chars { text })
    }

    /// The characters of `text`, in memory of their own.
    pub fn from_text(alloc: Global, text: &str) -> Result<Chars, AllocError>
        ensures { IfOk result (λ c. c ≡ chars text.now) }
    {
        let text = ArcStr::from_str(alloc, text)?;
        Ok(Chars { text })
    }

    /// The text in UTF-8.
    pub fn as_text(&self) -> &str
        ensures characters { chars result.now ≡ self.now }
        ensures bytes { result.now ≡ encode_utf8_all self.now }
    {
        self.text.as_str()
    }

    /// The same text, which shares its memory. Takes none; `Err` comes only where 2^63 copies are there.
    pub fn copy(&self) -> Result<Chars, AllocError>
        ensures { IfOk result (λ c. c ≡ self.now) }
    {
        let text = self.text.clone()?;
        Ok(Chars { text })
    }

    /// Puts a piece in at a place, in bytes. The text then has memory of its own, and its other copies stay. After an error
    /// it is as before.
    pub fn insert(&mut self, alloc: Global, at: usize, piece: &Chars) -> Result<(), AllocError>
        requires { IsPlaceIn self.old at }
        ensures ok { OnOk result (self.new ≡ inserted at piece.now self.old) }
        ensures err { OnErr result (self.new ≡ self.old) }
    {
        let mut text = String::from_str(alloc, self.as_text())?;
        text.insert_str(at, piece.as_text())?;
        *self = Chars::from_string(text)?;
        Ok(())
    }
}
