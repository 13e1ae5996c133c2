//! A text that is being written.
ghost use Rattle.std.specs.Prelude.{◌≡◌, [], ◌++◌, IfOk, OnOk};
ghost use Rattle.std.specs.Str.{chars};

use serna_kinds::{Chars, NoMemory};
use std::alloc::Global;
use std::marker::Model;

/// A text that is being written, which contracts see as the list of its characters.
#[derive(Drop)]
pub(crate) struct Draft {
    text: String,
}

impl Model for Draft {
    ghost use Rattle.std.specs.Prelude.{ℕ, List};
    ghost use Rattle.std.specs.Str.{chars};
    ghost use Rattle.std.specs.String.{string_bytes};

    ghost Value = { List ℕ };

    ghost view = { λ draft. chars (string_bytes draft.text) };
}

impl Draft {
    /// The text without characters. Takes no memory.
    pub(crate) fn new(alloc: Global) -> Draft
        ensures { result ≡ [] }
    {
        Draft {
            text: String::new(alloc),
        }
    }

    /// Writes a text at the end.
    pub(crate) fn push_text(&mut self, text: &str) -> Result<(), NoMemory>
        ensures { OnOk result (self.new ≡ self.old ++ chars text.now) }
    {
        self.text.push_str(text)
    }

    /// The text as it is written.
    pub(crate) fn into_chars(self) -> Result<Chars, NoMemory>
        ensures { IfOk result (λ text. text ≡ self) }
    {
        let Draft { text } = self;
        Chars::from_string(text)
    }
}
