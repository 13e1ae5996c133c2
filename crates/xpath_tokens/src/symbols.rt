//! The tokens of a text as the grammar sees them.

ghost use Rattle.std.specs.Prelude.{◌≡◌, List, IfOk, OnOk};
ghost use Rattle.std.specs.List.{AllByRecursion};
ghost use Rattle.serna_kinds.specs.Names.{NameParts, Grows};
ghost use Rattle.xpath_tokens.specs.Tokens.{IsCut};
ghost use Rattle.xpath_tokens.specs.Symbols.{written_at, symbols_at};
ghost use Rattle.xpath_tokens.specs.Named.{HasNames, names_of, with_names};

use crate::NoMemory;
use crate::stack::Stack;
use crate::symbol::Symbol;
use crate::tokens::Token;
use crate::words::symbol_of;
use serna_kinds::{Items, NameTable, Spaces};
use std::alloc::Global;

/// How a token is written.
pub fn written_at(text: &str, token: Token) -> &str
    requires { IsCut text.now token }
    ensures { result.now ≡ written_at text.now token }
{
    let (_, rest) = text.split_at(token.start);
    let (written, _) = rest.split_at(token.end - token.start);
    written
}

/// The tokens as the grammar sees them, the first on top. The table gets their names.
pub fn symbols_at(
    alloc: Global,
    text: &str,
    tokens: &[Token],
    spaces: &Spaces,
    names: &mut NameTable,
) -> Result<Stack<Symbol>, NoMemory>
    requires { AllByRecursion (IsCut text.now) tokens.now }
    ensures symbols { IfOk result (λ symbols. (later : List NameParts) → Grows names.new later → symbols ≡ symbols_at spaces.now later text.now tokens.now) }
    ensures named { OnOk result ((later : List NameParts) → Grows names.new later → HasNames spaces.now later text.now tokens.now) }
    // It gets them in the tokens' order, and no others.
    ensures names { OnOk result (names.new ≡ with_names names.old (names_of spaces.now text.now tokens.now)) }
    ensures grows { Grows names.old names.new }
{
    let mut symbols = Items::new(alloc);
    for token in tokens {
        let written = written_at(text, *token);
        symbols.push(symbol_of(alloc, token.kind, written, spaces, names)?)?;
    }
    Stack::from_items(alloc, symbols)
}
