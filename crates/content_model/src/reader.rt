//! Reads a model from its bytes, one after another.

ghost use Rattle.std.specs.Prelude.{◌≡◌, ◌<◌, ◌+◌, ◌∷◌, ℕ, List, [], IfOk, OnOk, MatchOption, length, slice_index};
ghost use Rattle.std.specs.Option.{option_map};
ghost use Rattle.content_model.specs.Symbols.{number_in, Grows};
ghost use Rattle.content_model.specs.Machine.{State, Slot, Reading, Want, slot_state, filled, step, start as at_start, begin as begin_at, next_part as part_after, mark_at, finish as ending};
ghost use Rattle.content_model.specs.Shown.{Shows, Ends, token_of};
ghost use Rattle.content_model.specs.ShownReader.{Reads, ReadsAs, GoesAs, Goes, BeganBy, IsLeft, IsOff, is_colon as is_behind_colon};

use crate::NoMemory;
use crate::builder::{Begun, Builder, Mark};
use crate::model::Rule;
use crate::particle::{Occurrence, Separator};
use crate::symbols::Symbols;
use serna_kinds::{begins_name, continues_name};
use std::alloc::Global;

/// Which part of a name a byte stands in.
#[derive(Clone, Copy, Debug)]
pub enum NamePart {
    /// The local name, or the prefix: a colon may follow.
    First,
    /// Behind the colon.
    Colon,
    /// The local name behind a prefix.
    Local,
}

/// The token that the reader is in.
#[derive(Clone, Copy, Debug)]
pub enum Token {
    None,
    /// What is left of a fixed word.
    Fixed(&'static [u8]),
    /// A name, which began at this byte.
    Name(NamePart, usize),
}

/// What was read so far.
#[derive(Drop)]
pub struct Reader {
    pub token: Token,
    pub builder: Builder,
}

/// The part of a name that the next byte stands in, or `None` where the name can't go on with it.
fn next_part(part: NamePart, byte: u8) -> Option<NamePart>
    ensures { result ≡ part_after part byte }
{
    match part {
        NamePart::First => {
            if continues_name(byte) {
                Some(NamePart::First)
            } else if byte == b':' {
                Some(NamePart::Colon)
            } else {
                None
            }
        }
        NamePart::Colon => {
            if begins_name(byte) {
                Some(NamePart::Local)
            } else {
                None
            }
        }
        NamePart::Local => {
            if continues_name(byte) {
                Some(NamePart::Local)
            } else {
                None
            }
        }
    }
}

/// Whether a name can't end here, directly behind its colon.
fn is_colon(part: NamePart) -> bool
    ensures { result ≡ is_behind_colon part }
{
    match part {
        NamePart::First => false,
        NamePart::Colon => true,
        NamePart::Local => false,
    }
}

/// The token of this one byte.
fn mark_of(byte: u8) -> Option<Mark>
    ensures { option_map token_of result ≡ mark_at byte }
{
    if byte == b'(' {
        Some(Mark::Open)
    } else if byte == b')' {
        Some(Mark::Close)
    } else if byte == b',' {
        Some(Mark::Between(Separator::Sequence))
    } else if byte == b'|' {
        Some(Mark::Between(Separator::Choice))
    } else if byte == b'?' {
        Some(Mark::Times(Occurrence::Optional))
    } else if byte == b'*' {
        Some(Mark::Times(Occurrence::ZeroOrMore))
    } else if byte == b'+' {
        Some(Mark::Times(Occurrence::OneOrMore))
    } else {
        None
    }
}

/// What is left of a fixed word behind this byte, or `None` where the word does not go on with it.
fn next_of_fixed(rest: &'static [u8], byte: u8) -> Option<Token>
    ensures { MatchOption result (IsOff rest.now byte) (λ t. (tail : List ℕ) × (rest.now ≡ byte ∷ tail) × IsLeft tail t) }
{
    match rest {
        [] => None,
        [last] => {
            if *last == byte {
                Some(Token::None)
            } else {
                None
            }
        }
        [first, tail @ ..] => {
            if *first == byte {
                Some(Token::Fixed(tail))
            } else {
                None
            }
        }
    }
}

impl Reader {
    /// Before the first byte.
    pub fn new(alloc: Global) -> Reader
        ensures token { result.token ≡ Token.None }
        ensures builder { (number : List ℕ → ℕ) → Shows number result.builder (Want []) }
    {
        Reader {
            token: Token::None,
            builder: Builder::new(alloc),
        }
    }

    /// Reads the byte at this place of the text, all bytes before it having been read. Answers whether a model can go on
    /// with it.
    pub fn byte(
        &mut self,
        alloc: Global,
        symbols: &mut Symbols,
        text: &[u8],
        at: usize,
    ) -> Result<bool, NoMemory>
        requires in_text { at < length text.now }
        requires began { BeganBy at self.old.token }
        ensures goes { IfOk result (λ ok. (reading : Reading) → Reads symbols.old text.now at self.old reading
            → Goes symbols.new text.now (at + 1) ok self.new (step reading (slice_index text.now at))) }
        ensures later { IfOk result (λ _. BeganBy (at + 1) self.new.token) }
        ensures grows { Grows symbols.old symbols.new }
    {
        let byte = text[at];
        match self.token {
            Token::None => {
                let ok = self.begin(byte, at)?;
                Ok(ok)
            }
            Token::Fixed(rest) => match next_of_fixed(rest, byte) {
                Some(token) => {
                    self.token = token;
                    Ok(true)
                }
                None => Ok(false),
            },
            Token::Name(part, start) => match next_part(part, byte) {
                Some(next) => {
                    self.token = Token::Name(next, start);
                    Ok(true)
                }
                None => {
                    if is_colon(part) {
                        Ok(false)
                    } else {
                        self.end_name(alloc, symbols, &text[start..at])?;
                        let ok = self.begin(byte, at)?;
                        Ok(ok)
                    }
                }
            },
        }
    }

    /// A whole name.
    fn end_name(
        &mut self,
        alloc: Global,
        symbols: &mut Symbols,
        written: &[u8],
    ) -> Result<(), NoMemory>
        ensures token { OnOk result (self.new.token ≡ Token.None) }
        ensures named { OnOk result ((later : List (List ℕ)) (slot : Slot) → Grows symbols.new later → Shows (number_in later) self.old.builder (slot_state slot)
            → Shows (number_in later) self.new.builder (filled slot written.now)) }
        ensures grows { Grows symbols.old symbols.new }
    {
        let symbol = symbols.intern_bytes(alloc, written)?;
        self.builder.name(symbol)?;
        self.token = Token::None;
        Ok(())
    }

    /// The first byte of a token, or a space.
    fn begin(&mut self, byte: u8, at: usize) -> Result<bool, NoMemory>
        ensures goes { IfOk result (λ ok. (number : List ℕ → ℕ) (s : State) (text : List ℕ) → self.old.token ≡ Token.None → at < length text → slice_index text at ≡ byte
            → Shows number self.old.builder s → GoesAs number text (at + 1) ok self.new (begin_at s byte)) }
        ensures later { IfOk result (λ _. self.old.token ≡ Token.None → BeganBy (at + 1) self.new.token) }
    {
        if byte == b' ' {
            return Ok(true);
        }
        match mark_of(byte) {
            Some(mark) => {
                let ok = self.builder.mark(mark)?;
                Ok(ok)
            }
            None => match self.builder.begin_word(byte) {
                Begun::Nothing => Ok(false),
                Begun::Name => {
                    self.token = Token::Name(NamePart::First, at);
                    Ok(true)
                }
                Begun::Fixed(rest) => {
                    self.token = Token::Fixed(rest);
                    Ok(true)
                }
            },
        }
    }

    /// The model, where the text may end here.
    pub fn finish(self) -> Option<Rule>
        ensures { (number : List ℕ → ℕ) (text : List ℕ) (at : ℕ) (reading : Reading) → ReadsAs number text at self reading → Ends number result (ending reading) }
    {
        match self.token {
            Token::None => self.builder.finish(),
            Token::Fixed(_) => None,
            Token::Name(_, _) => None,
        }
    }
}
