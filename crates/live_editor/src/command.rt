ghost use Rattle.std.specs.Prelude.{◌≡◌, ◌==◌, [], ◌∷◌, IfSome, IfNone, IfOk, position};
ghost use Rattle.std.specs.Option.{option_map};
ghost use Rattle.plain_editor.specs.Plain.{is_plain};
ghost use Rattle.plain_editor.specs.Commands.{command_of, at_parts, typing, parts_of, read_number, behind_front};
ghost use Rattle.live_editor.specs.Said.{said};

use serna_kinds::{Chars, NoMemory};
use std::alloc::Global;
use tree_lines::unescape;

/// What a command line says.
#[derive(Debug, Drop)]
pub(crate) enum Command {
    Show,
    /// A page, a line and a column.
    At(u32, u32, u32),
    /// The characters to type, of which there are some.
    Typing(Chars),
    Where,
    Source,
    /// A line of a form that is not built, or of none.
    NotBuilt,
}

const SHOW: &[u8] = b"show";

const WHERE: &[u8] = b"where";

const SOURCE: &[u8] = b"source";

const AT: &[u8] = b"at ";

const TYPE: &[u8] = b"type ";

/// The longest number, in digits.
const MAX_DIGITS: usize = 9;

/// Reads a command line. `Err` comes where there is no memory for the characters to type.
pub(crate) fn read_command(alloc: Global, line: &[u8]) -> Result<Command, NoMemory>
    ensures { IfOk result (λ command. said command ≡ command_of line.now) }
{
    if line == SHOW {
        return Ok(Command::Show);
    }
    if line == WHERE {
        return Ok(Command::Where);
    }
    if line == SOURCE {
        return Ok(Command::Source);
    }
    if let Some(rest) = behind(line, AT) {
        return Ok(read_at(rest));
    }
    match behind(line, TYPE) {
        Some(text) => read_typing(alloc, text),
        None => Ok(Command::NotBuilt),
    }
}

/// What follows a front of a line.
fn behind<'a>(line: &'a [u8], front: &[u8]) -> Option<&'a [u8]>
    ensures { option_map (λ rest. rest.now) result ≡ behind_front front.now line.now }
{
    line.strip_prefix(front)
}

/// Reads what follows `at `: a page, a line and a column.
fn read_at(rest: &[u8]) -> Command
    ensures { said result ≡ at_parts (parts_of rest.now) }
{
    let Some((page, rest)) = split_at_space(rest) else {
        return Command::NotBuilt;
    };
    let Some((line, column)) = split_at_space(rest) else {
        return Command::NotBuilt;
    };
    let (Some(page), Some(line), Some(column)) = (
        read_number(page),
        read_number(line),
        read_number(column),
    ) else {
        return Command::NotBuilt;
    };
    Command::At(page, line, column)
}

/// What stands before the first space, which is the first part, and what stands behind it, which has the others.
fn split_at_space(text: &[u8]) -> Option<(&[u8], &[u8])>
    ensures cut { IfSome result (λ cut. parts_of text.now ≡ cut.0.now ∷ parts_of cut.1.now) }
    ensures whole { IfNone result (parts_of text.now ≡ text.now ∷ []) }
{
    let place = first_space(text)?;
    Some((&text[..place], &text[place + 1..]))
}

/// The place of the first space.
fn first_space(text: &[u8]) -> Option<usize>
    ensures { result ≡ position (λ b. b == 32) text.now }
{
    text.iter().position(|b| *b == b' ')
}

/// A number of one to nine digits.
fn read_number(digits: &[u8]) -> Option<u32>
    ensures { result ≡ read_number digits.now }
{
    if digits.is_empty() || digits.len() > MAX_DIGITS {
        return None;
    }
    let mut number = 0u32;
    for digit in digits {
        if !digit.is_ascii_digit() {
            return None;
        }
        number = number * 10 + (*digit - b'0') as u32;
    }
    Some(number)
}

/// Reads what follows `type `: a text that is not empty, of printable ASCII with the escapes of text lines.
fn read_typing(alloc: Global, text: &[u8]) -> Result<Command, NoMemory>
    ensures { IfOk result (λ command. said command ≡ typing text.now) }
{
    if text.is_empty() || !is_plain(text) {
        return Ok(Command::NotBuilt);
    }
    let Ok(text) = std::str::from_utf8(text) else {
        return Ok(Command::NotBuilt);
    };
    match unescape(alloc, text)? {
        Some(characters) => Ok(Command::Typing(characters)),
        None => Ok(Command::NotBuilt),
    }
}

/// Whether the bytes are printable ASCII.
pub fn is_plain(bytes: &[u8]) -> bool
    ensures { result ≡ is_plain bytes.now }
{
    bytes.iter().all(|c| matches!(*c, b' '..=b'~'))
}
