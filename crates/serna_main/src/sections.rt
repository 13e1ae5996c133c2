ghost use Rattle.std.specs.Prelude.{◌≡◌, ◌+◌, ◌≤◌, IfOk, IfSome, IfNone, length, drop, position, ◌==◌};
ghost use Rattle.std.specs.List.{position_or_len};
ghost use Rattle.plain_editor.specs.Input.{lines_of, input_limit};
ghost use Rattle.serna_main.specs.Lines.{numbered_lines};
ghost use Rattle.serna_main.specs.Out.{IsRefused};
ghost use Rattle.serna_main.specs.Sections.{IsJudged};

use crate::opening::{Opening, line_at, opening_of};
use crate::read::MOST;
use serna_kinds::{Items, NameTable, NoMemory};
use source_tree::SourceTree;
use std::alloc::Global;
use style_sheet::Style;
use tree_lines::Line;

const SCRIPT_HEAD: &[u8] = b"!script";

/// An accepted input: the table of the names of its stylesheet and its document, the stylesheet, the source that the document
/// begins, its lines, and the place of the script's first line.
#[derive(Drop)]
pub(crate) struct Judged {
    pub(crate) names: NameTable,
    pub(crate) style: Style,
    pub(crate) source: SourceTree,
    pub(crate) lines: Vec<Line>,
    pub(crate) first: usize,
}

/// What the input says, or None where it is refused.
pub(crate) fn judge(alloc: Global, bytes: &[u8]) -> Result<Option<Judged>, NoMemory>
    ensures accepted { IfOk result (λ judged. IfSome judged (IsJudged bytes.now)) }
    ensures refused { IfOk result (λ judged. IfNone judged (IsRefused bytes.now)) }
{
    if bytes.len() > MOST {
        return Ok(None);
    }
    let lines = split_lines(alloc, bytes)?;
    let script = match line_at(lines.as_slice(), SCRIPT_HEAD) {
        Some(place) => place,
        None => return Ok(None),
    };
    match opening_of(alloc, &lines[..script])? {
        None => Ok(None),
        Some(
            Opening {
                names,
                style,
                source,
            },
        ) => Ok(Some(Judged {
            names,
            style,
            source,
            lines,
            first: script + 1,
        })),
    }
}

/// The lines of a text, numbered from 1.
fn split_lines(alloc: Global, bytes: &[u8]) -> Result<Vec<Line>, NoMemory>
    requires { length bytes.now ≤ input_limit }
    ensures { IfOk result (λ lines. lines.items ≡ numbered_lines 1 (lines_of bytes.now)) }
{
    let mut lines = Vec::new(alloc);
    let mut rest = bytes;
    let mut number = 1u32;
    'lines: while !rest.is_empty() {
        let len = line_len(rest);
        lines.push(Line {
            number,
            bytes: Items::from_slice(alloc, &rest[..len])?,
        })?;
        number += 1;
        rest = behind(rest, len);
    }
    Ok(lines)
}

/// The number of bytes before the first LF, or of all bytes.
pub(crate) fn line_len(bytes: &[u8]) -> usize
    ensures { result ≡ position_or_len (λ b. b == 10) bytes.now }
{
    first_line_feed(bytes).unwrap_or(bytes.len())
}

fn first_line_feed(bytes: &[u8]) -> Option<usize>
    ensures { result ≡ position (λ b. b == 10) bytes.now }
{
    bytes.iter().position(|b| *b == b'\n')
}

/// What follows the LF at a place.
fn behind(bytes: &[u8], place: usize) -> &[u8]
    requires { place ≤ length bytes.now }
    ensures { result.now ≡ drop (place + 1) bytes.now }
{
    if place < bytes.len() {
        &bytes[place + 1..]
    } else {
        &bytes[place..]
    }
}
