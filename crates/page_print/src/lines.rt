//! Lines, as they are printed.
ghost use Rattle.std.specs.Prelude.{◌≡◌, ◌++◌, map, OnOk, encode_utf8_all};
ghost use Rattle.std.specs.List.{flat_map};
ghost use Rattle.std.specs.String.{string_bytes};
ghost use Rattle.page_print.specs.Print.{printed, part_text, line_text, lines_text, faces_text};

use crate::faces::push_faces;
use result_origin::{Line, Part};
use serna_kinds::NoMemory;
use std::alloc::Global;

/// Adds lines with their faces, numbered from 1.
pub(crate) fn push_lines(alloc: Global, out: &mut String, lines: &[Line]) -> Result<(), NoMemory>
    ensures { OnOk result (string_bytes out.new ≡ string_bytes out.old ++ lines_text 1 lines.now) }
{
    let mut number = 1;
    for line in lines {
        push_line(alloc, out, number, line)?;
        push_faces(alloc, out, line.parts.as_slice())?;
        number += 1;
    }
    Ok(())
}

/// Adds a line of a number, without its faces.
fn push_line(alloc: Global, out: &mut String, number: usize, line: &Line) -> Result<(), NoMemory>
    ensures { OnOk result (string_bytes out.new ≡ string_bytes out.old ++ line_text number line.now) }
{
    let (x, down) = (line.x, line.down);
    let head = format!(in alloc; "line {number} {x} {down} ")?;
    out.push_str(head.as_str())?;
    push_parts(out, line.parts.as_slice())?;
    out.push_str("\n")?;
    Ok(())
}

/// Adds the texts of parts, one after another.
pub(crate) fn push_parts(out: &mut String, parts: &[Part]) -> Result<(), NoMemory>
    ensures { OnOk result (string_bytes out.new ≡ string_bytes out.old ++ flat_map part_text parts.now) }
{
    for part in parts {
        push_printed(out, part.text())?;
    }
    Ok(())
}

/// Adds a text as it is printed.
fn push_printed(out: &mut String, text: &str) -> Result<(), NoMemory>
    ensures { OnOk result (string_bytes out.new ≡ string_bytes out.old ++ map printed text.now) }
{
    for character in text.chars() {
        out.push(printed(character))?;
    }
    Ok(())
}

/// A character as it is printed: a tab and LF as a space.
fn printed(character: char) -> char
    ensures { result ≡ printed character }
{
    match character {
        '\t' | '\n' => ' ',
        _ => character,
    }
}
