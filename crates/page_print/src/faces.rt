//! The faces of a line's parts, as they are printed.
ghost use Rattle.std.specs.Prelude.{◌≡◌, ◌+◌, ◌<◌, ◌++◌, ◌∷◌, [], OnOk, IfOk};
ghost use Rattle.std.specs.String.{string_bytes};
ghost use Rattle.page_print.specs.Print.{is_plain, hex_digit, color_text, weight_text, style_text, background_text, face_words, face_line, face_text, faces_text, is_nothing, columns_in};
ghost use Rattle.result_origin.specs.Pages.{shown_bytes};

use result_origin::{Face, Part};
use serna_kinds::NoMemory;
use std::alloc::{AllocError, Global};
use text_units::{clusters, columns};

/// The colour of text where nothing else is said.
const BLACK: u32 = 0;

/// 12pt, in millipoints.
const PLAIN_SIZE: i64 = 12_000;

/// Adds a line for each part that shows something and is not set plainly. The first part begins in the column 0.
pub(crate) fn push_faces(alloc: Global, out: &mut String, parts: &[Part]) -> Result<(), NoMemory>
    ensures { OnOk result (string_bytes out.new ≡ string_bytes out.old ++ faces_text 0 parts.now) }
{
    let mut column = 0;
    for part in parts {
        column = push_face(alloc, out, column, part)?;
    }
    Ok(())
}

/// Adds the face of a part that begins in a column. Answers the column behind the part.
fn push_face(alloc: Global, out: &mut String, column: usize, part: &Part) -> Result<usize, NoMemory>
    ensures text { OnOk result (string_bytes out.new ≡ string_bytes out.old ++ face_text column part.now) }
    ensures column { IfOk result (λ behind. behind ≡ column + columns_in (shown_bytes part.now)) }
{
    let face = part.run().face;
    let text = part.text();
    let behind = column.checked_add(columns_in(text)).ok_or(AllocError)?;
    if is_nothing(text) || is_plain(&face) {
        return Ok(behind);
    }
    push_face_line(alloc, out, column, behind, &face)?;
    Ok(behind)
}

/// Adds the line of a face, between two columns.
fn push_face_line(
    alloc: Global,
    out: &mut String,
    from: usize,
    to: usize,
    face: &Face,
) -> Result<(), NoMemory>
    ensures { OnOk result (string_bytes out.new ≡ string_bytes out.old ++ face_line from to face.now) }
{
    let head = format!(in alloc; "face {from} {to} ")?;
    out.push_str(head.as_str())?;
    push_face_words(alloc, out, face)?;
    out.push_str("\n")?;
    Ok(())
}

fn is_nothing(text: &str) -> bool
    ensures { result ≡ is_nothing text.now }
{
    text.is_empty()
}

/// The columns of a text.
fn columns_in(text: &str) -> usize
    ensures { result ≡ columns_in text.now }
{
    clusters(text).map(|cluster| columns(cluster)).sum()
}

/// Whether a face is plain 12pt black.
fn is_plain(face: &Face) -> bool
    ensures { result ≡ is_plain face.now }
{
    face.size == PLAIN_SIZE
        && !face.bold
        && !face.italic
        && face.color == BLACK
        && face.background.is_none()
}

/// Adds a face: its size in millipoints, its weight and style, its colour and that of the ground behind it.
fn push_face_words(alloc: Global, out: &mut String, face: &Face) -> Result<(), NoMemory>
    ensures { OnOk result (string_bytes out.new ≡ string_bytes out.old ++ face_words face.now) }
{
    let size = face.size;
    let (weight, style) = (weight(face.bold), style(face.italic));
    let head = format!(in alloc; "{size} {weight} {style} ")?;
    out.push_str(head.as_str())?;
    push_color(out, face.color)?;
    out.push_str(" ")?;
    push_background(out, face.background)
}

fn weight(bold: bool) -> &'static str
    ensures { result.now ≡ weight_text bold }
{
    if bold { "bold" } else { "normal" }
}

fn style(italic: bool) -> &'static str
    ensures { result.now ≡ style_text italic }
{
    if italic { "italic" } else { "normal" }
}

fn push_background(out: &mut String, background: Option<u32>) -> Result<(), NoMemory>
    ensures { OnOk result (string_bytes out.new ≡ string_bytes out.old ++ background_text background) }
{
    match background {
        None => {
            out.push_str("none")?;
            Ok(())
        }
        Some(color) => push_color(out, color),
    }
}

/// Adds a colour by six digits, in lower case.
fn push_color(out: &mut String, color: u32) -> Result<(), NoMemory>
    ensures { OnOk result (string_bytes out.new ≡ string_bytes out.old ++ color_text color) }
{
    push_digit(out, color / 1_048_576 % 16)?;
    push_digit(out, color / 65_536 % 16)?;
    push_digit(out, color / 4096 % 16)?;
    push_digit(out, color / 256 % 16)?;
    push_digit(out, color / 16 % 16)?;
    push_digit(out, color % 16)
}

fn push_digit(out: &mut String, digit: u32) -> Result<(), NoMemory>
    requires { digit < 16 }
    ensures { OnOk result (string_bytes out.new ≡ string_bytes out.old ++ hex_digit digit ∷ []) }
{
    out.push(hex_digit(digit))
}

/// A digit of a colour.
fn hex_digit(digit: u32) -> char
    requires { digit < 16 }
    ensures value { result ≡ hex_digit digit }
    ensures ascii { result < 128 }
{
    let code = if digit < 10 {
        b'0' + digit as u8
    } else {
        b'a' - 10 + digit as u8
    };
    code as char
}
