ghost use Rattle.std.specs.Prelude.{◌≡◌, ◌∷◌, ◌==◌, ◌&&◌, not, IfOk, IfSome, IfNone, IsTrue, map, position, bytes_eq};
ghost use Rattle.std.specs.List.{list_all, list_any};
ghost use Rattle.plain_editor.specs.Plain.{is_plain};
ghost use Rattle.plain_editor.specs.Sheets.{sheet_head, is_sheet_name};
ghost use Rattle.serna_main.specs.Sections.{IsRead, IsNoDocument, IsStyled, IsNoStyle, IsNoStyleHead, Begins, IsOpening, IsNoOpening};

use live_editor::is_plain;
use serna_kinds::{Chars, NameTable, NoMemory};
use source_tree::SourceTree;
use std::alloc::{AllocError, Global};
use std::slice;
use style_sheet::{Module, Style, StyleFault, compile};
use tree_lines::{Line, LineFault, Tree, read_tree};

const STYLE_HEAD: &[u8] = b"!style ";

const DOCUMENT_HEAD: &[u8] = b"!document";

/// What an input says before its script: the table of all names, the stylesheet, and the source that the document begins.
#[derive(Drop)]
pub(crate) struct Opening {
    pub(crate) names: NameTable,
    pub(crate) style: Style,
    pub(crate) source: SourceTree,
}

/// What the lines before the script say: a stylesheet's, or none, and those of a document behind its head. None where they are
/// no such lines.
pub(crate) fn opening_of(alloc: Global, lines: &[Line]) -> Result<Option<Opening>, NoMemory>
    ensures begun { IfOk result (λ found. IfSome found (IsOpening (map (λ line. line.bytes) lines.now))) }
    ensures none { IfOk result (λ found. IfNone found (IsNoOpening (map (λ line. line.bytes) lines.now))) }
{
    let Some(place) = line_at(lines, DOCUMENT_HEAD) else {
        return Ok(None);
    };
    let Some((mut names, style)) = style_of(alloc, &lines[..place])? else {
        return Ok(None);
    };
    let Some(source) = document_of(alloc, &lines[place + 1..], &mut names)? else {
        return Ok(None);
    };
    Ok(Some(Opening {
        names,
        style,
        source,
    }))
}

/// The place of the first line that is this head.
pub(crate) fn line_at(lines: &[Line], head: &[u8]) -> Option<usize>
    ensures { result ≡ position (λ line. bytes_eq line.bytes head.now) lines.now }
{
    lines.iter().position(|line| line.bytes.as_slice() == head)
}

/// The table of names and the stylesheet of the lines before the document's: none, or a stylesheet's head and its lines. None
/// where they are neither.
fn style_of(alloc: Global, lines: &[Line]) -> Result<Option<(NameTable, Style)>, NoMemory>
    ensures styled { IfOk result (λ found. IfSome found (λ read. IsStyled (map (λ line. line.bytes) lines.now) read.0 read.1)) }
    ensures none { IfOk result (λ found. IfNone found (IsNoStyle (map (λ line. line.bytes) lines.now))) }
{
    let Some((head, rest)) = lines.split_first() else {
        return Ok(Some((NameTable::new(alloc), Style::new(alloc))));
    };
    match style_name(head.bytes.as_slice()) {
        Some(name) => compiled(alloc, name, rest),
        None => Ok(None),
    }
}

/// The name in the head `!style NAME`. None where the line is no such head, or the name is none of printable ASCII without a
/// space.
fn style_name(line: &[u8]) -> Option<&str>
    ensures head { IfSome result (λ name. line.now ≡ sheet_head name.now) }
    ensures name { IfSome result (λ name. IsTrue (is_sheet_name name.now)) }
    ensures none { IfNone result (IsNoStyleHead line.now) }
{
    let Some(name) = line.strip_prefix(STYLE_HEAD) else {
        return None;
    };
    if !is_style_name(name) {
        return None;
    }
    let Ok(name) = std::str::from_utf8(name) else {
        return None;
    };
    Some(name)
}

fn is_style_name(name: &[u8]) -> bool
    ensures { result ≡ is_sheet_name name.now }
{
    !name.is_empty() && is_graphic(name)
}

/// Whether the bytes are printable ASCII without a space.
fn is_graphic(bytes: &[u8]) -> bool
    ensures { result ≡ (is_plain bytes.now && not (list_any (λ c. c == 32) bytes.now)) }
{
    is_plain(bytes) && !has_space(bytes)
}

fn has_space(bytes: &[u8]) -> bool
    ensures { result ≡ list_any (λ c. c == 32) bytes.now }
{
    bytes.iter().any(|c| *c == b' ')
}

/// The table of names and the stylesheet of some lines. None where they are no document of the built form in printable ASCII.
fn compiled(
    alloc: Global,
    name: &str,
    lines: &[Line],
) -> Result<Option<(NameTable, Style)>, NoMemory>
    requires { IsTrue (is_sheet_name name.now) }
    ensures styled { IfOk result (λ found. IfSome found (λ read. IsStyled (sheet_head name.now ∷ map (λ line. line.bytes) lines.now) read.0 read.1)) }
    ensures none { IfOk result (λ found. IfNone found (IsNoStyle (sheet_head name.now ∷ map (λ line. line.bytes) lines.now))) }
{
    let mut names = NameTable::new(alloc);
    let Some(tree) = tree_of(alloc, lines, &mut names)? else {
        return Ok(None);
    };
    let module = Module {
        name: Chars::from_text(alloc, name)?,
        tree,
    };
    match compile(alloc, slice::from_ref(&module), &mut names) {
        Ok(style) => Ok(Some((names, style))),
        Err(StyleFault::NotBuilt) => Ok(None),
        Err(StyleFault::NoMemory) => Err(AllocError),
    }
}

/// The source that a document's lines begin, in printable ASCII; the table gets their names. None where they are no document.
fn document_of(
    alloc: Global,
    lines: &[Line],
    names: &mut NameTable,
) -> Result<Option<SourceTree>, NoMemory>
    ensures begun { IfOk result (λ found. IfSome found (λ tree. Begins (map (λ line. line.bytes) lines.now) names.old names.new tree.source)) }
    ensures none { IfOk result (λ found. IfNone found (IsNoDocument (map (λ line. line.bytes) lines.now))) }
{
    match tree_of(alloc, lines, names)? {
        Some(tree) => Ok(Some(SourceTree::begin(alloc, &tree)?)),
        None => Ok(None),
    }
}

/// The tree of lines in printable ASCII; the table gets their names. None where they are no document.
fn tree_of(alloc: Global, lines: &[Line], names: &mut NameTable) -> Result<Option<Tree>, NoMemory>
    ensures read { IfOk result (λ found. IfSome found (IsRead (map (λ line. line.bytes) lines.now) names.old names.new)) }
    ensures none { IfOk result (λ found. IfNone found (IsNoDocument (map (λ line. line.bytes) lines.now))) }
{
    if !are_plain(lines) {
        return Ok(None);
    }
    match read_tree(alloc, lines, names) {
        Ok(tree) => Ok(Some(tree)),
        Err(LineFault::Refused(_, _)) => Ok(None),
        Err(LineFault::NoMemory) => Err(AllocError),
    }
}

fn are_plain(lines: &[Line]) -> bool
    ensures { result ≡ list_all (λ line. is_plain line.bytes) lines.now }
{
    lines.iter().all(|line| is_plain(line.bytes.as_slice()))
}
