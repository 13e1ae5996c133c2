ghost use Rattle.std.specs.Prelude.{◌≡◌, ◌+◌, ◌≤◌, ◌++◌, length, IfOk, OnOk, encode_utf8_all};
ghost use Rattle.std.specs.List.{flat_map};
ghost use Rattle.std.specs.Str.{chars};
ghost use Rattle.std.specs.String.{string_bytes};
ghost use Rattle.result_origin.specs.Pages.{shown_bytes};
ghost use Rattle.source_model.specs.Proper.{IsProper};
ghost use Rattle.plain_editor.specs.Views.{view_pages, view_text};
ghost use Rattle.plain_editor.specs.Stops.{run_boundaries, part_boundaries, line_boundaries, page_boundaries};
ghost use Rattle.plain_editor.specs.Stops as stops;
ghost use Rattle.live_editor.specs.Shown.{boundaries_of, laid_text, HasRoom, IsFromStart, AreAtStart, AreLinesAtStart, ArePagesAtStart};

use page_print::{page_text, plain_text};
use result_origin::{Line, Origin, Page, Part};
use serna_kinds::{Chars, NameTable, NoMemory, Tape};
use simple_pages::{Laid, lay_out};
use source_tree::SourceTree;
use std::alloc::Global;
use style_sheet::Style;
use template_run::transform;

/// A boundary between two characters of a line, or at its start or end: its page and its line, from 1, its column, and where
/// what stands there comes from.
#[derive(Clone, Copy, Debug)]
pub(crate) struct Boundary {
    pub(crate) page: usize,
    pub(crate) line: usize,
    pub(crate) column: usize,
    pub(crate) origin: Origin,
}

/// A view: its text as it is printed, and the boundaries of the characters of its lines. A character is one column.
#[derive(Debug, Drop)]
pub(crate) struct View {
    pub(crate) text: String,
    pub(crate) boundaries: Vec<Boundary>,
}

/// The view of a source under a stylesheet. `names` is the table that the names of both are numbers of.
pub(crate) fn view_of(
    alloc: Global,
    style: &Style,
    names: &NameTable,
    source: &SourceTree,
) -> Result<View, NoMemory>
    requires { IsProper names.now source.now.source }
    ensures text { IfOk result (λ view. string_bytes view.text ≡ view_text names.now style.now source.now.source) }
    ensures boundaries { IfOk result (λ view. boundaries_of view.boundaries.items ≡ flat_map page_boundaries (view_pages names.now style.now source.now.source)) }
{
    let mut tape = Tape::new(alloc);
    let whole = transform(alloc, style, source, names, &mut tape)?;
    let laid = lay_out(alloc, &whole, names)?;
    let text = text_of(alloc, &laid)?;
    let text = String::from_str(alloc, text.as_text())?;
    let mut boundaries = Vec::new(alloc);
    push_pages(laid.pages.as_slice(), &mut boundaries)?;
    Ok(View { text, boundaries })
}

/// What pages are printed as: page by page where the result begins with `fo:root`, and else as one line.
fn text_of(alloc: Global, laid: &Laid) -> Result<Chars, NoMemory>
    ensures { IfOk result (λ text. encode_utf8_all text ≡ laid_text laid.now.rooted laid.now.pages) }
{
    if laid.rooted {
        page_text(alloc, laid.pages.as_slice())
    } else {
        plain_text(alloc, laid.pages.as_slice())
    }
}

/// Adds the boundaries of pages.
fn push_pages(pages: &[Page], boundaries: &mut Vec<Boundary>) -> Result<(), NoMemory>
    requires { ArePagesAtStart pages.now }
    ensures { OnOk result (boundaries_of boundaries.new.items ≡ boundaries_of boundaries.old.items ++ flat_map page_boundaries pages.now) }
{
    for page in pages {
        push_lines(page.number, page.lines.as_slice(), boundaries)?;
    }
    Ok(())
}

/// Adds the boundaries of the lines of a page, which are numbered from 1.
fn push_lines(page: usize, lines: &[Line], boundaries: &mut Vec<Boundary>) -> Result<(), NoMemory>
    requires { AreLinesAtStart lines.now }
    ensures { OnOk result (boundaries_of boundaries.new.items ≡ boundaries_of boundaries.old.items ++ line_boundaries page 1 lines.now) }
{
    let mut number = 0;
    for line in lines {
        number += 1;
        push_parts(page, number, line.parts.as_slice(), boundaries)?;
    }
    Ok(())
}

/// Adds the boundaries of the parts of a line.
fn push_parts(
    page: usize,
    line: usize,
    parts: &[Part],
    boundaries: &mut Vec<Boundary>,
) -> Result<(), NoMemory>
    requires { AreAtStart parts.now }
    ensures { OnOk result (boundaries_of boundaries.new.items ≡ boundaries_of boundaries.old.items ++ part_boundaries page line 0 parts.now) }
{
    let mut column = 0;
    for part in parts {
        column = push_part(page, line, column, part, boundaries)?;
    }
    Ok(())
}

/// Adds the boundaries of a part that begins in a column: one before each of its characters, and one behind the last. Gives the
/// column behind it.
fn push_part(
    page: usize,
    line: usize,
    column: usize,
    part: &Part,
    boundaries: &mut Vec<Boundary>,
) -> Result<usize, NoMemory>
    requires start { IsFromStart part.now }
    requires within { column ≤ length boundaries.old.items }
    ensures boundaries { OnOk result (boundaries_of boundaries.new.items ≡ boundaries_of boundaries.old.items ++ run_boundaries page line column part.now.start part.now.run.origin (chars (shown_bytes part.now))) }
    ensures column { IfOk result (λ next. next ≡ column + length (chars (shown_bytes part.now))) }
    ensures within { IfOk result (λ next. next ≤ length boundaries.new.items) }
{
    let origin = part.run().origin;
    let start = part.start();
    let text = part.text();
    let mut column = column;
    for (at, _) in text.char_indices() {
        boundaries.push(Boundary {
            page,
            line,
            column,
            origin: behind_start(origin, start + at),
        })?;
        column += 1;
    }
    boundaries.push(Boundary {
        page,
        line,
        column,
        origin: behind_start(origin, start + text.len()),
    })?;
    Ok(column)
}

/// Where what stands so many bytes behind the start of a run comes from.
fn behind_start(origin: Origin, more: usize) -> Origin
    requires { HasRoom more origin }
    ensures { result ≡ stops.behind_start more origin }
{
    match origin {
        Origin::Text(node, at) => Origin::Text(node, at + more),
        Origin::Attr(node, name, at) => Origin::Attr(node, name, at + more),
        Origin::Into(node) => Origin::Into(node),
        Origin::Fixed(rule) => Origin::Fixed(rule),
        Origin::Computed(rule, node) => Origin::Computed(rule, node),
    }
}
