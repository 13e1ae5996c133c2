//! What a node of a source is and has, read off its cells.
ghost use Rattle.std.specs.Prelude.{◌≡◌, ℕ, List, Some};
ghost use Rattle.std.specs.Option.{option_map, option_copied};
ghost use Rattle.std.specs.Str.{chars};
ghost use Rattle.serna_kinds.specs.declared.cells.Facet.TheVariants as facet;
ghost use Rattle.serna_kinds.specs.Content as content;
ghost use Rattle.source_model.specs.Logged.{cell_at};
ghost use Rattle.source_model.specs.Told.{kids_at};
ghost use Rattle.frozen_tree.specs.Frozen.{cells_of};
ghost use Rattle.source_steps.specs.Said.{Says, body_said};
ghost use Rattle.source_steps.specs.Steps.{text_in, pairs_in};

use frozen_tree::{Frozen, KeptValue};
use serna_kinds::{AttrPair, Cell, CellValue, Chars, Facet, Kind, NameId, NodeName, SourceView};

/// What a node is, by its cells: an element with its name and attributes, a text or a comment with its characters.
pub enum Said<'a> {
    Root,
    Element(NameId, &'a [AttrPair]),
    Text(&'a Chars),
    Comment(&'a Chars),
}

/// What the node of a number is; None where the cells say of no node. Takes no memory.
pub fn body_at(cells: &Frozen, node: NodeName) -> Option<Said<'_>>
    ensures { Says (cells_of cells.now) node (option_map body_said result) }
{
    let label = Cell {
        node,
        facet: Facet::Label,
    };
    let Some(CellValue::Label(kind, name)) = cells.read(label) else {
        return None;
    };
    match kind {
        Kind::Root => Some(Said::Root),
        Kind::Element => Some(Said::Element(name?, pairs_in(cells, node))),
        Kind::Text => Some(Said::Text(characters(cells, node)?)),
        Kind::Comment => Some(Said::Comment(characters(cells, node)?)),
    }
}

/// The numbers of the children of an element or of the document node, in order; another node has none. Takes no memory.
pub fn kids_in(cells: &Frozen, node: NodeName) -> &[NodeName]
    ensures { result.now ≡ kids_at (cells_of cells.now) node }
{
    let cell = Cell {
        node,
        facet: Facet::Kids,
    };
    match cells.read(cell) {
        Some(CellValue::Kids(kids)) => kids,
        Some(CellValue::Label(_, _)) => &[],
        Some(CellValue::Up(_)) => &[],
        Some(CellValue::Attrs(_)) => &[],
        Some(CellValue::Text(_)) => &[],
        None => &[],
    }
}

/// The attributes of an element, in order; another node has none.
pub(crate) fn pairs_in(cells: &Frozen, node: NodeName) -> &[AttrPair]
    ensures { result.now ≡ pairs_in (cells_of cells.now) node }
{
    let cell = Cell {
        node,
        facet: Facet::Attrs,
    };
    match cells.read(cell) {
        Some(CellValue::Attrs(pairs)) => pairs,
        Some(CellValue::Label(_, _)) => &[],
        Some(CellValue::Kids(_)) => &[],
        Some(CellValue::Up(_)) => &[],
        Some(CellValue::Text(_)) => &[],
        None => &[],
    }
}

/// The characters of a text or of a comment; another node has none.
#[tactic(auto, using(crate::proofs::NoText::no_characters))]
pub(crate) fn text_in(cells: &Frozen, node: NodeName) -> &str
    ensures { chars result.now ≡ text_in (cells_of cells.now) node }
{
    let cell = Cell {
        node,
        facet: Facet::Text,
    };
    match cells.read(cell) {
        Some(CellValue::Text(text)) => text,
        Some(CellValue::Label(_, _)) => "",
        Some(CellValue::Kids(_)) => "",
        Some(CellValue::Up(_)) => "",
        Some(CellValue::Attrs(_)) => "",
        None => "",
    }
}

/// The characters of a text or of a comment, to be shared; None where the node is neither.
fn characters(cells: &Frozen, node: NodeName) -> Option<&Chars>
    ensures { (text : List ℕ) → cells_of cells.now (cell_at facet.Text node) ≡ Some (content.Text text) → option_copied result ≡ Some text }
{
    let text = Cell {
        node,
        facet: Facet::Text,
    };
    match cells.kept(text) {
        Some(KeptValue::Text(text)) => Some(text),
        _ => None,
    }
}
