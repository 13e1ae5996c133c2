//! What is read of a node, cell by cell.
ghost use Rattle.std.specs.Prelude.{◌≡◌, Bool, [], Some, None, IsTrue, IfOk};
ghost use Rattle.std.specs.Option.{option_map};
ghost use Rattle.std.specs.Str.{chars};
ghost use Rattle.serna_kinds.specs.declared.cells.Cell.{Cell as LogCell};
ghost use Rattle.serna_kinds.specs.declared.cells.Facet.TheVariants as facet;
ghost use Rattle.serna_kinds.specs.Tape.{Agrees, SeenBefore, Within};
ghost use Rattle.source_model.specs.Source.{Source};
ghost use Rattle.source_model.specs.Cells.{Spot, spot_of, cell_of};
ghost use Rattle.source_model.specs.Logged.{cell_at};
ghost use Rattle.source_model.specs.Paths.{attribute_place};
ghost use Rattle.xpath_axes.specs.Nodes.{label_of, children_of, characters_of, parent_at, attributes_at};

use serna_kinds::{
    AttrPair, Cell, CellValue, Facet, Kind, NameId, NoMemory, NodeName, SourceView, Tape,
};

/// What a node is, with an element's name. None exactly where there is no such node.
pub fn label_of<V: SourceView>(
    view: &V,
    node: NodeName,
    tape: &mut Tape,
) -> Result<Option<(Kind, Option<NameId>)>, NoMemory>
    ensures before { SeenBefore tape.old.cells tape.new.cells (V.cells view.now) }
    ensures value { IfOk result (λ found. (source : Source) → Agrees tape.new.cells (V.cells view.now) (cell_of source) → found ≡ option_map label_of (spot_of source node.0)) }
    ensures within { (allowed : LogCell → Bool) → IsTrue (allowed (cell_at facet.Label node)) → Within allowed tape.old.cells → Within allowed tape.new.cells }
    ensures place { tape.new.place_read ≡ tape.old.place_read }
{
    match tape.read(
        view,
        Cell {
            node,
            facet: Facet::Label,
        },
    )? {
        Some(CellValue::Label(kind, name)) => Ok(Some((kind, name))),
        Some(CellValue::Kids(_)) => Ok(None),
        Some(CellValue::Up(_)) => Ok(None),
        Some(CellValue::Attrs(_)) => Ok(None),
        Some(CellValue::Text(_)) => Ok(None),
        None => Ok(None),
    }
}

/// The children of the document node or of an element, in order; a text or a comment has none, nor has what is not there.
pub fn children_of<'v, V: SourceView>(
    view: &'v V,
    node: NodeName,
    tape: &mut Tape,
) -> Result<&'v [NodeName], NoMemory>
    ensures before { SeenBefore tape.old.cells tape.new.cells (V.cells view.now) }
    ensures value { IfOk result (λ kids. (source : Source) (spot : Spot) → Agrees tape.new.cells (V.cells view.now) (cell_of source) → spot_of source node.0 ≡ Some spot → kids.now ≡ children_of spot) }
    ensures absent { IfOk result (λ kids. (source : Source) → Agrees tape.new.cells (V.cells view.now) (cell_of source) → spot_of source node.0 ≡ None → kids.now ≡ []) }
    ensures within { (allowed : LogCell → Bool) → IsTrue (allowed (cell_at facet.Kids node)) → Within allowed tape.old.cells → Within allowed tape.new.cells }
    ensures place { tape.new.place_read ≡ tape.old.place_read }
{
    match tape.read(
        view,
        Cell {
            node,
            facet: Facet::Kids,
        },
    )? {
        Some(CellValue::Kids(kids)) => Ok(kids),
        Some(CellValue::Label(_, _)) => Ok(&[]),
        Some(CellValue::Up(_)) => Ok(&[]),
        Some(CellValue::Attrs(_)) => Ok(&[]),
        Some(CellValue::Text(_)) => Ok(&[]),
        None => Ok(&[]),
    }
}

/// The characters of a text or of a comment; another node has none.
#[tactic(auto, using(crate::proofs::NodeLemmas::no_characters))]
pub fn characters_of<'v, V: SourceView>(
    view: &'v V,
    node: NodeName,
    tape: &mut Tape,
) -> Result<&'v str, NoMemory>
    ensures before { SeenBefore tape.old.cells tape.new.cells (V.cells view.now) }
    ensures value { IfOk result (λ text. (source : Source) (spot : Spot) → Agrees tape.new.cells (V.cells view.now) (cell_of source) → spot_of source node.0 ≡ Some spot → chars text.now ≡ characters_of spot) }
    ensures within { (allowed : LogCell → Bool) → IsTrue (allowed (cell_at facet.Text node)) → Within allowed tape.old.cells → Within allowed tape.new.cells }
    ensures place { tape.new.place_read ≡ tape.old.place_read }
{
    match tape.read(
        view,
        Cell {
            node,
            facet: Facet::Text,
        },
    )? {
        Some(CellValue::Text(text)) => Ok(text),
        Some(CellValue::Label(_, _)) => Ok(""),
        Some(CellValue::Kids(_)) => Ok(""),
        Some(CellValue::Up(_)) => Ok(""),
        Some(CellValue::Attrs(_)) => Ok(""),
        None => Ok(""),
    }
}

/// The parent of a node. None for the document node, and where there is no such node.
pub fn parent_of<V: SourceView>(
    view: &V,
    node: NodeName,
    tape: &mut Tape,
) -> Result<Option<NodeName>, NoMemory>
    ensures before { SeenBefore tape.old.cells tape.new.cells (V.cells view.now) }
    ensures value { IfOk result (λ found. (source : Source) → Agrees tape.new.cells (V.cells view.now) (cell_of source) → found ≡ parent_at source node) }
    ensures within { (allowed : LogCell → Bool) → IsTrue (allowed (cell_at facet.Up node)) → Within allowed tape.old.cells → Within allowed tape.new.cells }
    ensures place { tape.new.place_read ≡ tape.old.place_read }
{
    match tape.read(
        view,
        Cell {
            node,
            facet: Facet::Up,
        },
    )? {
        Some(CellValue::Up(parent)) => Ok(parent),
        Some(CellValue::Label(_, _)) => Ok(None),
        Some(CellValue::Kids(_)) => Ok(None),
        Some(CellValue::Attrs(_)) => Ok(None),
        Some(CellValue::Text(_)) => Ok(None),
        None => Ok(None),
    }
}

/// The attributes of an element, in order; another node has none, nor has what is not there.
pub fn attributes_of<'v, V: SourceView>(
    view: &'v V,
    node: NodeName,
    tape: &mut Tape,
) -> Result<&'v [AttrPair], NoMemory>
    ensures before { SeenBefore tape.old.cells tape.new.cells (V.cells view.now) }
    ensures value { IfOk result (λ pairs. (source : Source) → Agrees tape.new.cells (V.cells view.now) (cell_of source) → pairs.now ≡ attributes_at source node) }
    ensures within { (allowed : LogCell → Bool) → IsTrue (allowed (cell_at facet.Attrs node)) → Within allowed tape.old.cells → Within allowed tape.new.cells }
    ensures place { tape.new.place_read ≡ tape.old.place_read }
{
    match tape.read(
        view,
        Cell {
            node,
            facet: Facet::Attrs,
        },
    )? {
        Some(CellValue::Attrs(pairs)) => Ok(pairs),
        Some(CellValue::Label(_, _)) => Ok(&[]),
        Some(CellValue::Kids(_)) => Ok(&[]),
        Some(CellValue::Up(_)) => Ok(&[]),
        Some(CellValue::Text(_)) => Ok(&[]),
        None => Ok(&[]),
    }
}

/// The place of the first of these attributes that has the name of a number.
pub(crate) fn place_of(name: NameId, pairs: &[AttrPair]) -> Option<usize>
    ensures { result ≡ attribute_place name 0 pairs.now }
{
    pairs.iter().position(|pair| pair.name.0 == name.0)
}
