//! What is read of a node, cell by cell.
ghost use Rattle.std.specs.Prelude.{◌≡◌, Bool, Some, None, IsTrue, IfOk, OnOk};
ghost use Rattle.std.specs.Option.{option_map};
ghost use Rattle.std.specs.Str.{chars};
ghost use Rattle.std.specs.List.{flat_map, list_all};
ghost use Rattle.serna_kinds.specs.declared.cells.Cell.{Cell as LogCell};
ghost use Rattle.serna_kinds.specs.declared.cells.Facet.TheVariants as facet;
ghost use Rattle.serna_kinds.specs.Tape.{Agrees, SeenBefore, Within};
ghost use Rattle.source_model.specs.Source.{Source};
ghost use Rattle.source_model.specs.Cells.{Spot, spot_of, cell_of};
ghost use Rattle.template_run.specs.Nodes.{label_of, children_of, characters_of, value_among, value_of, is_here};
ghost use Rattle.template_run.specs.Batch.{nodes_in, passed_nodes};
ghost use Rattle.template_run.specs.Allowed.{cell_at, presence_cells};

use serna_kinds::{
    AttrPair, Cell, CellValue, Chars, Facet, Items, Kind, NameId, NoMemory, NodeName, NodeRef,
    SourceView, Tape,
};
use xpath_values::{Binding, Value};

/// What a node is, with an element's name. None exactly where there is no such node.
pub(crate) fn label_of<V: SourceView>(
    view: &V,
    node: NodeName,
    tape: &mut Tape,
) -> Result<Option<(Kind, Option<NameId>)>, NoMemory>
    ensures before { SeenBefore tape.old.cells tape.new.cells (V.cells view.now) }
    ensures value { IfOk result (λ found. (source : Source) → Agrees tape.new.cells (V.cells view.now) (cell_of source) → found ≡ option_map label_of (spot_of source node.0)) }
    ensures within { (allowed : LogCell → Bool) → IsTrue (allowed (cell_at facet.Label node)) → Within allowed tape.old.cells → Within allowed tape.new.cells }
    ensures place { tape.new.place_read ≡ tape.old.place_read }
{
    match tape.read(
        view,
        Cell {
            node,
            facet: Facet::Label,
        },
    )? {
        Some(CellValue::Label(kind, name)) => Ok(Some((kind, name))),
        Some(CellValue::Kids(_)) => Ok(None),
        Some(CellValue::Up(_)) => Ok(None),
        Some(CellValue::Attrs(_)) => Ok(None),
        Some(CellValue::Text(_)) => Ok(None),
        None => Ok(None),
    }
}

/// The children of the document node or of an element, in order; a text or a comment has none.
pub(crate) fn children_of<'v, V: SourceView>(
    view: &'v V,
    node: NodeName,
    tape: &mut Tape,
) -> Result<&'v [NodeName], NoMemory>
    ensures before { SeenBefore tape.old.cells tape.new.cells (V.cells view.now) }
    ensures value { IfOk result (λ kids. (source : Source) (spot : Spot) → Agrees tape.new.cells (V.cells view.now) (cell_of source) → spot_of source node.0 ≡ Some spot → kids.now ≡ children_of spot) }
    ensures within { (allowed : LogCell → Bool) → IsTrue (allowed (cell_at facet.Kids node)) → Within allowed tape.old.cells → Within allowed tape.new.cells }
    ensures place { tape.new.place_read ≡ tape.old.place_read }
{
    match tape.read(
        view,
        Cell {
            node,
            facet: Facet::Kids,
        },
    )? {
        Some(CellValue::Kids(kids)) => Ok(kids),
        Some(CellValue::Label(_, _)) => Ok(&[]),
        Some(CellValue::Up(_)) => Ok(&[]),
        Some(CellValue::Attrs(_)) => Ok(&[]),
        Some(CellValue::Text(_)) => Ok(&[]),
        None => Ok(&[]),
    }
}

/// The characters of a text or of a comment; another node has none.
#[tactic(auto, using(crate::proofs::NodeLemmas::no_characters))]
pub(crate) fn characters_of<'v, V: SourceView>(
    view: &'v V,
    node: NodeName,
    tape: &mut Tape,
) -> Result<&'v str, NoMemory>
    ensures before { SeenBefore tape.old.cells tape.new.cells (V.cells view.now) }
    ensures value { IfOk result (λ text. (source : Source) (spot : Spot) → Agrees tape.new.cells (V.cells view.now) (cell_of source) → spot_of source node.0 ≡ Some spot → chars text.now ≡ characters_of spot) }
    ensures within { (allowed : LogCell → Bool) → IsTrue (allowed (cell_at facet.Text node)) → Within allowed tape.old.cells → Within allowed tape.new.cells }
    ensures place { tape.new.place_read ≡ tape.old.place_read }
{
    match tape.read(
        view,
        Cell {
            node,
            facet: Facet::Text,
        },
    )? {
        Some(CellValue::Text(text)) => Ok(text),
        Some(CellValue::Label(_, _)) => Ok(""),
        Some(CellValue::Kids(_)) => Ok(""),
        Some(CellValue::Up(_)) => Ok(""),
        Some(CellValue::Attrs(_)) => Ok(""),
        None => Ok(""),
    }
}

/// The value of an attribute of a node. None exactly where there is no such node or attribute.
pub(crate) fn value_of<'v, V: SourceView>(
    view: &'v V,
    node: NodeName,
    name: NameId,
    tape: &mut Tape,
) -> Result<Option<&'v Chars>, NoMemory>
    ensures before { SeenBefore tape.old.cells tape.new.cells (V.cells view.now) }
    ensures value { IfOk result (λ found. (source : Source) → Agrees tape.new.cells (V.cells view.now) (cell_of source) → option_map (λ value. value.now) found ≡ value_of source node name) }
    ensures within { (allowed : LogCell → Bool) → IsTrue (allowed (cell_at facet.Attrs node)) → Within allowed tape.old.cells → Within allowed tape.new.cells }
    ensures place { tape.new.place_read ≡ tape.old.place_read }
{
    match tape.read(
        view,
        Cell {
            node,
            facet: Facet::Attrs,
        },
    )? {
        Some(CellValue::Attrs(pairs)) => Ok(value_among(name, pairs)),
        Some(CellValue::Label(_, _)) => Ok(None),
        Some(CellValue::Kids(_)) => Ok(None),
        Some(CellValue::Up(_)) => Ok(None),
        Some(CellValue::Text(_)) => Ok(None),
        None => Ok(None),
    }
}

/// The value of the first of these attributes that has the name of a number.
fn value_among(name: NameId, pairs: &[AttrPair]) -> Option<&Chars>
    ensures { option_map (λ value. value.now) result ≡ value_among name pairs.now }
{
    for pair in pairs {
        if pair.name.0 == name.0 {
            return Some(&pair.value);
        }
    }
    None
}

/// Whether a node is in the source.
pub(crate) fn is_here<V: SourceView>(
    view: &V,
    node: NodeRef,
    tape: &mut Tape,
) -> Result<bool, NoMemory>
    ensures before { SeenBefore tape.old.cells tape.new.cells (V.cells view.now) }
    ensures value { IfOk result (λ here. (source : Source) → Agrees tape.new.cells (V.cells view.now) (cell_of source) → here ≡ is_here source node) }
    ensures within { (allowed : LogCell → Bool) → Within allowed (presence_cells node) → Within allowed tape.old.cells → Within allowed tape.new.cells }
    ensures place { tape.new.place_read ≡ tape.old.place_read }
{
    match node {
        NodeRef::Node(number) => Ok(label_of(view, number, tape)?.is_some()),
        NodeRef::Attr(number, name) => Ok(value_of(view, number, name, tape)?.is_some()),
    }
}

/// Whether all these nodes are in the source.
fn all_here<V: SourceView>(view: &V, nodes: &[NodeRef], tape: &mut Tape) -> Result<bool, NoMemory>
    ensures before { SeenBefore tape.old.cells tape.new.cells (V.cells view.now) }
    ensures value { IfOk result (λ here. (source : Source) → Agrees tape.new.cells (V.cells view.now) (cell_of source) → here ≡ list_all (is_here source) nodes.now) }
    ensures within { (allowed : LogCell → Bool) → Within allowed (flat_map presence_cells nodes.now) → Within allowed tape.old.cells → Within allowed tape.new.cells }
    ensures place { tape.new.place_read ≡ tape.old.place_read }
{
    for node in nodes {
        if !is_here(view, *node, tape)? {
            return Ok(false);
        }
    }
    Ok(true)
}

/// The nodes that are passed in one parameter.
fn nodes_in(binding: &Binding) -> &[NodeRef]
    ensures { result.now ≡ nodes_in binding.now.value }
{
    match &binding.value {
        Value::Nodes(nodes) => nodes.as_slice(),
        Value::Text(_) => &[],
        Value::Number(_) => &[],
        Value::Truth(_) => &[],
    }
}

/// Whether all nodes that are passed as parameters are in the source.
pub(crate) fn passed_here<V: SourceView>(
    view: &V,
    passed: &[Binding],
    tape: &mut Tape,
) -> Result<bool, NoMemory>
    ensures before { SeenBefore tape.old.cells tape.new.cells (V.cells view.now) }
    ensures value { IfOk result (λ here. (source : Source) → Agrees tape.new.cells (V.cells view.now) (cell_of source) → here ≡ list_all (is_here source) (passed_nodes passed.now)) }
    ensures within { (allowed : LogCell → Bool) → Within allowed (flat_map presence_cells (passed_nodes passed.now)) → Within allowed tape.old.cells → Within allowed tape.new.cells }
    ensures place { tape.new.place_read ≡ tape.old.place_read }
{
    for binding in passed {
        if !all_here(view, nodes_in(binding), tape)? {
            return Ok(false);
        }
    }
    Ok(true)
}
