//! String-values (XPath 1.0, section 5).
ghost use Rattle.std.specs.Prelude.{◌≡◌, ◌++◌, ◌↔◌, Bool, List, Some, IfOk, OnOk, IsTrue};
ghost use Rattle.std.specs.Option.{option_map};
ghost use Rattle.std.specs.List.{flat_map, AllByRecursion};
ghost use Rattle.serna_kinds.specs.declared.cells.Cell.{Cell};
ghost use Rattle.serna_kinds.specs.declared.cells.NodeRef.TheVariants as ref;
ghost use Rattle.serna_kinds.specs.declared.cells.Facet.TheVariants as facet;
ghost use Rattle.serna_kinds.specs.declared.cells.Kind.TheVariants.{Comment};
ghost use Rattle.serna_kinds.specs.Names.{NameParts};
ghost use Rattle.serna_kinds.specs.Tape.{Agrees, SeenBefore, Within};
ghost use Rattle.source_model.specs.Source.{Source};
ghost use Rattle.source_model.specs.Cells.{Spot, spot_of, cell_of};
ghost use Rattle.source_model.specs.Proper.{IsProper};
ghost use Rattle.source_model.specs.Axes.{string_of};
ghost use Rattle.source_model.specs.Logged.{cell_at};
ghost use Rattle.xpath_axes.specs.Nodes.{characters_of, value_among, kids_at};
ghost use Rattle.xpath_axes.specs.Strings.{string_cells, texts_at, kind_at, MayJoin};

use crate::draft::Draft;
use crate::nodes::{attributes_of, characters_of, children_of, label_of};
use crate::walks::LEVELS;
use serna_kinds::{AttrPair, Chars, Kind, NameId, NoMemory, NodeName, NodeRef, SourceView, Tape};
use std::alloc::Global;

/// The string-value of a node or attribute (XPath 1.0, section 5): of the document node and of an element all texts below it,
/// joined in document order, of a text or comment its characters, of an attribute its value; no characters where it is not in the
/// source. The tape notes each cell that is read. Copies each text once. `Err` comes where memory runs out.
pub fn string_value<V: SourceView>(
    alloc: Global,
    view: &V,
    node: NodeRef,
    tape: &mut Tape,
) -> Result<Chars, NoMemory>
    // Nothing that was noted is lost.
    ensures before { SeenBefore tape.old.cells tape.new.cells (V.cells view.now) }
    ensures place { tape.new.place_read ≡ tape.old.place_read }

    // It is the string-value in each proper source that has, at the cells that were noted, what the view has.
    ensures value { IfOk result (λ text. (table : List NameParts) (source : Source) → IsProper table source → Agrees tape.new.cells (V.cells view.now) (cell_of source) →
        text ≡ string_of source node) }

    // It reads the labels, children and texts of the node and of what is below it, and of an attribute its element's attributes.
    ensures within { (allowed : Cell → Bool) (table : List NameParts) (source : Source) → IsProper table source → Agrees tape.new.cells (V.cells view.now) (cell_of source) →
        Within allowed (string_cells source node) → Within allowed tape.old.cells → Within allowed tape.new.cells }
{
    match node {
        NodeRef::Node(number) => node_string(alloc, view, number, tape),
        NodeRef::Attr(number, name) => attribute_string(alloc, view, number, name, tape),
    }
}

fn node_string<V: SourceView>(
    alloc: Global,
    view: &V,
    node: NodeName,
    tape: &mut Tape,
) -> Result<Chars, NoMemory>
    ensures before { SeenBefore tape.old.cells tape.new.cells (V.cells view.now) }
    ensures place { tape.new.place_read ≡ tape.old.place_read }
    ensures value { IfOk result (λ text. (table : List NameParts) (source : Source) → IsProper table source → Agrees tape.new.cells (V.cells view.now) (cell_of source) →
        text ≡ string_of source (ref.Node node)) }
    ensures within { (allowed : Cell → Bool) (source : Source) → Agrees tape.new.cells (V.cells view.now) (cell_of source) →
        MayJoin allowed source LEVELS node → Within allowed tape.old.cells → Within allowed tape.new.cells }
{
    let found = kind_of(view, node, tape)?;
    if is_comment(found) {
        comment_string(alloc, view, node, tape)
    } else {
        joined_string(alloc, view, node, tape)
    }
}

fn is_comment(kind: Option<Kind>) -> bool
    ensures { IsTrue result ↔ (kind ≡ Some Comment) }
{
    matches!(kind, Some(Kind::Comment))
}

// The characters of a comment.
fn comment_string<V: SourceView>(
    alloc: Global,
    view: &V,
    node: NodeName,
    tape: &mut Tape,
) -> Result<Chars, NoMemory>
    ensures before { SeenBefore tape.old.cells tape.new.cells (V.cells view.now) }
    ensures place { tape.new.place_read ≡ tape.old.place_read }
    ensures value { IfOk result (λ text. (source : Source) (spot : Spot) → Agrees tape.new.cells (V.cells view.now) (cell_of source) → spot_of source node.0 ≡ Some spot → text ≡ characters_of spot) }
    ensures within { (allowed : Cell → Bool) → IsTrue (allowed (cell_at facet.Text node)) → Within allowed tape.old.cells → Within allowed tape.new.cells }
{
    let characters = characters_of(view, node, tape)?;
    Chars::from_text(alloc, characters)
}

// The texts at and below a node, joined.
fn joined_string<V: SourceView>(
    alloc: Global,
    view: &V,
    node: NodeName,
    tape: &mut Tape,
) -> Result<Chars, NoMemory>
    ensures before { SeenBefore tape.old.cells tape.new.cells (V.cells view.now) }
    ensures place { tape.new.place_read ≡ tape.old.place_read }
    ensures value { IfOk result (λ text. (source : Source) → Agrees tape.new.cells (V.cells view.now) (cell_of source) → text ≡ texts_at source LEVELS node) }
    ensures within { (allowed : Cell → Bool) (source : Source) → Agrees tape.new.cells (V.cells view.now) (cell_of source) →
        MayJoin allowed source LEVELS node → Within allowed tape.old.cells → Within allowed tape.new.cells }
{
    let mut texts = Draft::new(alloc);
    add_texts(view, node, LEVELS, tape, &mut texts)?;
    texts.into_chars()
}

// What a node is. None exactly where there is no such node.
fn kind_of<V: SourceView>(
    view: &V,
    node: NodeName,
    tape: &mut Tape,
) -> Result<Option<Kind>, NoMemory>
    ensures before { SeenBefore tape.old.cells tape.new.cells (V.cells view.now) }
    ensures place { tape.new.place_read ≡ tape.old.place_read }
    ensures value { IfOk result (λ found. (source : Source) → Agrees tape.new.cells (V.cells view.now) (cell_of source) → found ≡ option_map kind_at (spot_of source node.0)) }
    ensures within { (allowed : Cell → Bool) → IsTrue (allowed (cell_at facet.Label node)) → Within allowed tape.old.cells → Within allowed tape.new.cells }
{
    match label_of(view, node, tape)? {
        Some((kind, _)) => Ok(Some(kind)),
        None => Ok(None),
    }
}

// Adds the texts at and below a node, so many levels at most.
#[cycle(texts)]
fn add_texts<V: SourceView>(
    view: &V,
    node: NodeName,
    left: u32,
    tape: &mut Tape,
    out: &mut Draft,
) -> Result<(), NoMemory>
    ensures before { SeenBefore tape.old.cells tape.new.cells (V.cells view.now) }
    ensures place { tape.new.place_read ≡ tape.old.place_read }
    ensures value { OnOk result ((source : Source) → Agrees tape.new.cells (V.cells view.now) (cell_of source) → out.new ≡ out.old ++ texts_at source left node) }
    ensures within { (allowed : Cell → Bool) (source : Source) → Agrees tape.new.cells (V.cells view.now) (cell_of source) →
        MayJoin allowed source left node → Within allowed tape.old.cells → Within allowed tape.new.cells }
{
    if left == 0 {
        return Ok(());
    }
    let found = kind_of(view, node, tape)?;
    let Some(kind) = found else {
        return Ok(());
    };
    match kind {
        Kind::Root => add_texts_below(view, node, left - 1, tape, out),
        Kind::Element => add_texts_below(view, node, left - 1, tape, out),
        Kind::Text => out.push_text(characters_of(view, node, tape)?),
        Kind::Comment => Ok(()),
    }
}

// Adds the texts at and below the children of a node, so many levels at most.
#[cycle(texts)]
fn add_texts_below<V: SourceView>(
    view: &V,
    node: NodeName,
    left: u32,
    tape: &mut Tape,
    out: &mut Draft,
) -> Result<(), NoMemory>
    ensures before { SeenBefore tape.old.cells tape.new.cells (V.cells view.now) }
    ensures place { tape.new.place_read ≡ tape.old.place_read }
    ensures value { OnOk result ((source : Source) → Agrees tape.new.cells (V.cells view.now) (cell_of source) → out.new ≡ out.old ++ flat_map (texts_at source left) (kids_at source node)) }
    ensures within { (allowed : Cell → Bool) (source : Source) → Agrees tape.new.cells (V.cells view.now) (cell_of source) →
        IsTrue (allowed (cell_at facet.Kids node)) → AllByRecursion (MayJoin allowed source left) (kids_at source node) → Within allowed tape.old.cells → Within allowed tape.new.cells }
{
    let kids = children_of(view, node, tape)?;
    for kid in kids {
        add_texts(view, *kid, left, tape, out)?;
    }
    Ok(())
}

fn attribute_string<V: SourceView>(
    alloc: Global,
    view: &V,
    node: NodeName,
    name: NameId,
    tape: &mut Tape,
) -> Result<Chars, NoMemory>
    ensures before { SeenBefore tape.old.cells tape.new.cells (V.cells view.now) }
    ensures place { tape.new.place_read ≡ tape.old.place_read }
    ensures value { IfOk result (λ text. (source : Source) → Agrees tape.new.cells (V.cells view.now) (cell_of source) → text ≡ string_of source (ref.Attr node name)) }
    ensures within { (allowed : Cell → Bool) → IsTrue (allowed (cell_at facet.Attrs node)) → Within allowed tape.old.cells → Within allowed tape.new.cells }
{
    let pairs = attributes_of(view, node, tape)?;
    match value_among(name, pairs) {
        Some(value) => value.copy(),
        None => Chars::new(alloc),
    }
}

// The value of the first of these attributes that has the name of a number.
fn value_among(name: NameId, pairs: &[AttrPair]) -> Option<&Chars>
    ensures { option_map (λ value. value.now) result ≡ value_among name pairs.now }
{
    for pair in pairs {
        if pair.name.0 == name.0 {
            return Some(&pair.value);
        }
    }
    None
}
