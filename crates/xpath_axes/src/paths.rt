//! The paths of nodes and attributes, by which they stand in document order (XPath 1.0, section 5).
ghost use Rattle.std.specs.Prelude.{◌≡◌, ◌==◌, ◌++◌, [], ◌∷◌, ℕ, Bool, Some, IfOk, IsTrue};
ghost use Rattle.std.specs.Option.{option_map};
ghost use Rattle.std.specs.List.{position};
ghost use Rattle.serna_kinds.specs.declared.cells.Cell.{Cell};
ghost use Rattle.serna_kinds.specs.declared.cells.NodeName.{NodeName as Name};
ghost use Rattle.serna_kinds.specs.declared.cells.Facet.TheVariants as facet;
ghost use Rattle.serna_kinds.specs.Tape.{Agrees, SeenBefore, Within};
ghost use Rattle.source_model.specs.Source.{Source};
ghost use Rattle.source_model.specs.Cells.{Spot, spot_of, cell_of};
ghost use Rattle.source_model.specs.Logged.{cell_at};
ghost use Rattle.source_model.specs.Paths.{attribute_place};
ghost use Rattle.xpath_axes.specs.Nodes.{kids_at, attributes_at};
ghost use Rattle.xpath_axes.specs.Order.{path_by, attribute_path_by, MayClimb};

use crate::nodes::{attributes_of, children_of, label_of, parent_of, place_of};
use serna_kinds::{Items, NameId, NoMemory, NodeName, SourceView, Tape};
use std::alloc::Global;

/// A step of a path: 0 to an attribute or 1 to a child, and its place there.
pub(crate) type Step = (u8, usize);

/// The path of a node, of so many steps at most. None where it is not in the source.
pub(crate) fn node_path<V: SourceView>(
    alloc: Global,
    view: &V,
    node: NodeName,
    left: u32,
    tape: &mut Tape,
) -> Result<Option<Items<Step>>, NoMemory>
    ensures before { SeenBefore tape.old.cells tape.new.cells (V.cells view.now) }
    ensures place { tape.new.place_read ≡ tape.old.place_read }
    ensures value { IfOk result (λ path. (source : Source) → Agrees tape.new.cells (V.cells view.now) (cell_of source) → path ≡ path_by source left node) }
    ensures within { (allowed : Cell → Bool) (source : Source) → Agrees tape.new.cells (V.cells view.now) (cell_of source) →
        MayClimb allowed source left node → Within allowed tape.old.cells → Within allowed tape.new.cells }
{
    if left == 0 {
        return Ok(None);
    }
    match parent_of(view, node, tape)? {
        None => outermost_path(alloc, view, node, tape),
        Some(parent) => match node_path(alloc, view, parent, left - 1, tape)? {
            None => Ok(None),
            Some(path) => child_path(view, parent, path, node, tape),
        },
    }
}

// The path of the document node, where it is there.
fn outermost_path<V: SourceView>(
    alloc: Global,
    view: &V,
    node: NodeName,
    tape: &mut Tape,
) -> Result<Option<Items<Step>>, NoMemory>
    ensures before { SeenBefore tape.old.cells tape.new.cells (V.cells view.now) }
    ensures place { tape.new.place_read ≡ tape.old.place_read }
    ensures value { IfOk result (λ path. (source : Source) → Agrees tape.new.cells (V.cells view.now) (cell_of source) → path ≡ option_map (λ (spot : Spot). (1, 0) ∷ []) (spot_of source node.0)) }
    ensures within { (allowed : Cell → Bool) → IsTrue (allowed (cell_at facet.Label node)) → Within allowed tape.old.cells → Within allowed tape.new.cells }
{
    match label_of(view, node, tape)? {
        None => Ok(None),
        Some(_) => longer_by(Items::new(alloc), (1, 0)),
    }
}

// The path of a child, where the path of its parent is so.
fn child_path<V: SourceView>(
    view: &V,
    parent: NodeName,
    path: Items<Step>,
    node: NodeName,
    tape: &mut Tape,
) -> Result<Option<Items<Step>>, NoMemory>
    ensures before { SeenBefore tape.old.cells tape.new.cells (V.cells view.now) }
    ensures place { tape.new.place_read ≡ tape.old.place_read }
    ensures value { IfOk result (λ longer. (source : Source) → Agrees tape.new.cells (V.cells view.now) (cell_of source) →
        longer ≡ option_map (λ i. path ++ (1, i) ∷ []) (position (λ (k : Name). node.0 == k.0) (kids_at source parent))) }
    ensures within { (allowed : Cell → Bool) → IsTrue (allowed (cell_at facet.Kids parent)) → Within allowed tape.old.cells → Within allowed tape.new.cells }
{
    match place_among(node, children_of(view, parent, tape)?) {
        None => Ok(None),
        Some(place) => longer_by(path, (1, place)),
    }
}

fn place_among(node: NodeName, kids: &[NodeName]) -> Option<usize>
    ensures { result ≡ position (λ (k : Name). node.0 == k.0) kids.now }
{
    kids.iter().position(|kid| node.0 == kid.0)
}

/// The path of an attribute, its element's of so many steps at most. None where it is not in the source.
pub(crate) fn attribute_path<V: SourceView>(
    alloc: Global,
    view: &V,
    node: NodeName,
    name: NameId,
    left: u32,
    tape: &mut Tape,
) -> Result<Option<Items<Step>>, NoMemory>
    ensures before { SeenBefore tape.old.cells tape.new.cells (V.cells view.now) }
    ensures place { tape.new.place_read ≡ tape.old.place_read }
    ensures value { IfOk result (λ path. (source : Source) → Agrees tape.new.cells (V.cells view.now) (cell_of source) → path ≡ attribute_path_by source left node name) }
    ensures within { (allowed : Cell → Bool) (source : Source) → Agrees tape.new.cells (V.cells view.now) (cell_of source) → IsTrue (allowed (cell_at facet.Attrs node)) →
        ((i : ℕ) → attribute_place name 0 (attributes_at source node) ≡ Some i → MayClimb allowed source left node) → Within allowed tape.old.cells → Within allowed tape.new.cells }
{
    match place_of(name, attributes_of(view, node, tape)?) {
        None => Ok(None),
        Some(place) => match node_path(alloc, view, node, left, tape)? {
            None => Ok(None),
            Some(path) => longer_by(path, (0, place)),
        },
    }
}

// A path that goes on by a step.
fn longer_by(mut path: Items<Step>, step: Step) -> Result<Option<Items<Step>>, NoMemory>
    ensures { IfOk result (λ longer. longer ≡ Some (path ++ step ∷ [])) }
{
    path.push(step)?;
    Ok(Some(path))
}
