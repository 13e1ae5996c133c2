//! Walks from node to node along the cells of a source: all that is below nodes, and what stands outward from one.
ghost use Rattle.std.specs.Prelude.{◌≡◌, ◌++◌, ◌∷◌, [], Bool, reverse, OnOk};
ghost use Rattle.serna_kinds.specs.declared.cells.Cell.{Cell};
ghost use Rattle.serna_kinds.specs.declared.cells.Facet.TheVariants as facet;
ghost use Rattle.serna_kinds.specs.Tape.{Agrees, SeenBefore, Within};
ghost use Rattle.source_model.specs.Source.{Source};
ghost use Rattle.source_model.specs.Cells.{cell_of};
ghost use Rattle.xpath_axes.specs.Nodes.{kids_at};
ghost use Rattle.xpath_axes.specs.Walks.{levels, after, before, below_one, below, step, outward};
ghost use Rattle.xpath_axes.specs.Allowed.{MayRead, MayStep, MayWalk};

use crate::nodes::{children_of, parent_of};
use serna_kinds::{Axis, Items, NoMemory, NodeName, SourceView, Tape};
use std::alloc::Global;

/// How deep nodes stand in one another at most: the document node, the elements, and what the innermost one has.
pub(crate) const LEVELS: u32 = 122;

/// The part of a list of children behind a node.
fn after(node: NodeName, kids: &[NodeName]) -> &[NodeName]
    ensures { result.now ≡ after node kids.now }
{
    for (place, kid) in kids.iter().enumerate() {
        if kid.0 == node.0 {
            return &kids[place + 1..];
        }
    }
    &[]
}

/// The part of a list of children before a node.
fn before(node: NodeName, kids: &[NodeName]) -> &[NodeName]
    ensures { result.now ≡ before node kids.now }
{
    for (place, kid) in kids.iter().enumerate() {
        if kid.0 == node.0 {
            return &kids[..place];
        }
    }
    kids
}

/// Adds these nodes, each followed by all that is below it, so many levels at most.
#[cycle(downward)]
fn add_below<V: SourceView>(
    view: &V,
    nodes: &[NodeName],
    left: u32,
    tape: &mut Tape,
    out: &mut Items<NodeName>,
) -> Result<(), NoMemory>
    ensures before { SeenBefore tape.old.cells tape.new.cells (V.cells view.now) }
    ensures value { OnOk result ((source : Source) → Agrees tape.new.cells (V.cells view.now) (cell_of source) → out.new ≡ out.old ++ below source left nodes.now) }
    ensures within { (allowed : Cell → Bool) (source : Source) → Agrees tape.new.cells (V.cells view.now) (cell_of source) → MayRead allowed facet.Kids (below source left nodes.now) →
        Within allowed tape.old.cells → Within allowed tape.new.cells }
    ensures place { tape.new.place_read ≡ tape.old.place_read }
{
    for node in nodes {
        add_with_below(view, *node, left, tape, out)?;
    }
    Ok(())
}

/// Adds a node and all that is below it, so many levels at most.
#[cycle(downward)]
fn add_with_below<V: SourceView>(
    view: &V,
    node: NodeName,
    left: u32,
    tape: &mut Tape,
    out: &mut Items<NodeName>,
) -> Result<(), NoMemory>
    ensures before { SeenBefore tape.old.cells tape.new.cells (V.cells view.now) }
    ensures value { OnOk result ((source : Source) → Agrees tape.new.cells (V.cells view.now) (cell_of source) → out.new ≡ out.old ++ below_one source left node) }
    ensures within { (allowed : Cell → Bool) (source : Source) → Agrees tape.new.cells (V.cells view.now) (cell_of source) → MayRead allowed facet.Kids (below_one source left node) →
        Within allowed tape.old.cells → Within allowed tape.new.cells }
    ensures place { tape.new.place_read ≡ tape.old.place_read }
{
    if left == 0 {
        return Ok(());
    }
    out.push(node)?;
    let kids = children_of(view, node, tape)?;
    add_below(view, kids, left - 1, tape, out)
}

/// Adds these nodes, the last one first.
fn add_reversed(nodes: &[NodeName], out: &mut Items<NodeName>) -> Result<(), NoMemory>
    ensures { OnOk result (out.new ≡ out.old ++ reverse nodes.now) }
{
    for node in nodes.iter().rev() {
        out.push(*node)?;
    }
    Ok(())
}

/// Adds these nodes.
pub(crate) fn add_nodes(nodes: &[NodeName], out: &mut Items<NodeName>) -> Result<(), NoMemory>
    ensures { OnOk result (out.new ≡ out.old ++ nodes.now) }
{
    for node in nodes {
        out.push(*node)?;
    }
    Ok(())
}

/// Adds the siblings behind a node, which is a child of `parent`.
fn add_siblings_behind<V: SourceView>(
    view: &V,
    node: NodeName,
    parent: NodeName,
    tape: &mut Tape,
    out: &mut Items<NodeName>,
) -> Result<(), NoMemory>
    ensures before { SeenBefore tape.old.cells tape.new.cells (V.cells view.now) }
    ensures value { OnOk result ((source : Source) → Agrees tape.new.cells (V.cells view.now) (cell_of source) → out.new ≡ out.old ++ after node (kids_at source parent)) }
    ensures within { (allowed : Cell → Bool) → MayRead allowed facet.Kids (parent ∷ []) → Within allowed tape.old.cells → Within allowed tape.new.cells }
    ensures place { tape.new.place_read ≡ tape.old.place_read }
{
    let kids = children_of(view, parent, tape)?;
    add_nodes(after(node, kids), out)
}

/// Adds the siblings before a node, which is a child of `parent`, the nearest first.
fn add_siblings_before<V: SourceView>(
    view: &V,
    node: NodeName,
    parent: NodeName,
    tape: &mut Tape,
    out: &mut Items<NodeName>,
) -> Result<(), NoMemory>
    ensures before { SeenBefore tape.old.cells tape.new.cells (V.cells view.now) }
    ensures value { OnOk result ((source : Source) → Agrees tape.new.cells (V.cells view.now) (cell_of source) → out.new ≡ out.old ++ reverse (before node (kids_at source parent))) }
    ensures within { (allowed : Cell → Bool) → MayRead allowed facet.Kids (parent ∷ []) → Within allowed tape.old.cells → Within allowed tape.new.cells }
    ensures place { tape.new.place_read ≡ tape.old.place_read }
{
    let kids = children_of(view, parent, tape)?;
    add_reversed(before(node, kids), out)
}

/// Adds the siblings behind a node, which is a child of `parent`, each with all that is below it.
fn add_behind<V: SourceView>(
    view: &V,
    node: NodeName,
    parent: NodeName,
    tape: &mut Tape,
    out: &mut Items<NodeName>,
) -> Result<(), NoMemory>
    ensures before { SeenBefore tape.old.cells tape.new.cells (V.cells view.now) }
    ensures value { OnOk result ((source : Source) → Agrees tape.new.cells (V.cells view.now) (cell_of source) → out.new ≡ out.old ++ below source levels (after node (kids_at source parent))) }
    ensures within { (allowed : Cell → Bool) (source : Source) → Agrees tape.new.cells (V.cells view.now) (cell_of source) →
        MayRead allowed facet.Kids (parent ∷ below source levels (after node (kids_at source parent))) → Within allowed tape.old.cells → Within allowed tape.new.cells }
    ensures place { tape.new.place_read ≡ tape.old.place_read }
{
    let kids = children_of(view, parent, tape)?;
    add_below(view, after(node, kids), LEVELS, tape, out)
}

/// Adds the siblings before a node, which is a child of `parent`, each with all that is below it, the nearest first.
fn add_before<V: SourceView>(
    alloc: Global,
    view: &V,
    node: NodeName,
    parent: NodeName,
    tape: &mut Tape,
    out: &mut Items<NodeName>,
) -> Result<(), NoMemory>
    ensures before { SeenBefore tape.old.cells tape.new.cells (V.cells view.now) }
    ensures value { OnOk result ((source : Source) → Agrees tape.new.cells (V.cells view.now) (cell_of source) → out.new ≡ out.old ++ reverse (below source levels (before node (kids_at source parent)))) }
    ensures within { (allowed : Cell → Bool) (source : Source) → Agrees tape.new.cells (V.cells view.now) (cell_of source) →
        MayRead allowed facet.Kids (parent ∷ below source levels (before node (kids_at source parent))) → Within allowed tape.old.cells → Within allowed tape.new.cells }
    ensures place { tape.new.place_read ≡ tape.old.place_read }
{
    let kids = children_of(view, parent, tape)?;
    let mut found = Items::new(alloc);
    add_below(view, before(node, kids), LEVELS, tape, &mut found)?;
    add_reversed(found.as_slice(), out)
}

/// Adds what a step out from a node to its parent comes to.
fn add_step<V: SourceView>(
    alloc: Global,
    view: &V,
    axis: Axis,
    node: NodeName,
    parent: NodeName,
    tape: &mut Tape,
    out: &mut Items<NodeName>,
) -> Result<(), NoMemory>
    ensures before { SeenBefore tape.old.cells tape.new.cells (V.cells view.now) }
    ensures value { OnOk result ((source : Source) → Agrees tape.new.cells (V.cells view.now) (cell_of source) → out.new ≡ out.old ++ step axis source node parent) }
    ensures within { (allowed : Cell → Bool) (source : Source) → Agrees tape.new.cells (V.cells view.now) (cell_of source) → MayStep allowed axis source node parent →
        Within allowed tape.old.cells → Within allowed tape.new.cells }
    ensures place { tape.new.place_read ≡ tape.old.place_read }
{
    match axis {
        Axis::Parent => add_nodes(&[parent], out),
        Axis::Ancestor => add_nodes(&[parent], out),
        Axis::AncestorOrSelf => add_nodes(&[parent], out),
        Axis::FollowingSibling => add_siblings_behind(view, node, parent, tape, out),
        Axis::PrecedingSibling => add_siblings_before(view, node, parent, tape, out),
        Axis::Following => add_behind(view, node, parent, tape, out),
        Axis::Preceding => add_before(alloc, view, node, parent, tape, out),
        Axis::Child => Ok(()),
        Axis::Attribute => Ok(()),
        Axis::Descendant => Ok(()),
        Axis::Itself => Ok(()),
        Axis::DescendantOrSelf => Ok(()),
    }
}

/// Adds what so many steps out from a node come to, the nearest first.
pub(crate) fn add_outward<V: SourceView>(
    alloc: Global,
    view: &V,
    axis: Axis,
    node: NodeName,
    left: u32,
    tape: &mut Tape,
    out: &mut Items<NodeName>,
) -> Result<(), NoMemory>
    ensures before { SeenBefore tape.old.cells tape.new.cells (V.cells view.now) }
    ensures value { OnOk result ((source : Source) → Agrees tape.new.cells (V.cells view.now) (cell_of source) → out.new ≡ out.old ++ outward axis source left node) }
    ensures within { (allowed : Cell → Bool) (source : Source) → Agrees tape.new.cells (V.cells view.now) (cell_of source) → MayWalk allowed axis source left node →
        Within allowed tape.old.cells → Within allowed tape.new.cells }
    ensures place { tape.new.place_read ≡ tape.old.place_read }
{
    if left == 0 {
        return Ok(());
    }
    match parent_of(view, node, tape)? {
        Some(parent) => {
            add_step(alloc, view, axis, node, parent, tape, out)?;
            add_outward(alloc, view, axis, parent, left - 1, tape, out)
        }
        None => Ok(()),
    }
}

/// Adds a node and then what an axis outward from it comes to, the nearest first.
pub(crate) fn add_with_outward<V: SourceView>(
    alloc: Global,
    view: &V,
    axis: Axis,
    node: NodeName,
    tape: &mut Tape,
    out: &mut Items<NodeName>,
) -> Result<(), NoMemory>
    ensures before { SeenBefore tape.old.cells tape.new.cells (V.cells view.now) }
    ensures value { OnOk result ((source : Source) → Agrees tape.new.cells (V.cells view.now) (cell_of source) → out.new ≡ out.old ++ node ∷ outward axis source levels node) }
    ensures within { (allowed : Cell → Bool) (source : Source) → Agrees tape.new.cells (V.cells view.now) (cell_of source) → MayWalk allowed axis source levels node →
        Within allowed tape.old.cells → Within allowed tape.new.cells }
    ensures place { tape.new.place_read ≡ tape.old.place_read }
{
    out.push(node)?;
    add_outward(alloc, view, axis, node, LEVELS, tape, out)
}

/// Adds all that is below a node, in document order.
pub(crate) fn add_descendants<V: SourceView>(
    view: &V,
    node: NodeName,
    tape: &mut Tape,
    out: &mut Items<NodeName>,
) -> Result<(), NoMemory>
    ensures before { SeenBefore tape.old.cells tape.new.cells (V.cells view.now) }
    ensures value { OnOk result ((source : Source) → Agrees tape.new.cells (V.cells view.now) (cell_of source) → out.new ≡ out.old ++ below source levels (kids_at source node)) }
    ensures within { (allowed : Cell → Bool) (source : Source) → Agrees tape.new.cells (V.cells view.now) (cell_of source) →
        MayRead allowed facet.Kids (node ∷ below source levels (kids_at source node)) → Within allowed tape.old.cells → Within allowed tape.new.cells }
    ensures place { tape.new.place_read ≡ tape.old.place_read }
{
    let kids = children_of(view, node, tape)?;
    add_below(view, kids, LEVELS, tape, out)
}

/// Adds the children of a node.
pub(crate) fn add_children<V: SourceView>(
    view: &V,
    node: NodeName,
    tape: &mut Tape,
    out: &mut Items<NodeName>,
) -> Result<(), NoMemory>
    ensures before { SeenBefore tape.old.cells tape.new.cells (V.cells view.now) }
    ensures value { OnOk result ((source : Source) → Agrees tape.new.cells (V.cells view.now) (cell_of source) → out.new ≡ out.old ++ kids_at source node) }
    ensures within { (allowed : Cell → Bool) → MayRead allowed facet.Kids (node ∷ []) → Within allowed tape.old.cells → Within allowed tape.new.cells }
    ensures place { tape.new.place_read ≡ tape.old.place_read }
{
    let kids = children_of(view, node, tape)?;
    add_nodes(kids, out)
}
