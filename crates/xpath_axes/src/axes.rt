//! A step of a location path: the nodes and attributes on an axis that a test takes (XPath 1.0, sections 2.1 to 2.3).
ghost use Rattle.std.specs.Prelude.{◌≡◌, ◌++◌, List, Bool, IfOk, OnOk};
ghost use Rattle.serna_kinds.specs.declared.cells.Cell.{Cell};
ghost use Rattle.serna_kinds.specs.declared.cells.NodeRef.TheVariants as ref;
ghost use Rattle.serna_kinds.specs.declared.expressions.Axis.TheVariants as axis;
ghost use Rattle.serna_kinds.specs.Names.{NameParts};
ghost use Rattle.serna_kinds.specs.Tape.{Agrees, SeenBefore, Within};
ghost use Rattle.source_model.specs.Source.{Source};
ghost use Rattle.source_model.specs.Cells.{cell_of};
ghost use Rattle.source_model.specs.Axes.{axis_of, HasTest};
ghost use Rattle.source_model.specs.Logged.{axis_cells};
ghost use Rattle.source_model.specs.Sees.{Sees};
ghost use Rattle.xpath_axes.specs.Allowed.{MayGo, MayOwn};
ghost use Rattle.xpath_axes.specs.Taken.{attributes_on};
ghost use Rattle.xpath_axes.specs.Walks.{nodes_on};

use crate::attribute_axes::axis_from_attribute;
use crate::nodes::attributes_of;
use crate::taken::{add_all_taken, add_attributes};
use crate::walks::{
    LEVELS, add_children, add_descendants, add_nodes, add_outward, add_with_outward,
};
use serna_kinds::{
    Axis, Items, NameTable, NoMemory, NodeName, NodeRef, NodeTest, SourceView, Tape,
};
use std::alloc::Global;

/// Adds the nodes on an axis from a node, in axis order.
fn add_nodes_on<V: SourceView>(
    alloc: Global,
    view: &V,
    axis: Axis,
    node: NodeName,
    tape: &mut Tape,
    out: &mut Items<NodeName>,
) -> Result<(), NoMemory>
    ensures before { SeenBefore tape.old.cells tape.new.cells (V.cells view.now) }
    ensures value { OnOk result ((source : Source) → Agrees tape.new.cells (V.cells view.now) (cell_of source) → out.new ≡ out.old ++ nodes_on axis source node) }
    ensures within { (allowed : Cell → Bool) (source : Source) → Agrees tape.new.cells (V.cells view.now) (cell_of source) → MayGo allowed axis source node →
        Within allowed tape.old.cells → Within allowed tape.new.cells }
    ensures place { tape.new.place_read ≡ tape.old.place_read }
{
    match axis {
        Axis::Child => add_children(view, node, tape, out),
        Axis::Descendant => add_descendants(view, node, tape, out),
        Axis::DescendantOrSelf => add_with_descendants(view, node, tape, out),
        Axis::Itself => add_nodes(&[node], out),
        Axis::Parent => add_outward(alloc, view, Axis::Parent, node, 1, tape, out),
        Axis::Ancestor => add_outward(alloc, view, Axis::Ancestor, node, LEVELS, tape, out),
        Axis::AncestorOrSelf => {
            add_with_outward(alloc, view, Axis::AncestorOrSelf, node, tape, out)
        }
        Axis::FollowingSibling => {
            add_outward(alloc, view, Axis::FollowingSibling, node, 1, tape, out)
        }
        Axis::PrecedingSibling => {
            add_outward(alloc, view, Axis::PrecedingSibling, node, 1, tape, out)
        }
        Axis::Following => add_outward(alloc, view, Axis::Following, node, LEVELS, tape, out),
        Axis::Preceding => add_outward(alloc, view, Axis::Preceding, node, LEVELS, tape, out),
        Axis::Attribute => Ok(()),
    }
}

/// Adds a node and all that is below it, in document order.
fn add_with_descendants<V: SourceView>(
    view: &V,
    node: NodeName,
    tape: &mut Tape,
    out: &mut Items<NodeName>,
) -> Result<(), NoMemory>
    ensures before { SeenBefore tape.old.cells tape.new.cells (V.cells view.now) }
    ensures value { OnOk result ((source : Source) → Agrees tape.new.cells (V.cells view.now) (cell_of source) → out.new ≡ out.old ++ nodes_on axis.DescendantOrSelf source node) }
    ensures within { (allowed : Cell → Bool) (source : Source) → Agrees tape.new.cells (V.cells view.now) (cell_of source) → MayGo allowed axis.DescendantOrSelf source node →
        Within allowed tape.old.cells → Within allowed tape.new.cells }
    ensures place { tape.new.place_read ≡ tape.old.place_read }
{
    out.push(node)?;
    add_descendants(view, node, tape, out)
}

/// Adds an element's attributes that the test takes, on the axis `attribute`; on another axis none.
fn add_own_attributes<V: SourceView>(
    view: &V,
    node: NodeName,
    axis: Axis,
    test: &NodeTest,
    names: &NameTable,
    tape: &mut Tape,
    out: &mut Items<NodeRef>,
) -> Result<(), NoMemory>
    ensures before { SeenBefore tape.old.cells tape.new.cells (V.cells view.now) }
    ensures value { OnOk result ((table : List NameParts) (source : Source) → Sees names.now tape.new.cells (V.cells view.now) table source → HasTest names.now test.now →
        out.new ≡ out.old ++ attributes_on table axis test.now source node) }
    ensures within { (allowed : Cell → Bool) → MayOwn allowed axis node → Within allowed tape.old.cells → Within allowed tape.new.cells }
    ensures place { tape.new.place_read ≡ tape.old.place_read }
{
    match axis {
        Axis::Attribute => {
            let pairs = attributes_of(view, node, tape)?;
            add_attributes(node, pairs, Axis::Attribute, test, names, out)
        }
        Axis::Child => Ok(()),
        Axis::Descendant => Ok(()),
        Axis::DescendantOrSelf => Ok(()),
        Axis::Itself => Ok(()),
        Axis::Parent => Ok(()),
        Axis::Ancestor => Ok(()),
        Axis::AncestorOrSelf => Ok(()),
        Axis::FollowingSibling => Ok(()),
        Axis::PrecedingSibling => Ok(()),
        Axis::Following => Ok(()),
        Axis::Preceding => Ok(()),
    }
}

/// The nodes and attributes on an axis from a node that the test takes, in axis order.
fn axis_from_node<V: SourceView>(
    alloc: Global,
    view: &V,
    node: NodeName,
    axis: Axis,
    test: &NodeTest,
    names: &NameTable,
    tape: &mut Tape,
) -> Result<Items<NodeRef>, NoMemory>
    ensures before { SeenBefore tape.old.cells tape.new.cells (V.cells view.now) }
    ensures value { IfOk result (λ found. (table : List NameParts) (source : Source) → Sees names.now tape.new.cells (V.cells view.now) table source → HasTest names.now test.now →
        found ≡ axis_of table axis test.now source (ref.Node node)) }
    ensures within { (allowed : Cell → Bool) (table : List NameParts) (source : Source) → Sees names.now tape.new.cells (V.cells view.now) table source →
        Within allowed (axis_cells axis source (ref.Node node)) → Within allowed tape.old.cells → Within allowed tape.new.cells }
    ensures place { tape.new.place_read ≡ tape.old.place_read }
{
    let mut found = Items::new(alloc);
    add_own_attributes(view, node, axis, test, names, tape, &mut found)?;
    let mut nodes = Items::new(alloc);
    add_nodes_on(alloc, view, axis, node, tape, &mut nodes)?;
    add_all_taken(view, nodes.as_slice(), axis, test, names, tape, &mut found)?;
    Ok(found)
}

/// The nodes and attributes on an axis from a node or attribute that a test takes, in axis order: document order, and on the axes
/// `ancestor`, `ancestor-or-self`, `preceding` and `preceding-sibling` the reverse of it (XPath 1.0, sections 2.1 to 2.4). None where
/// there is no such node or attribute. From an attribute, its parent is its element, and what follows it begins with what is below
/// that. The tape notes each cell that is read. `Err` comes where memory runs out.
pub fn axis<V: SourceView>(
    alloc: Global,
    view: &V,
    from: NodeRef,
    axis: Axis,
    test: &NodeTest,
    names: &NameTable,
    tape: &mut Tape,
) -> Result<Items<NodeRef>, NoMemory>
    // Nothing that was noted is lost.
    ensures before { SeenBefore tape.old.cells tape.new.cells (V.cells view.now) }
    ensures place { tape.new.place_read ≡ tape.old.place_read }

    // They are those of each source that has, at the cells that were noted, what the view has, under every table that grows from this one.
    ensures value { IfOk result (λ found. (table : List NameParts) (source : Source) → Sees names.now tape.new.cells (V.cells view.now) table source → HasTest names.now test.now →
        found ≡ axis_of table axis test.now source from) }

    // It reads only cells of the axis.
    ensures within { (allowed : Cell → Bool) (table : List NameParts) (source : Source) → Sees names.now tape.new.cells (V.cells view.now) table source →
        Within allowed (axis_cells axis source from) → Within allowed tape.old.cells → Within allowed tape.new.cells }
{
    match from {
        NodeRef::Node(node) => axis_from_node(alloc, view, node, axis, test, names, tape),
        NodeRef::Attr(node, name) => {
            axis_from_attribute(alloc, view, node, name, axis, test, names, tape)
        }
    }
}
