//! The axes from an attribute (XPath 1.0, section 2.2): its parent is its element, and it has no children and no siblings.
ghost use Rattle.std.specs.Prelude.{◌≡◌, ◌++◌, List, Bool, IfOk, OnOk};
ghost use Rattle.serna_kinds.specs.declared.cells.Cell.{Cell};
ghost use Rattle.serna_kinds.specs.declared.cells.NodeRef.TheVariants as ref;
ghost use Rattle.serna_kinds.specs.declared.expressions.Axis.TheVariants as axis;
ghost use Rattle.serna_kinds.specs.Names.{NameParts};
ghost use Rattle.serna_kinds.specs.Tape.{Agrees, SeenBefore, Within};
ghost use Rattle.source_model.specs.Source.{Source};
ghost use Rattle.source_model.specs.Cells.{cell_of};
ghost use Rattle.source_model.specs.Axes.{axis_of, HasTest};
ghost use Rattle.source_model.specs.Logged.{axis_cells};
ghost use Rattle.source_model.specs.Sees.{Sees};
ghost use Rattle.xpath_axes.specs.Allowed.{MayLeave};
ghost use Rattle.xpath_axes.specs.Taken.{self_on};
ghost use Rattle.xpath_axes.specs.Walks.{nodes_from};

use crate::nodes::{attributes_of, place_of};
use crate::taken::{add_all_taken, add_attribute};
use crate::walks::{LEVELS, add_descendants, add_nodes, add_outward, add_with_outward};
use serna_kinds::{
    Axis, Items, NameId, NameTable, NoMemory, NodeName, NodeRef, NodeTest, SourceView, Tape,
};
use std::alloc::Global;

/// Adds the attribute itself where the axis begins with it and the test takes it.
fn add_self(
    node: NodeName,
    name: NameId,
    axis: Axis,
    test: &NodeTest,
    names: &NameTable,
    out: &mut Items<NodeRef>,
) -> Result<(), NoMemory>
    ensures { OnOk result (out.new ≡ out.old ++ self_on names.now axis test.now node name) }
{
    match axis {
        Axis::Itself => add_attribute(node, name, Axis::Itself, test, names, out),
        Axis::DescendantOrSelf => {
            add_attribute(node, name, Axis::DescendantOrSelf, test, names, out)
        }
        Axis::AncestorOrSelf => add_attribute(node, name, Axis::AncestorOrSelf, test, names, out),
        Axis::Child => Ok(()),
        Axis::Attribute => Ok(()),
        Axis::Parent => Ok(()),
        Axis::Descendant => Ok(()),
        Axis::Ancestor => Ok(()),
        Axis::FollowingSibling => Ok(()),
        Axis::PrecedingSibling => Ok(()),
        Axis::Following => Ok(()),
        Axis::Preceding => Ok(()),
    }
}

/// Adds the nodes on an axis from an attribute of the element `node`, in axis order.
fn add_nodes_from<V: SourceView>(
    alloc: Global,
    view: &V,
    axis: Axis,
    node: NodeName,
    tape: &mut Tape,
    out: &mut Items<NodeName>,
) -> Result<(), NoMemory>
    ensures before { SeenBefore tape.old.cells tape.new.cells (V.cells view.now) }
    ensures value { OnOk result ((source : Source) → Agrees tape.new.cells (V.cells view.now) (cell_of source) → out.new ≡ out.old ++ nodes_from axis source node) }
    ensures within { (allowed : Cell → Bool) (source : Source) → Agrees tape.new.cells (V.cells view.now) (cell_of source) → MayLeave allowed axis source node →
        Within allowed tape.old.cells → Within allowed tape.new.cells }
    ensures place { tape.new.place_read ≡ tape.old.place_read }
{
    match axis {
        Axis::Parent => add_nodes(&[node], out),
        Axis::Ancestor => add_with_outward(alloc, view, Axis::Ancestor, node, tape, out),
        Axis::AncestorOrSelf => {
            add_with_outward(alloc, view, Axis::AncestorOrSelf, node, tape, out)
        }
        Axis::Following => add_all_behind(alloc, view, node, tape, out),
        Axis::Preceding => add_outward(alloc, view, Axis::Preceding, node, LEVELS, tape, out),
        Axis::Child => Ok(()),
        Axis::Attribute => Ok(()),
        Axis::Descendant => Ok(()),
        Axis::Itself => Ok(()),
        Axis::DescendantOrSelf => Ok(()),
        Axis::FollowingSibling => Ok(()),
        Axis::PrecedingSibling => Ok(()),
    }
}

/// Adds all nodes behind an element's attributes in document order: what is below it, and what follows it.
fn add_all_behind<V: SourceView>(
    alloc: Global,
    view: &V,
    node: NodeName,
    tape: &mut Tape,
    out: &mut Items<NodeName>,
) -> Result<(), NoMemory>
    ensures before { SeenBefore tape.old.cells tape.new.cells (V.cells view.now) }
    ensures value { OnOk result ((source : Source) → Agrees tape.new.cells (V.cells view.now) (cell_of source) → out.new ≡ out.old ++ nodes_from axis.Following source node) }
    ensures within { (allowed : Cell → Bool) (source : Source) → Agrees tape.new.cells (V.cells view.now) (cell_of source) → MayLeave allowed axis.Following source node →
        Within allowed tape.old.cells → Within allowed tape.new.cells }
    ensures place { tape.new.place_read ≡ tape.old.place_read }
{
    add_descendants(view, node, tape, out)?;
    add_outward(alloc, view, Axis::Following, node, LEVELS, tape, out)
}

/// The nodes and attributes on an axis from an attribute of the element `node` that the test takes, in axis order.
pub(crate) fn axis_from_attribute<V: SourceView>(
    alloc: Global,
    view: &V,
    node: NodeName,
    name: NameId,
    axis: Axis,
    test: &NodeTest,
    names: &NameTable,
    tape: &mut Tape,
) -> Result<Items<NodeRef>, NoMemory>
    ensures before { SeenBefore tape.old.cells tape.new.cells (V.cells view.now) }
    ensures value { IfOk result (λ found. (table : List NameParts) (source : Source) → Sees names.now tape.new.cells (V.cells view.now) table source → HasTest names.now test.now →
        found ≡ axis_of table axis test.now source (ref.Attr node name)) }
    ensures within { (allowed : Cell → Bool) (table : List NameParts) (source : Source) → Sees names.now tape.new.cells (V.cells view.now) table source →
        Within allowed (axis_cells axis source (ref.Attr node name)) → Within allowed tape.old.cells → Within allowed tape.new.cells }
    ensures place { tape.new.place_read ≡ tape.old.place_read }
{
    let mut found = Items::new(alloc);
    let Some(_) = place_of(name, attributes_of(view, node, tape)?) else {
        return Ok(found);
    };
    add_self(node, name, axis, test, names, &mut found)?;
    let mut nodes = Items::new(alloc);
    add_nodes_from(alloc, view, axis, node, tape, &mut nodes)?;
    add_all_taken(view, nodes.as_slice(), axis, test, names, tape, &mut found)?;
    Ok(found)
}
