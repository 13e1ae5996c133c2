//! Which of the nodes and attributes that a walk came to a test takes (XPath 1.0, section 2.3).
ghost use Rattle.std.specs.Prelude.{◌≡◌, ◌++◌, List, Bool, IsTrue, OnOk};
ghost use Rattle.serna_kinds.specs.declared.cells.Cell.{Cell};
ghost use Rattle.serna_kinds.specs.declared.cells.Facet.TheVariants as facet;
ghost use Rattle.serna_kinds.specs.Names.{NameParts};
ghost use Rattle.serna_kinds.specs.Tape.{SeenBefore, Within};
ghost use Rattle.source_model.specs.Source.{Source};
ghost use Rattle.source_model.specs.Axes.{HasTest};
ghost use Rattle.source_model.specs.Logged.{cell_at};
ghost use Rattle.source_model.specs.Sees.{Sees};
ghost use Rattle.xpath_axes.specs.Allowed.{MayRead};
ghost use Rattle.xpath_axes.specs.Taken.{taken_at, taken_along, taken_attribute, taken_attributes};

use crate::node_tests::takes;
use crate::nodes::label_of;
use serna_kinds::{
    AttrPair, Axis, Items, NameId, NameTable, NoMemory, NodeName, NodeRef, NodeTest, SourceView,
    Tape,
};

/// Adds a node that is there and that the test takes.
fn add_taken<V: SourceView>(
    view: &V,
    node: NodeName,
    along: Axis,
    test: &NodeTest,
    names: &NameTable,
    tape: &mut Tape,
    out: &mut Items<NodeRef>,
) -> Result<(), NoMemory>
    ensures before { SeenBefore tape.old.cells tape.new.cells (V.cells view.now) }
    ensures value { OnOk result ((table : List NameParts) (source : Source) → Sees names.now tape.new.cells (V.cells view.now) table source → HasTest names.now test.now →
        out.new ≡ out.old ++ taken_at table along test.now source node) }
    ensures within { (allowed : Cell → Bool) → IsTrue (allowed (cell_at facet.Label node)) → Within allowed tape.old.cells → Within allowed tape.new.cells }
    ensures place { tape.new.place_read ≡ tape.old.place_read }
{
    match label_of(view, node, tape)? {
        Some((kind, name)) => {
            if takes(names, along, test, Some(kind), name) {
                out.push(NodeRef::Node(node))?;
            }
            Ok(())
        }
        None => Ok(()),
    }
}

/// Adds those of a list of nodes that are there and that the test takes, in the list's order.
pub(crate) fn add_all_taken<V: SourceView>(
    view: &V,
    nodes: &[NodeName],
    along: Axis,
    test: &NodeTest,
    names: &NameTable,
    tape: &mut Tape,
    out: &mut Items<NodeRef>,
) -> Result<(), NoMemory>
    ensures before { SeenBefore tape.old.cells tape.new.cells (V.cells view.now) }
    ensures value { OnOk result ((table : List NameParts) (source : Source) → Sees names.now tape.new.cells (V.cells view.now) table source → HasTest names.now test.now →
        out.new ≡ out.old ++ taken_along table along test.now source nodes.now) }
    ensures within { (allowed : Cell → Bool) → MayRead allowed facet.Label nodes.now → Within allowed tape.old.cells → Within allowed tape.new.cells }
    ensures place { tape.new.place_read ≡ tape.old.place_read }
{
    for node in nodes {
        add_taken(view, *node, along, test, names, tape, out)?;
    }
    Ok(())
}

/// Adds the attribute of an element that has this name, where the test takes it.
pub(crate) fn add_attribute(
    element: NodeName,
    name: NameId,
    along: Axis,
    test: &NodeTest,
    names: &NameTable,
    out: &mut Items<NodeRef>,
) -> Result<(), NoMemory>
    ensures { OnOk result (out.new ≡ out.old ++ taken_attribute names.now along test.now element name) }
{
    if takes(names, along, test, None, Some(name)) {
        out.push(NodeRef::Attr(element, name))?;
    }
    Ok(())
}

/// Adds those of an element's attributes that the test takes, in their order.
pub(crate) fn add_attributes(
    element: NodeName,
    pairs: &[AttrPair],
    along: Axis,
    test: &NodeTest,
    names: &NameTable,
    out: &mut Items<NodeRef>,
) -> Result<(), NoMemory>
    ensures { OnOk result (out.new ≡ out.old ++ taken_attributes names.now along test.now element pairs.now) }
{
    for pair in pairs {
        add_attribute(element, pair.name, along, test, names, out)?;
    }
    Ok(())
}
