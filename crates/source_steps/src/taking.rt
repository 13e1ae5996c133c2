//! The items of a node with all below it, read off its cells, and the changes that take its cells out.
ghost use Rattle.std.specs.Prelude.{◌≡◌, ◌++◌, ◌∷◌, [], OnOk};
ghost use Rattle.frozen_tree.specs.Frozen.{cells_of};
ghost use Rattle.source_steps.specs.CellChanges.{taken, gone, takes};
ghost use Rattle.source_steps.specs.Taking.{ReadsAll, ReadsNode, ReadsElement};

use crate::attributes::copied_pairs;
use crate::read::{Said, body_at, kids_in};
use frozen_tree::{CellChange, Frozen};
use serna_kinds::{AttrPair, Cell, Facet, Items, NameId, NoMemory, NodeName};
use source_primitives::SubItem;
use std::alloc::Global;

/// Adds the items of the nodes of these numbers, with all below them, where elements stand at most `left` deep in one another.
#[cycle(reading)]
fn read_all(
    alloc: Global,
    cells: &Frozen,
    kids: &[NodeName],
    left: usize,
    items: &mut Items<SubItem>,
) -> Result<(), NoMemory>
    ensures { OnOk result (ReadsAll (cells_of cells.now) kids.now left items.old items.new) }
{
    'neighbours: for kid in kids {
        read_node(alloc, cells, *kid, left, items)?;
    }
    Ok(())
}

/// Adds the items of the node of a number, with all below it. A number of no node adds nothing, and so does a document node.
#[cycle(reading)]
pub(crate) fn read_node(
    alloc: Global,
    cells: &Frozen,
    number: NodeName,
    left: usize,
    items: &mut Items<SubItem>,
) -> Result<(), NoMemory>
    ensures { OnOk result (ReadsNode (cells_of cells.now) number left items.old items.new) }
{
    let Some(found) = body_at(cells, number) else {
        return Ok(());
    };
    match found {
        Said::Root => Ok(()),
        Said::Element(name, pairs) => read_element(alloc, cells, number, name, pairs, left, items),
        Said::Text(text) => items.push(SubItem::Text(number, text.copy()?)),
        Said::Comment(text) => items.push(SubItem::Comment(number, text.copy()?)),
    }
}

/// Adds the items of an element, with all below it.
#[cycle(reading)]
fn read_element(
    alloc: Global,
    cells: &Frozen,
    number: NodeName,
    name: NameId,
    pairs: &[AttrPair],
    left: usize,
    items: &mut Items<SubItem>,
) -> Result<(), NoMemory>
    ensures { OnOk result (ReadsElement (cells_of cells.now) number name pairs.now left items.old items.new) }
{
    // No element of a source stands deeper.
    if left == 0 {
        return Ok(());
    }
    let own = copied_pairs(alloc, pairs)?;
    items.push(SubItem::Begin(number, name, own))?;
    read_all(alloc, cells, kids_in(cells, number), left - 1, items)?;
    items.push(SubItem::Finish)
}

/// Adds the changes that take out the cells of the nodes of items.
pub(crate) fn take_all(items: &[SubItem], changes: &mut Items<CellChange>) -> Result<(), NoMemory>
    ensures { OnOk result (changes.new ≡ changes.old ++ takes items.now) }
{
    'items: for item in items {
        match item {
            SubItem::Begin(node, _, _) => take_node(*node, changes)?,
            SubItem::Text(node, _) => take_node(*node, changes)?,
            SubItem::Comment(node, _) => take_node(*node, changes)?,
            SubItem::Finish => {}
        }
    }
    Ok(())
}

/// Adds the changes that take out the cells of a node, also those that it does not have.
fn take_node(node: NodeName, changes: &mut Items<CellChange>) -> Result<(), NoMemory>
    ensures { OnOk result (changes.new ≡ changes.old ++ gone node.0) }
{
    take(node, Facet::Label, changes)?;
    take(node, Facet::Kids, changes)?;
    take(node, Facet::Up, changes)?;
    take(node, Facet::Attrs, changes)?;
    take(node, Facet::Text, changes)
}

/// Adds the change that takes a cell out.
fn take(node: NodeName, facet: Facet, changes: &mut Items<CellChange>) -> Result<(), NoMemory>
    ensures { OnOk result (changes.new ≡ changes.old ++ taken facet node.0 ∷ []) }
{
    changes.push(CellChange {
        cell: Cell { node, facet },
        value: None,
    })
}
