//! The steps that change the children of a node, and the cells of a whole document.
ghost use Rattle.std.specs.Prelude.{◌≡◌, ◌∷◌, ◌++◌, [], ◌<◌, ◌≤◌, IfOk, OnOk, None, Some, length, take, drop, remove, map};
ghost use Rattle.serna_kinds.specs.declared.cells.Facet.TheVariants as facet;
ghost use Rattle.serna_kinds.specs.Limits.{depth_limit};
ghost use Rattle.source_model.specs.Source.{Forest, Source, numbers};
ghost use Rattle.source_model.specs.Cells.{named, cell_of};
ghost use Rattle.source_model.specs.Changes.{alone_at};
ghost use Rattle.source_model.specs.Consistent.{AreLeaves, IsLinked};
ghost use Rattle.source_model.specs.Told.{kids_at, AreSameCells};
ghost use Rattle.frozen_tree.specs.Frozen.{cells_of};
ghost use Rattle.frozen_tree.specs.Maps.{nothing, changed_by};
ghost use Rattle.frozen_tree.specs.declared.kept.KeptValue.TheVariants as kept;
ghost use Rattle.source_primitives.specs.Primitives.{items_of};
ghost use Rattle.source_primitives.specs.declared.primitive.Primitive.TheVariants.{InsertChild, RemoveChild};
ghost use Rattle.source_steps.specs.CellChanges.{put, puts, takes};
ghost use Rattle.source_steps.specs.Putting.{greatest_among};
ghost use Rattle.source_steps.specs.Taking.{AreWithin};

use crate::Step;
use crate::changes::push;
use crate::putting::{Put, greatest_in, put_all, put_children};
use crate::read::kids_in;
use crate::taking::{read_node, take_all};
use frozen_tree::{CellChange, Frozen, KeptValue};
use serna_kinds::{Facet, Items, Kind, NoMemory, NodeName};
use source_primitives::{Primitive, SubItem};
use std::alloc::Global;

/// How deep elements may stand in one another, an outermost one at 1.
const DEEPEST: usize = 120;

/// Those of some numbers before a place, others, and those from another place on.
fn with_numbers(
    alloc: Global,
    numbers: &[NodeName],
    place: usize,
    more: &[NodeName],
    behind: usize,
) -> Result<Vec<NodeName>, NoMemory>
    requires place { place ≤ length numbers.now }
    requires behind { behind ≤ length numbers.now }
    ensures { IfOk result (λ all. all.items ≡ take place numbers.now ++ (more.now ++ drop behind numbers.now)) }
{
    let mut all = Vec::new(alloc);
    all.extend_from_slice(&numbers[..place])?;
    all.extend_from_slice(more)?;
    all.extend_from_slice(&numbers[behind..])?;
    Ok(all)
}

/// A subtree is put among the children of a node.
pub(crate) fn insert_child(
    alloc: Global,
    cells: &Frozen,
    parent: NodeName,
    place: usize,
    items: &[SubItem],
) -> Result<Step, NoMemory>
    requires { place ≤ length (kids_at (cells_of cells.now) parent) }
    ensures changes { IfOk result (λ step. (one : Forest) → AreLeaves one → items.now ≡ items_of one → step.changes ≡ puts (Some parent.0) one ++ put facet.Kids parent.0 (kept.Kids (take place (kids_at (cells_of cells.now) parent) ++ (map named (numbers one) ++ drop place (kids_at (cells_of cells.now) parent)))) ∷ []) }
    ensures undoing { IfOk result (λ step. step.undoing ≡ RemoveChild parent place) }
    ensures made { IfOk result (λ step. step.made ≡ greatest_among items.now) }
{
    let mut changes = Items::new(alloc);
    let below = put_all(alloc, items, 0, parent, &mut changes)?;
    let Put { kids: new, to: _ } = below;
    let old = kids_in(cells, parent);
    let kids = with_numbers(alloc, old, place, &new, place)?;
    put_children(parent, kids, &mut changes)?;
    Ok(Step {
        changes,
        undoing: Primitive::RemoveChild(parent, place),
        made: greatest_in(items),
    })
}

/// A child of a node is taken out, with all below it.
pub(crate) fn remove_child(
    alloc: Global,
    cells: &Frozen,
    parent: NodeName,
    place: usize,
) -> Result<Step, NoMemory>
    requires { place < length (kids_at (cells_of cells.now) parent) }
    ensures changes { IfOk result (λ step. (kids : Forest) → AreWithin (cells_of cells.now) (Some parent.0) depth_limit kids → kids_at (cells_of cells.now) parent ≡ map named (numbers kids) → step.changes ≡ takes (items_of (alone_at place kids)) ++ put facet.Kids parent.0 (kept.Kids (remove (kids_at (cells_of cells.now) parent) place)) ∷ []) }
    ensures undoing { IfOk result (λ step. (kids : Forest) → AreWithin (cells_of cells.now) (Some parent.0) depth_limit kids → kids_at (cells_of cells.now) parent ≡ map named (numbers kids) → step.undoing ≡ InsertChild parent place (items_of (alone_at place kids))) }
    ensures made { IfOk result (λ step. step.made ≡ 0) }
{
    let old = kids_in(cells, parent);
    let mut items = Items::new(alloc);
    read_node(alloc, cells, old[place], DEEPEST, &mut items)?;
    let mut changes = Items::new(alloc);
    take_all(items.as_slice(), &mut changes)?;
    let kids = with_numbers(alloc, old, place, &[], place + 1)?;
    put_children(parent, kids, &mut changes)?;
    Ok(Step {
        changes,
        undoing: Primitive::InsertChild(parent, place, items),
        made: 0,
    })
}

/// The changes that make the cells of a whole source, where there were none: the items are those of all that stands below its
/// document node.
pub fn whole_document(alloc: Global, items: &[SubItem]) -> Result<Items<CellChange>, NoMemory>
    ensures { IfOk result (λ changes. (source : Source) (linked : IsLinked source) → items.now ≡ items_of linked.top → AreSameCells (changed_by changes nothing) (cell_of source)) }
{
    let document = NodeName(0);
    let mut changes = Items::new(alloc);
    push(
        &mut changes,
        document,
        Facet::Label,
        KeptValue::Label(Kind::Root, None),
    )?;
    push(&mut changes, document, Facet::Up, KeptValue::Up(None))?;
    let below = put_all(alloc, items, 0, document, &mut changes)?;
    let Put { kids, to: _ } = below;
    put_children(document, kids, &mut changes)?;
    Ok(changes)
}
