//! Changes of cells, gathered one behind another.
ghost use Rattle.std.specs.Prelude.{◌≡◌, ◌++◌, ◌∷◌, [], IfOk, OnOk};
ghost use Rattle.source_steps.specs.CellChanges.{put};

use frozen_tree::{CellChange, KeptValue};
use serna_kinds::{Cell, Facet, Items, NoMemory, NodeName};
use std::alloc::Global;

/// Adds the change that gives a cell of a node its value.
pub(crate) fn push(
    changes: &mut Items<CellChange>,
    node: NodeName,
    facet: Facet,
    value: KeptValue,
) -> Result<(), NoMemory>
    ensures { OnOk result (changes.new ≡ changes.old ++ put facet node.0 value ∷ []) }
{
    changes.push(CellChange {
        cell: Cell { node, facet },
        value: Some(value),
    })
}

/// The change that gives a cell of a node its value, alone.
pub(crate) fn one_change(
    alloc: Global,
    node: NodeName,
    facet: Facet,
    value: KeptValue,
) -> Result<Items<CellChange>, NoMemory>
    ensures { IfOk result (λ changes. changes ≡ put facet node.0 value ∷ []) }
{
    let mut changes = Items::new(alloc);
    push(&mut changes, node, facet, value)?;
    Ok(changes)
}
