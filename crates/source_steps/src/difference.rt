//! On which of some cells two maps differ, and the changes that lead from one to the other there.
ghost use Rattle.std.specs.Prelude.{◌≡◌, ◌↔◌, IsTrue, IfOk, OnOk, Option, option_map};
ghost use Rattle.std.specs.Option.{option_copied};
ghost use Rattle.serna_kinds.specs.Content.{Content};
ghost use Rattle.frozen_tree.specs.Maps.{kept_content};
ghost use Rattle.frozen_tree.specs.Frozen.{cells_of};
ghost use Rattle.source_steps.specs.Differences.{IsDifference, Looks};

use frozen_tree::{CellChange, Frozen, KeptValue};
use serna_kinds::{Cell, Items, NoMemory, Tape};
use std::alloc::Global;

/// The cells on which two maps differ, each once, and the changes that give these cells what the newer one has there.
#[derive(Drop)]
pub struct Difference {
    pub cells: Tape,
    pub changes: Items<CellChange>,
}

impl Difference {
    /// Looks at some cells in two maps. It costs what the two hold there, up to the first difference in each cell. `Err` comes
    /// where there is no memory.
    pub fn between(
        alloc: Global,
        old: &Frozen,
        new: &Frozen,
        cells: &[Cell],
    ) -> Result<Difference, NoMemory>
        ensures { IfOk result (λ difference. IsDifference (cells_of old.now) (cells_of new.now) cells.now difference) }
    {
        let mut difference = Difference {
            cells: Tape::new(alloc),
            changes: Items::new(alloc),
        };
        for cell in cells {
            difference.add(old, new, *cell)?;
        }
        Ok(difference)
    }

    /// Looks at one cell more.
    fn add(&mut self, old: &Frozen, new: &Frozen, cell: Cell) -> Result<(), NoMemory>
        ensures { OnOk result (Looks (cells_of old.now) (cells_of new.now) cell self.old self.new) }
    {
        if hold_same(old, new, cell) {
            return Ok(());
        }
        let value = copied(new.kept(cell))?;
        self.cells.read(new, cell)?;
        self.changes.push(CellChange { cell, value })
    }
}

/// Whether two maps have the same at a cell.
fn hold_same(old: &Frozen, new: &Frozen, cell: Cell) -> bool
    ensures { IsTrue result ↔ (cells_of old.now cell ≡ cells_of new.now cell) }
{
    are_same(old.kept(cell), new.kept(cell))
}

/// Whether two values say the same, where there are any.
fn are_same(one: Option<&KeptValue>, other: Option<&KeptValue>) -> bool
    ensures { IsTrue result ↔ (option_map kept_content (option_copied one.entry) ≡ option_map kept_content (option_copied other.entry)) }
{
    match one {
        Some(one) => match other {
            Some(other) => one.says_same(other),
            None => false,
        },
        None => match other {
            Some(_) => false,
            None => true,
        },
    }
}

/// A value, shared, where there is one.
fn copied(value: Option<&KeptValue>) -> Result<Option<KeptValue>, NoMemory>
    ensures { IfOk result (λ copy. copy ≡ option_copied value.entry) }
{
    match value {
        Some(value) => Ok(Some(value.copy()?)),
        None => Ok(None),
    }
}
