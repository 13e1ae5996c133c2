//! The log.

ghost use Rattle.std.specs.Prelude.{◌≡◌, ℕ, [], OnOk, OnErr, if◌then◌else◌};
ghost use Rattle.index_lists.specs.Lists.{times};
ghost use Rattle.dependency_log.specs.Logged.{nothing, cells_of, with_cells, each_once, has_cell};

use crate::edges::{Edges, named_once};
use crate::slots::Slots;
use serna_kinds::Cell;
use std::alloc::Global;
use std::marker::Model;

/// Memory was refused, or there would be more than 4,294,967,295 edges, cells or slots.
pub type NoMemory = std::alloc::AllocError;

/// Which cells each slot has: those that its last [`Log::put`] named, if it was not dropped since.
///
/// Clauses see it by `cells_of`, which is the list of cells of each slot. An edge that is gone leaves its room to the next one; the
/// number of a cell or a slot is kept for good. So the memory grows with the edges that there are at once, and
/// with the cells and the slots that were ever named.
#[derive(Drop)]
pub struct Log {
    edges: Edges,
}

impl Model for Log {
    ghost use Rattle.dependency_log.specs.Logged.{Logged};

    ghost Value = { Logged };

    ghost use Rattle.dependency_log.specs.Edges.{log_of, IsSound};

    ghost view = { λ l. log_of l.edges };

    ghost invariant = { λ l. IsSound l.edges };
}

impl Log {
    /// No slot has a cell. It takes no memory.
    pub fn new(alloc: Global) -> Log
        ensures empty { result ≡ nothing }
    {
        Log {
            edges: Edges::new(alloc),
        }
    }

    /// Gives a slot these cells in place of those that it had. A cell that is named twice is one edge.
    ///
    /// It takes time by the cells named and those that the slot had.
    ///
    /// # Errors
    ///
    /// `NoMemory` where memory was refused. The log is then as before.
    pub fn put(&mut self, alloc: Global, slot: u64, cells: &[Cell]) -> Result<(), NoMemory>
        ensures put { OnOk result (cells_of self.new ≡ with_cells (cells_of self.old) slot (each_once cells.now)) }
        ensures err { OnErr result (self.new ≡ self.old) }
    {
        // All memory is taken before the old edges go.
        let named = named_once(alloc, cells)?;
        let cells = named.as_slice();
        self.edges.prepare(alloc, slot, cells)?;
        self.edges.clear(slot);
        self.edges.connect(slot, cells);
        Ok(())
    }

    /// Takes its cells from a slot; where it had none, nothing changes.
    ///
    /// It takes no memory, and time by the cells that the slot had.
    pub fn drop_slot(&mut self, slot: u64)
        ensures dropped { cells_of self.new ≡ with_cells (cells_of self.old) slot [] }
        ensures nothing { cells_of self.old slot ≡ [] → self.new ≡ self.old }
    {
        self.edges.clear(slot);
    }

    /// The slots that have a cell, each once, in some order. It takes no memory.
    pub fn slots_of(&self, cell: Cell) -> Slots<'_>
        ensures each_once { (slot : ℕ) → times slot result ≡ (if has_cell (cells_of self.now) slot cell then 1 else 0) }
    {
        Slots::from(&self.edges, self.edges.first(cell))
    }
}
