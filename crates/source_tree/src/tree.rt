//! The source in memory: its cells as a map that never changes, made anew by each change, and what can be asked of it.
ghost use Rattle.std.specs.Prelude.{◌≡◌, IfOk};
ghost use Rattle.source_model.specs.Cells.{cell_of};
ghost use Rattle.source_model.specs.Consistent.{IsLinked};
ghost use Rattle.source_model.specs.Told.{AreSameCells};
ghost use Rattle.frozen_tree.specs.Frozen.{cells_of};
ghost use Rattle.source_tree.specs.Seen.{seen_cells};

use frozen_tree::Frozen;
use serna_kinds::{Cell, CellValue, NoMemory, SourceView, Spaces};
use std::marker::Model;
use std::sync::Arc;

/// The source of a document in memory. Contracts see it as a record: the present source, a tree of numbered nodes; how many
/// changes were taken on; and the map that has its cells, each with the number of the change that it had last as its stamp.
#[derive(Drop)]
pub struct SourceTree {
    // The cells of the present source, and no others.
    pub(crate) cells: Frozen,
    // How many node numbers were ever made, the document node's not counted.
    pub(crate) made: u32,
    // How many changes were taken on.
    pub(crate) taken: u64,
    pub(crate) spaces: Arc<Spaces>,
}

impl Model for SourceTree {
    ghost use Rattle.std.specs.Coded.{codes};
    ghost use Rattle.std.specs.Arc.{arc_value};
    ghost use Rattle.source_model.specs.Codes.{source_code};
    ghost use Rattle.source_tree.specs.Seen.{SeenTree, seen_code};

    ghost Value = { SeenTree };

    ghost coded = { seen_code (source_code (Prim.hlevel codes) (Prim.hlevel codes)) (Prim.hlevel codes) };

    ghost use Rattle.frozen_tree.specs.Frozen.{cells_of};
    ghost use Rattle.source_tree.specs.Kept.{source_told, IsKept};

    ghost view = { λ t. record { source = source_told (cells_of t.cells) t.made (arc_value t.spaces); taken = t.taken; kept = t.cells } };

    ghost invariant = { λ t. IsKept (cells_of t.cells) t.made };
}

impl SourceView for SourceTree {
    ghost cells = { seen_cells };

    fn read(&self, cell: Cell) -> Option<CellValue<'_>> {
        self.cells.read(cell)
    }
}

impl SourceTree {
    /// The present source as a map of its cells. The stamp of a cell is the number of the change that it had last, 0 where it
    /// had none.
    pub fn view(&self) -> &Frozen
        ensures same { result.now ≡ self.now.kept }
        ensures cells { AreSameCells (cells_of result.now) (cell_of self.now.source) }
        ensures linked { IsLinked self.now.source }
    {
        &self.cells
    }

    /// The present source as a map that later changes leave alone. It shares what it holds; `Err` comes only where 2^63 copies
    /// are there.
    pub fn freeze(&self) -> Result<Frozen, NoMemory>
        ensures same { IfOk result (λ frozen. frozen ≡ self.now.kept) }
        ensures cells { IfOk result (λ frozen. AreSameCells (cells_of frozen) (cell_of self.now.source)) }
    {
        self.cells.copy()
    }

    /// How many node numbers were ever made, the document node's not counted.
    pub fn made(&self) -> u32
        ensures { result ≡ self.now.source.made }
    {
        self.made
    }

    /// How many changes were taken on.
    pub fn taken(&self) -> u64
        ensures { result ≡ self.now.taken }
    {
        self.taken
    }

    /// The namespaces that the document declares. They never change.
    pub fn spaces(&self) -> &Spaces
        ensures { result.now ≡ self.now.source.spaces }
    {
        &self.spaces
    }
}
