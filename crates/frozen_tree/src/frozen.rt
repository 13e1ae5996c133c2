//! The map itself: a top list of branches of 128 leaves, each leaf of 64 nodes.

ghost use Rattle.std.specs.Prelude.{◌≡◌, ◌/◌, ◌%◌, IfOk, OnOk, unwrap_or, option_copied, if◌then◌else◌};
ghost use Rattle.serna_kinds.specs.declared.cells.Cell.{Cell};
ghost use Rattle.serna_kinds.specs.Tape.{is_cell};
ghost use Rattle.frozen_tree.specs.Nodes.{no_state, next_state};
ghost use Rattle.frozen_tree.specs.Frozen.{state_at, cells_of, stamps_of};

use crate::node::{CellState, NodeCells, copied};
use crate::shelf::{Shelf, Shelved};
use crate::{CellChange, KeptValue};
use serna_kinds::{Cell, CellValue, NoMemory, NodeName, SourceView};
use std::alloc::Global;
use std::marker::Model;
use std::sync::Arc;

type Leaf = Shelf<NodeCells>;

type Branch = Shelf<Leaf>;

type Top = Shelf<Branch>;

const LEAF_NODES: usize = 64;

const BRANCH_LEAVES: usize = 128;

/// A map from cells to values that never changes, with a stamp for each cell.
///
/// Contracts see two functions of it: `cells_of`, which gives each cell its content or none, and `stamps_of`, which gives
/// each cell the revision of the last change that named it, 0 where there was none.
#[derive(Drop)]
pub struct Frozen {
    // None for the empty map, which takes no memory.
    top: Option<Arc<Top>>,
}

impl Model for Frozen {
    ghost use Rattle.std.specs.Prelude.{[], unwrap_or, option_map};
    ghost use Rattle.std.specs.Arc.{arc_value};
    ghost use Rattle.frozen_tree.specs.Frozen.{FrozenValue};

    ghost Value = { FrozenValue };

    ghost view = { λ f. unwrap_or (option_map arc_value f.top) [] };
}

// Where the cells of a node stand: the branch in the top list, the leaf in the branch, and the node in the leaf.
#[derive(Clone, Copy)]
struct Place {
    branch: usize,
    leaf: usize,
    node: usize,
}

impl Place {
    fn of(node: NodeName) -> Place
        ensures branch { result.branch ≡ node.0 / 8192 }
        ensures leaf { result.leaf ≡ node.0 / 64 % 128 }
        ensures node { result.node ≡ node.0 % 64 }
    {
        let number = node.0 as usize;
        Place {
            branch: number / (LEAF_NODES * BRANCH_LEAVES),
            leaf: number / LEAF_NODES % BRANCH_LEAVES,
            node: number % LEAF_NODES,
        }
    }
}

// Changes one cell in a top list that no one else has: the node, its leaf and its branch are changed where they stand if
// nothing shares them, and else copied first. After an error the list lacks some of its nodes.
fn put(
    top: &mut Top,
    alloc: Global,
    change: &CellChange,
    revision: Option<u64>,
) -> Result<(), NoMemory>
    ensures { OnOk result ((cell : Cell) → state_at top.new cell ≡ if is_cell change.now.cell cell then next_state revision change.now (state_at top.old cell) else state_at top.old cell) }
{
    let place = Place::of(change.cell.node);
    let value = copied(&change.value)?;
    let mut branch = top.take(alloc, place.branch)?;
    let mut leaf = branch.take(alloc, place.leaf)?;
    let mut node = leaf.take(alloc, place.node)?;
    node.change(change.cell.facet, value, revision);
    leaf.put(alloc, place.node, node)?;
    branch.put(alloc, place.leaf, leaf)?;
    top.put(alloc, place.branch, branch)
}

impl Frozen {
    ghost use Rattle.std.specs.Prelude.{option_map};
    ghost use Rattle.frozen_tree.specs.Maps.{nothing, no_stamps, changed_by, stamped_by, stamped_if, kept_content};

    /// The map without cells, with all stamps 0. Takes no memory.
    pub fn new() -> Frozen
        ensures cells { cells_of result ≡ nothing }
        ensures stamps { stamps_of result ≡ no_stamps }
    {
        Frozen { top: None }
    }

    /// The same map. It shares all its memory and takes none; `Err` comes only where 2^63 copies are there.
    pub fn copy(&self) -> Result<Frozen, NoMemory>
        ensures { IfOk result (λ copy. copy ≡ self.now) }
    {
        match &self.top {
            Some(top) => {
                let top = top.clone()?;
                Ok(Frozen { top: Some(top) })
            }
            None => Ok(Frozen { top: None }),
        }
    }

    /// The map with those cells put or taken out, one after another. All stamps stay as they are, those of these cells too.
    pub fn with_cells(&self, alloc: Global, changes: &[CellChange]) -> Result<Frozen, NoMemory>
        ensures cells { IfOk result (λ new. cells_of new ≡ changed_by changes.now (cells_of self.now)) }
        ensures stamps { IfOk result (λ new. stamps_of new ≡ stamps_of self.now) }
    {
        self.changed(alloc, None, changes)
    }

    /// The map with those cells put or taken out, one after another. Their stamp is the revision, and all other cells keep theirs.
    pub fn with_cells_at(
        &self,
        alloc: Global,
        revision: u64,
        changes: &[CellChange],
    ) -> Result<Frozen, NoMemory>
        ensures cells { IfOk result (λ new. cells_of new ≡ changed_by changes.now (cells_of self.now)) }
        ensures stamps { IfOk result (λ new. stamps_of new ≡ stamped_by revision changes.now (stamps_of self.now)) }
    {
        self.changed(alloc, Some(revision), changes)
    }

    // The map with those cells changed, and stamped where there is a revision.
    fn changed(
        &self,
        alloc: Global,
        revision: Option<u64>,
        changes: &[CellChange],
    ) -> Result<Frozen, NoMemory>
        ensures cells { IfOk result (λ new. cells_of new ≡ changed_by changes.now (cells_of self.now)) }
        ensures stamps { IfOk result (λ new. stamps_of new ≡ stamped_if revision changes.now (stamps_of self.now)) }
    {
        let mut top = self.own_top(alloc)?;
        for change in changes {
            put(&mut top, alloc, change, revision)?;
        }
        let top = Arc::new(alloc, top)?;
        Ok(Frozen { top: Some(top) })
    }

    // The top list, for the caller alone.
    fn own_top(&self, alloc: Global) -> Result<Top, NoMemory>
        ensures { IfOk result (λ top. top ≡ self.now) }
    {
        match &self.top {
            Some(top) => top.copy(alloc),
            None => Ok(Top::empty(alloc)),
        }
    }

    // The state of a cell, None where no change named a cell of its node. Three look-ups.
    fn state(&self, cell: Cell) -> Option<&CellState>
        ensures { unwrap_or (option_copied result) no_state ≡ state_at self.now cell }
    {
        let place = Place::of(cell.node);
        let top = self.top.as_ref()?;
        let node = top.get(place.branch)?.get(place.leaf)?.get(place.node)?;
        Some(node.state(cell.facet))
    }

    /// The value of a cell as the map keeps it, so that it can be shared further; None where there is none. Takes no memory.
    pub fn kept(&self, cell: Cell) -> Option<&KeptValue>
        ensures { option_map kept_content (option_copied result) ≡ cells_of self.now cell }
    {
        self.state(cell)?.value.as_ref()
    }

    /// The revision of the last change that named the cell, 0 where there was none. Takes no memory.
    pub fn stamp(&self, cell: Cell) -> u64
        ensures { result ≡ stamps_of self.now cell }
    {
        match self.state(cell) {
            Some(state) => state.stamp,
            None => 0,
        }
    }
}

impl SourceView for Frozen {
    ghost use Rattle.frozen_tree.specs.Frozen.{cells_of};

    ghost cells = { cells_of };

    fn read(&self, cell: Cell) -> Option<CellValue<'_>> {
        let value = self.state(cell)?.value.as_ref()?;
        Some(value.as_value())
    }
}
