//! Primitives one after another, each on the cells that those before it left.
ghost use Rattle.std.specs.Prelude.{◌≡◌, ℕ, List, IfOk, OnOk};
ghost use Rattle.frozen_tree.specs.declared.kept.CellChange.{CellChange};
ghost use Rattle.frozen_tree.specs.Frozen.{cells_of};
ghost use Rattle.source_steps.specs.Steps.{MayStep};
ghost use Rattle.source_steps.specs.Runs.{MayRun, Runs, Adds, Notes};

use crate::Step;
use crate::putting::greater;
use frozen_tree::{CellChange, Frozen};
use serna_kinds::{Items, NoMemory, Tape};
use source_primitives::Primitive;
use std::alloc::Global;

/// What primitives leave: the cells, how many numbers were made, the primitives that take them back, each told of the source
/// before it, in the order of the primitives, and the cells that they touched.
#[derive(Drop)]
pub struct Run {
    pub cells: Frozen,
    pub made: u32,
    pub inverses: Items<Primitive>,
    pub touched: Tape,
}

impl Run {
    /// Applies primitives one after another to the source that has these cells and these many numbers made, and leaves the cells
    /// that it was given as they are. It costs what the primitives touch. `Err` comes where there is no memory.
    pub fn of(
        alloc: Global,
        cells: &Frozen,
        made: u32,
        primitives: &[Primitive],
    ) -> Result<Run, NoMemory>
        requires { MayRun (cells_of cells.now) made primitives.now }
        ensures { IfOk result (λ run. Runs (cells_of cells.now) made primitives.now run) }
    {
        let mut run = Run {
            cells: cells.copy()?,
            made,
            inverses: Items::new(alloc),
            touched: Tape::new(alloc),
        };
        for primitive in primitives {
            run.add(alloc, primitive)?;
        }
        Ok(run)
    }

    /// Applies one primitive more.
    fn add(&mut self, alloc: Global, primitive: &Primitive) -> Result<(), NoMemory>
        requires { MayStep (cells_of self.old.cells) primitive.now }
        ensures { OnOk result (Adds self.old primitive.now self.new) }
    {
        let step = Step::of(alloc, &self.cells, primitive)?;
        let Step {
            changes,
            undoing,
            made,
        } = step;
        self.note(changes.as_slice())?;
        self.cells = self.cells.with_cells(alloc, changes.as_slice())?;
        self.inverses.push(undoing)?;
        self.made = greater(self.made, made);
        Ok(())
    }

    /// Notes the cells of changes as touched.
    fn note(&mut self, changes: &[CellChange]) -> Result<(), NoMemory>
        ensures { OnOk result (Notes self.old changes.now self.new) }
    {
        for change in changes {
            self.touched.read(&self.cells, change.cell)?;
        }
        Ok(())
    }
}
