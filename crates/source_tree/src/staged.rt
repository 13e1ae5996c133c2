//! Changes: what primitives would leave, and its taking on.
ghost use Rattle.std.specs.Prelude.{◌≡◌, ◌∷◌, [], ◌+◌, ◌-◌, ◌^◌, ◌↔◌, min, List, IfOk, OnOk, OnErr, Contains};
ghost use Rattle.serna_kinds.specs.declared.cells.Cell.{Cell};
ghost use Rattle.serna_kinds.specs.Tape.{AreDistinctCells};
ghost use Rattle.source_model.specs.Cells.{cell_of};
ghost use Rattle.source_model.specs.Told.{AreSameCells};
ghost use Rattle.frozen_tree.specs.Frozen.{cells_of, stamps_of};
ghost use Rattle.source_primitives.specs.Primitives.{applied, applied_all, inverse, inverses, MayApply, MayApplyAll};

use crate::SourceTree;
use frozen_tree::Frozen;
use serna_kinds::{Cell, Items, NoMemory, Tape};
use source_primitives::{Primitive, Undoing};
use source_steps::{Difference, Run};
use std::alloc::Global;
use std::marker::Model;
use std::slice;

/// What primitives would leave of a source, which does not show in the source until it is taken on. Contracts see it as a record:
/// the source that is left, the primitives that take those back, in their order, and the cells on which the two sources differ.
#[derive(Drop)]
pub struct Staged {
    left: SourceTree,
    inverses: Items<Primitive>,
    changed: Tape,
}

impl Model for Staged {
    ghost use Rattle.std.specs.Coded.{codes};
    ghost use Rattle.source_model.specs.Codes.{source_code};
    ghost use Rattle.source_tree.specs.Seen.{SeenStaged, seen_code, staged_code};

    ghost Value = { SeenStaged };

    ghost coded = { staged_code (seen_code (source_code (Prim.hlevel codes) (Prim.hlevel codes)) (Prim.hlevel codes)) (Prim.hlevel codes) (Prim.hlevel codes) };

    ghost view = { λ s. record { left = s.left; inverses = s.inverses; changed = s.changed.cells } };
}

impl Staged {
    /// The source that is left, as a map of its cells.
    pub fn view(&self) -> &Frozen
        ensures same { result.now ≡ self.now.left.kept }
        ensures cells { AreSameCells (cells_of result.now) (cell_of self.now.left.source) }
    {
        self.left.view()
    }

    /// The primitives that take the change back, one for each of its primitives and in their order: the last one goes first.
    pub fn inverses(&self) -> &[Primitive]
        ensures { result.now ≡ self.now.inverses }
    {
        self.inverses.as_slice()
    }

    /// The cells on which the two sources differ, each once.
    pub fn changed(&self) -> &[Cell]
        ensures cells { result.now ≡ self.now.changed }
        ensures distinct { AreDistinctCells self.now.changed }
    {
        self.changed.cells()
    }
}

impl SourceTree {
    ghost use Rattle.serna_kinds.specs.Names.{NameParts};
    ghost use Rattle.source_model.specs.Proper.{IsProper};
    ghost use Rattle.source_primitives.specs.Primitives.{MayType, KeepsProper};

    /// What primitives would leave, each applied to what those before it leave; the source stays as it is. It costs what the
    /// primitives touch. The cells on which the two sources differ have the number of the change as their stamp, the others keep
    /// theirs; that number stays at `u64::MAX` once it is there. `Err` comes where there is no memory.
    pub fn after(&self, alloc: Global, primitives: &[Primitive]) -> Result<Staged, NoMemory>
        requires { MayApplyAll primitives.now self.now.source }
        ensures source { IfOk result (λ staged. staged.left.source ≡ applied_all primitives.now self.now.source) }
        ensures inverses { IfOk result (λ staged. staged.inverses ≡ inverses primitives.now self.now.source) }
        ensures changed { IfOk result (λ staged. (cell : Cell) → Contains staged.changed cell ↔ (cell_of self.now.source cell ≡ cell_of staged.left.source cell → ⊥)) }
        ensures taken { IfOk result (λ staged. staged.left.taken ≡ min (self.now.taken + 1) (2 ^ 64 - 1)) }
        ensures stamped { IfOk result (λ staged. (cell : Cell) → Contains staged.changed cell → stamps_of staged.left.kept cell ≡ staged.left.taken) }
        ensures unstamped { IfOk result (λ staged. (cell : Cell) → (Contains staged.changed cell → ⊥) → stamps_of staged.left.kept cell ≡ stamps_of self.now.kept cell) }
    {
        let run = Run::of(alloc, &self.cells, self.made, primitives)?;
        let Run {
            cells,
            made,
            inverses,
            touched,
        } = run;
        let difference = Difference::between(alloc, &self.cells, &cells, touched.cells())?;
        let Difference {
            cells: changed,
            changes,
        } = difference;
        let taken = self.taken.saturating_add(1);
        let left = SourceTree {
            cells: self.cells.with_cells_at(alloc, taken, changes.as_slice())?,
            made,
            taken,
            spaces: self.spaces.clone()?,
        };
        Ok(Staged {
            left,
            inverses,
            changed,
        })
    }

    /// The source is then the one that was staged. Takes no memory.
    pub fn take_on(&mut self, staged: Staged)
        ensures { self.new ≡ staged.left }
    {
        let Staged {
            left,
            inverses: _,
            changed: _,
        } = staged;
        *self = left;
    }

    /// Applies one primitive and takes the change on. Answers the primitive that takes it back. `Err` comes where there is no
    /// memory; the source is then as before.
    pub fn apply(&mut self, alloc: Global, primitive: &Primitive) -> Result<Undoing, NoMemory>
        requires { MayApply primitive.now self.old.source }
        ensures applied { OnOk result (self.new.source ≡ applied primitive.now self.old.source) }
        ensures undoing { IfOk result (λ undoing. undoing ≡ inverse primitive.now self.old.source) }
        ensures taken { OnOk result (self.new.taken ≡ min (self.old.taken + 1) (2 ^ 64 - 1)) }
        ensures kept { OnErr result (self.new ≡ self.old) }
        ensures proper { OnOk result ((names : List NameParts) → MayType primitive.now self.old.source → IsProper names self.old.source → KeepsProper names primitive.now self.old.source → IsProper names self.new.source) }
    {
        let staged = self.after(alloc, slice::from_ref(primitive))?;
        let Staged {
            left,
            mut inverses,
            changed: _,
        } = staged;
        let undoing = inverses.pop().unwrap();
        *self = left;
        Ok(undoing)
    }
}
