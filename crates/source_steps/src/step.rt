//! One primitive as changes of cells.
ghost use Rattle.std.specs.Prelude.{IfOk};
ghost use Rattle.frozen_tree.specs.Frozen.{cells_of};
ghost use Rattle.source_steps.specs.Steps.{MayStep, Steps};

use crate::attributes::{put_attr, remove_attr, set_attr};
use crate::children::{insert_child, remove_child};
use crate::text::{insert_text, remove_text};
use frozen_tree::{CellChange, Frozen};
use serna_kinds::{Items, NoMemory};
use source_primitives::Primitive;
use std::alloc::Global;

/// What a primitive does: the changes of cells, one after another, the primitive that takes it back, and the greatest of the
/// numbers that it puts in, 0 where it puts in none.
#[derive(Drop)]
pub struct Step {
    pub changes: Items<CellChange>,
    pub undoing: Primitive,
    pub made: u32,
}

impl Step {
    /// The step of a primitive that may be applied to the source that has these cells. It costs what it touches: a text, the
    /// attributes of an element, or the children of a node and the subtree that is put in or taken out. `Err` comes where there
    /// is no memory.
    pub fn of(alloc: Global, cells: &Frozen, primitive: &Primitive) -> Result<Step, NoMemory>
        requires { MayStep (cells_of cells.now) primitive.now }
        ensures { IfOk result (λ step. Steps (cells_of cells.now) primitive.now step) }
    {
        match primitive {
            Primitive::InsertText(text, place, piece) => {
                insert_text(alloc, cells, *text, *place, piece)
            }
            Primitive::RemoveText(text, from, to) => remove_text(alloc, cells, *text, *from, *to),
            Primitive::InsertChild(parent, place, items) => {
                insert_child(alloc, cells, *parent, *place, items.as_slice())
            }
            Primitive::RemoveChild(parent, place) => remove_child(alloc, cells, *parent, *place),
            Primitive::SetAttr(element, name, value) => {
                set_attr(alloc, cells, *element, *name, value)
            }
            Primitive::RemoveAttr(element, name) => remove_attr(alloc, cells, *element, *name),
            Primitive::PutAttr(element, place, name, value) => {
                put_attr(alloc, cells, *element, *place, *name, value)
            }
        }
    }
}
