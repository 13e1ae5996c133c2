//! The steps that change the characters of a text.
ghost use Rattle.std.specs.Prelude.{◌≡◌, ◌∷◌, [], ◌+◌, ◌^◌, ◌<◌, ◌≤◌, IfOk, length, encode_utf8_all};
ghost use Rattle.std.specs.Str.{chars};
ghost use Rattle.serna_kinds.specs.declared.cells.Facet.TheVariants as facet;
ghost use Rattle.serna_kinds.specs.Texts.{IsPlaceIn, inserted, removed};
ghost use Rattle.source_model.specs.Changes.{between};
ghost use Rattle.frozen_tree.specs.Frozen.{cells_of};
ghost use Rattle.frozen_tree.specs.declared.kept.KeptValue.TheVariants as kept;
ghost use Rattle.source_primitives.specs.declared.primitive.Primitive.TheVariants.{InsertText, RemoveText};
ghost use Rattle.source_steps.specs.CellChanges.{put};
ghost use Rattle.source_steps.specs.Steps.{text_in};

use crate::Step;
use crate::changes::one_change;
use crate::read::text_in;
use frozen_tree::{Frozen, KeptValue};
use serna_kinds::{Chars, Facet, NoMemory, NodeName};
use source_primitives::Primitive;
use std::alloc::Global;

/// Characters are put into a text.
pub(crate) fn insert_text(
    alloc: Global,
    cells: &Frozen,
    node: NodeName,
    place: usize,
    piece: &Chars,
) -> Result<Step, NoMemory>
    requires place { IsPlaceIn (text_in (cells_of cells.now) node) place }
    requires room { place + length (encode_utf8_all piece.now) < 2 ^ 64 }
    ensures changes { IfOk result (λ step. step.changes ≡ put facet.Text node.0 (kept.Text (inserted place piece.now (text_in (cells_of cells.now) node))) ∷ []) }
    ensures undoing { IfOk result (λ step. step.undoing ≡ RemoveText node place (place + length (encode_utf8_all piece.now))) }
    ensures made { IfOk result (λ step. step.made ≡ 0) }
{
    let mut text = Chars::from_text(alloc, text_in(cells, node))?;
    text.insert(alloc, place, piece)?;
    let end = place + piece.as_text().len();
    Ok(Step {
        changes: one_change(alloc, node, Facet::Text, KeptValue::Text(text))?,
        undoing: Primitive::RemoveText(node, place, end),
        made: 0,
    })
}

/// A text without what stands from one place to another.
fn without(alloc: Global, text: &str, from: usize, to: usize) -> Result<Chars, NoMemory>
    requires from { IsPlaceIn (chars text.now) from }
    requires to { IsPlaceIn (chars text.now) to }
    ensures { IfOk result (λ left. left ≡ removed from to (chars text.now)) }
{
    let mut left = String::from_str(alloc, &text[..from])?;
    left.push_str(&text[to..])?;
    Chars::from_string(left)
}

/// Characters are taken out of a text.
pub(crate) fn remove_text(
    alloc: Global,
    cells: &Frozen,
    node: NodeName,
    from: usize,
    to: usize,
) -> Result<Step, NoMemory>
    requires from { IsPlaceIn (text_in (cells_of cells.now) node) from }
    requires to { IsPlaceIn (text_in (cells_of cells.now) node) to }
    requires order { from ≤ to }
    ensures changes { IfOk result (λ step. step.changes ≡ put facet.Text node.0 (kept.Text (removed from to (text_in (cells_of cells.now) node))) ∷ []) }
    ensures undoing { IfOk result (λ step. step.undoing ≡ InsertText node from (between from to (text_in (cells_of cells.now) node))) }
    ensures made { IfOk result (λ step. step.made ≡ 0) }
{
    let text = text_in(cells, node);
    let piece = Chars::from_text(alloc, &text[from..to])?;
    let left = without(alloc, text, from, to)?;
    Ok(Step {
        changes: one_change(alloc, node, Facet::Text, KeptValue::Text(left))?,
        undoing: Primitive::InsertText(node, from, piece),
        made: 0,
    })
}
