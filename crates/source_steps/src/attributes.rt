//! The steps that change the attributes of an element.
ghost use Rattle.std.specs.Prelude.{◌≡◌, ◌∷◌, ◌++◌, [], ◌+◌, ◌<◌, ◌≤◌, take, drop, IfOk, OnOk, Some, None, length, insert, unwrap_or, option_copied};
ghost use Rattle.serna_kinds.specs.declared.cells.Facet.TheVariants as facet;
ghost use Rattle.source_model.specs.Attributes.{pair_of, value_among, place_among, with_value, without_name};
ghost use Rattle.frozen_tree.specs.Frozen.{cells_of};
ghost use Rattle.frozen_tree.specs.declared.kept.KeptValue.TheVariants as kept;
ghost use Rattle.source_primitives.specs.Primitives.{old_value};
ghost use Rattle.source_primitives.specs.declared.primitive.Primitive.TheVariants.{RemoveAttr, PutAttr};
ghost use Rattle.source_steps.specs.CellChanges.{put};
ghost use Rattle.source_steps.specs.Steps.{pairs_in};

use crate::Step;
use crate::changes::one_change;
use crate::read::pairs_in;
use frozen_tree::{Frozen, KeptValue, SharedItems};
use serna_kinds::{AttrPair, Chars, Facet, Items, NameId, NoMemory, NodeName};
use source_primitives::Primitive;
use sqlite_items::at;
use std::alloc::Global;

/// The place of the attribute of a name; behind the last one where there is none.
fn place_of(pairs: &[AttrPair], name: NameId) -> usize
    ensures place { result ≡ place_among name pairs.now }
    ensures within { result ≤ length pairs.now }
{
    'pairs: for (place, pair) in pairs.iter().enumerate() {
        if pair.name.0 == name.0 {
            return place;
        }
    }
    pairs.len()
}

/// Adds attributes behind others, with their values shared.
fn add_pairs(all: &mut Vec<AttrPair>, pairs: &[AttrPair]) -> Result<(), NoMemory>
    ensures { OnOk result (all.new.items ≡ all.old.items ++ pairs.now) }
{
    for pair in pairs {
        all.push(AttrPair {
            name: pair.name,
            value: pair.value.copy()?,
        })?;
    }
    Ok(())
}

/// The attributes in a list of their own, with their values shared. `Err` comes where there is no memory.
pub fn copied_pairs(alloc: Global, pairs: &[AttrPair]) -> Result<Items<AttrPair>, NoMemory>
    ensures { IfOk result (λ copy. copy ≡ pairs.now) }
{
    let mut all = Vec::new(alloc);
    add_pairs(&mut all, pairs)?;
    Ok(Items::from_vec(all))
}

/// Attributes that copies share.
pub(crate) fn pairs_shared(
    alloc: Global,
    pairs: &[AttrPair],
) -> Result<SharedItems<AttrPair>, NoMemory>
    ensures { IfOk result (λ shared. shared ≡ pairs.now) }
{
    let mut all = Vec::new(alloc);
    add_pairs(&mut all, pairs)?;
    SharedItems::from_vec(all)
}

/// Those of some attributes before a place, one more, and those from another place on.
fn pairs_with(
    alloc: Global,
    pairs: &[AttrPair],
    place: usize,
    name: NameId,
    value: &Chars,
    behind: usize,
) -> Result<SharedItems<AttrPair>, NoMemory>
    requires place { place ≤ length pairs.now }
    requires behind { behind ≤ length pairs.now }
    ensures { IfOk result (λ left. left ≡ take place pairs.now ++ pair_of name value.now ∷ drop behind pairs.now) }
{
    let mut all = Vec::new(alloc);
    add_pairs(&mut all, &pairs[..place])?;
    all.push(AttrPair {
        name,
        value: value.copy()?,
    })?;
    add_pairs(&mut all, &pairs[behind..])?;
    SharedItems::from_vec(all)
}

/// Attributes without the one at a place.
fn pairs_without(
    alloc: Global,
    pairs: &[AttrPair],
    place: usize,
) -> Result<SharedItems<AttrPair>, NoMemory>
    requires { place < length pairs.now }
    ensures { IfOk result (λ left. left ≡ take place pairs.now ++ drop (place + 1) pairs.now) }
{
    let mut all = Vec::new(alloc);
    add_pairs(&mut all, &pairs[..place])?;
    add_pairs(&mut all, &pairs[place + 1..])?;
    SharedItems::from_vec(all)
}

/// Attributes with a value for a name: in place of the old one, or behind the last attribute.
fn pairs_set(
    alloc: Global,
    pairs: &[AttrPair],
    name: NameId,
    value: &Chars,
) -> Result<SharedItems<AttrPair>, NoMemory>
    ensures { IfOk result (λ left. left ≡ with_value name value.now pairs.now) }
{
    let place = place_of(pairs, name);
    if place < pairs.len() {
        pairs_with(alloc, pairs, place, name, value, place + 1)
    } else {
        pairs_with(alloc, pairs, place, name, value, place)
    }
}

/// Attributes without the one of a name.
fn pairs_unset(
    alloc: Global,
    pairs: &[AttrPair],
    name: NameId,
) -> Result<SharedItems<AttrPair>, NoMemory>
    ensures { IfOk result (λ left. left ≡ without_name name pairs.now) }
{
    let place = place_of(pairs, name);
    if place < pairs.len() {
        pairs_without(alloc, pairs, place)
    } else {
        pairs_shared(alloc, pairs)
    }
}

/// The value of the attribute of a name.
fn value_of(pairs: &[AttrPair], name: NameId) -> Option<&Chars>
    ensures { option_copied result ≡ value_among name pairs.now }
{
    match at(pairs, place_of(pairs, name)) {
        Some(pair) => Some(&pair.value),
        None => None,
    }
}

/// The primitive that gives an attribute its old value again, or takes it out where there was none.
fn old_value(pairs: &[AttrPair], element: NodeName, name: NameId) -> Result<Primitive, NoMemory>
    ensures { IfOk result (λ undoing. undoing ≡ old_value element name (value_among name pairs.now)) }
{
    match value_of(pairs, name) {
        Some(old) => Ok(Primitive::SetAttr(element, name, old.copy()?)),
        None => Ok(Primitive::RemoveAttr(element, name)),
    }
}

/// The value of the attribute of a name, in a text of its own; no characters where there is none.
fn value_or_empty(alloc: Global, pairs: &[AttrPair], name: NameId) -> Result<Chars, NoMemory>
    ensures { IfOk result (λ value. value ≡ unwrap_or (value_among name pairs.now) []) }
{
    match value_of(pairs, name) {
        Some(old) => old.copy(),
        None => Chars::new(alloc),
    }
}

/// An attribute of an element gets a value.
pub(crate) fn set_attr(
    alloc: Global,
    cells: &Frozen,
    element: NodeName,
    name: NameId,
    value: &Chars,
) -> Result<Step, NoMemory>
    ensures changes { IfOk result (λ step. step.changes ≡ put facet.Attrs element.0 (kept.Attrs (with_value name value.now (pairs_in (cells_of cells.now) element))) ∷ []) }
    ensures undoing { IfOk result (λ step. step.undoing ≡ old_value element name (value_among name (pairs_in (cells_of cells.now) element))) }
    ensures made { IfOk result (λ step. step.made ≡ 0) }
{
    let pairs = pairs_in(cells, element);
    let left = pairs_set(alloc, pairs, name, value)?;
    Ok(Step {
        changes: one_change(alloc, element, Facet::Attrs, KeptValue::Attrs(left))?,
        undoing: old_value(pairs, element, name)?,
        made: 0,
    })
}

/// An attribute of an element is taken out.
pub(crate) fn remove_attr(
    alloc: Global,
    cells: &Frozen,
    element: NodeName,
    name: NameId,
) -> Result<Step, NoMemory>
    ensures changes { IfOk result (λ step. step.changes ≡ put facet.Attrs element.0 (kept.Attrs (without_name name (pairs_in (cells_of cells.now) element))) ∷ []) }
    ensures undoing { IfOk result (λ step. step.undoing ≡ PutAttr element (place_among name (pairs_in (cells_of cells.now) element)) name (unwrap_or (value_among name (pairs_in (cells_of cells.now) element)) [])) }
    ensures made { IfOk result (λ step. step.made ≡ 0) }
{
    let pairs = pairs_in(cells, element);
    let left = pairs_unset(alloc, pairs, name)?;
    let value = value_or_empty(alloc, pairs, name)?;
    Ok(Step {
        changes: one_change(alloc, element, Facet::Attrs, KeptValue::Attrs(left))?,
        undoing: Primitive::PutAttr(element, place_of(pairs, name), name, value),
        made: 0,
    })
}

/// A new attribute is put among those of an element.
pub(crate) fn put_attr(
    alloc: Global,
    cells: &Frozen,
    element: NodeName,
    place: usize,
    name: NameId,
    value: &Chars,
) -> Result<Step, NoMemory>
    requires { place ≤ length (pairs_in (cells_of cells.now) element) }
    ensures changes { IfOk result (λ step. step.changes ≡ put facet.Attrs element.0 (kept.Attrs (insert (pairs_in (cells_of cells.now) element) place (pair_of name value.now))) ∷ []) }
    ensures undoing { IfOk result (λ step. step.undoing ≡ RemoveAttr element name) }
    ensures made { IfOk result (λ step. step.made ≡ 0) }
{
    let pairs = pairs_in(cells, element);
    let left = pairs_with(alloc, pairs, place, name, value, place)?;
    Ok(Step {
        changes: one_change(alloc, element, Facet::Attrs, KeptValue::Attrs(left))?,
        undoing: Primitive::RemoveAttr(element, name),
        made: 0,
    })
}
