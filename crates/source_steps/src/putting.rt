//! The changes of cells that put a subtree in.
ghost use Rattle.std.specs.Prelude.{◌≡◌, ◌+◌, ◌<◌, ◌≤◌, ◌++◌, ◌∷◌, [], Some, None, IfOk, OnOk, IsTrue, ◌↔◌, length, max};
ghost use Rattle.serna_kinds.specs.declared.cells.Facet.TheVariants as facet;
ghost use Rattle.serna_kinds.specs.declared.cells.Kind.TheVariants as kind;
ghost use Rattle.frozen_tree.specs.declared.kept.KeptValue.TheVariants as kept;
ghost use Rattle.source_primitives.specs.declared.primitive.SubItem.TheVariants.{Finish};
ghost use Rattle.source_steps.specs.CellChanges.{put};
ghost use Rattle.source_steps.specs.Putting.{PutsOne, PutsAll, number_in, greatest_among};

use crate::attributes::pairs_shared;
use crate::changes::push;
use frozen_tree::{CellChange, KeptValue, SharedItems};
use serna_kinds::{AttrPair, Chars, Facet, Items, Kind, NameId, NoMemory, NodeName};
use source_primitives::SubItem;
use std::alloc::Global;

/// The numbers of neighbours that were put in, and the place of the first item behind them.
#[derive(Drop)]
pub(crate) struct Put {
    pub(crate) kids: Vec<NodeName>,
    pub(crate) to: usize,
}

/// Puts in the neighbours whose items begin at `at`, below the node `up`.
#[cycle(putting)]
pub(crate) fn put_all(
    alloc: Global,
    items: &[SubItem],
    at: usize,
    up: NodeName,
    changes: &mut Items<CellChange>,
) -> Result<Put, NoMemory>
    requires { at ≤ length items.now }
    ensures all { IfOk result (λ r. PutsAll items.now up at changes.old r.to changes.new r.kids.items) }
    ensures further { IfOk result (λ r. (at ≤ r.to) × (r.to ≤ length items.now)) }
{
    let mut kids = Vec::new(alloc);
    let mut to = at;
    'neighbours: while to < items.len() {
        if is_finish(&items[to]) {
            break;
        }
        to = put_one(alloc, items, to, up, changes, &mut kids)?;
    }
    Ok(Put { kids, to })
}

fn is_finish(item: &SubItem) -> bool
    ensures { IsTrue result ↔ (item.now ≡ Finish) }
{
    match item {
        SubItem::Finish => true,
        SubItem::Begin(_, _, _) => false,
        SubItem::Text(_, _) => false,
        SubItem::Comment(_, _) => false,
    }
}

/// Puts in the node whose item stands at `at`, with all below it, and adds its number. Gives the place of its next neighbour.
#[cycle(putting)]
fn put_one(
    alloc: Global,
    items: &[SubItem],
    at: usize,
    up: NodeName,
    changes: &mut Items<CellChange>,
    kids: &mut Vec<NodeName>,
) -> Result<usize, NoMemory>
    requires { at < length items.now }
    ensures puts { IfOk result (λ to. PutsOne items.now up at changes.old kids.old.items to changes.new kids.new.items) }
    ensures further { IfOk result (λ to. (at < to) × (to ≤ length items.now)) }
{
    match &items[at] {
        SubItem::Begin(node, name, pairs) => {
            put_beginning(alloc, *node, *name, pairs.as_slice(), up, changes)?;
            let below = put_all(alloc, items, at + 1, *node, changes)?;
            let Put { kids: inner, to } = below;
            put_children(*node, inner, changes)?;
            kids.push(*node)?;
            Ok(behind(to, items.len()))
        }
        SubItem::Text(node, text) => {
            put_leaf(*node, Kind::Text, text, up, changes)?;
            kids.push(*node)?;
            Ok(at + 1)
        }
        SubItem::Comment(node, text) => {
            put_leaf(*node, Kind::Comment, text, up, changes)?;
            kids.push(*node)?;
            Ok(at + 1)
        }
        SubItem::Finish => Ok(at + 1),
    }
}

/// An element's cells but for its children.
fn put_beginning(
    alloc: Global,
    node: NodeName,
    name: NameId,
    pairs: &[AttrPair],
    up: NodeName,
    changes: &mut Items<CellChange>,
) -> Result<(), NoMemory>
    ensures { OnOk result (changes.new ≡ changes.old ++ put facet.Label node.0 (kept.Label kind.Element (Some name)) ∷ put facet.Up node.0 (kept.Up (Some up)) ∷ put facet.Attrs node.0 (kept.Attrs pairs.now) ∷ []) }
{
    push(
        changes,
        node,
        Facet::Label,
        KeptValue::Label(Kind::Element, Some(name)),
    )?;
    push(changes, node, Facet::Up, KeptValue::Up(Some(up)))?;
    let pairs = pairs_shared(alloc, pairs)?;
    push(changes, node, Facet::Attrs, KeptValue::Attrs(pairs))
}

/// An element's children.
pub(crate) fn put_children(
    node: NodeName,
    kids: Vec<NodeName>,
    changes: &mut Items<CellChange>,
) -> Result<(), NoMemory>
    ensures { OnOk result (changes.new ≡ changes.old ++ put facet.Kids node.0 (kept.Kids kids.items) ∷ []) }
{
    let kids = SharedItems::from_vec(kids)?;
    push(changes, node, Facet::Kids, KeptValue::Kids(kids))
}

/// The cells of a text or of a comment.
fn put_leaf(
    node: NodeName,
    kind: Kind,
    text: &Chars,
    up: NodeName,
    changes: &mut Items<CellChange>,
) -> Result<(), NoMemory>
    ensures { OnOk result (changes.new ≡ changes.old ++ put facet.Label node.0 (kept.Label kind None) ∷ put facet.Up node.0 (kept.Up (Some up)) ∷ put facet.Text node.0 (kept.Text text.now) ∷ []) }
{
    push(changes, node, Facet::Label, KeptValue::Label(kind, None))?;
    push(changes, node, Facet::Up, KeptValue::Up(Some(up)))?;
    push(changes, node, Facet::Text, KeptValue::Text(text.copy()?))
}

/// The greatest of the numbers of items, 0 where there are none.
pub(crate) fn greatest_in(items: &[SubItem]) -> u32
    ensures { result ≡ greatest_among items.now }
{
    let mut greatest = 0;
    'items: for item in items {
        greatest = greater(greatest, number_of(item));
    }
    greatest
}

/// The number of the node of an item, 0 where it ends one.
fn number_of(item: &SubItem) -> u32
    ensures { result ≡ number_in item.now }
{
    match item {
        SubItem::Begin(node, _, _) => node.0,
        SubItem::Text(node, _) => node.0,
        SubItem::Comment(node, _) => node.0,
        SubItem::Finish => 0,
    }
}

pub(crate) fn greater(one: u32, other: u32) -> u32
    ensures { result ≡ max one other }
{
    if one < other { other } else { one }
}

/// The place behind an element's end at `to`, where there is one.
fn behind(to: usize, len: usize) -> usize
    ensures next { to < len → result ≡ to + 1 }
    ensures within { to ≤ len → (to ≤ result) × (result ≤ len) }
{
    if to < len { to + 1 } else { to }
}
