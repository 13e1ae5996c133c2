ghost use Rattle.std.specs.Prelude.{◌≡◌};
ghost use Rattle.source_primitives.specs.Places.{carried, carried_through, behind_removal, inside_since, moved, moved_through, IsNear};
ghost use Rattle.plain_editor.specs.Sound.{StaysNear, GoesNear};
ghost use Rattle.plain_editor.specs.Stops.{is_same_place, place_of};

use result_origin::Origin;
use serna_kinds::NodeName;
use source_primitives::{Begun, CaretPlace, Moves, Primitive};

/// The place of the source that an origin is, if it is one.
pub(crate) fn place_of(origin: Origin) -> Option<CaretPlace>
    ensures { result ≡ place_of origin }
{
    match origin {
        Origin::Text(node, at) => Some(CaretPlace::Text(node, at)),
        Origin::Attr(_, _, _) => None,
        Origin::Into(node) => Some(CaretPlace::Into(node)),
        Origin::Fixed(_) => None,
        Origin::Computed(_, _) => None,
    }
}

/// Whether two places are one.
pub(crate) fn is_same_place(a: CaretPlace, b: CaretPlace) -> bool
    ensures { result ≡ is_same_place a b }
{
    match (a, b) {
        (CaretPlace::Text(n, at), CaretPlace::Text(m, place)) => n == m && at == place,
        (CaretPlace::Into(n), CaretPlace::Into(m)) => n == m,
        (CaretPlace::Text(_, _), CaretPlace::Into(_)) => false,
        (CaretPlace::Into(_), CaretPlace::Text(_, _)) => false,
    }
}

/// Where a place is after some changes, one after another.
pub(crate) fn moved_through(since: &[Moves], place: CaretPlace) -> CaretPlace
    requires { GoesNear since.now place }
    ensures { result ≡ moved_through since.now place }
{
    let mut place = place;
    for moves in since {
        place = moved(moves, place);
    }
    place
}

/// Where a place is after a change: carried through its primitives, and then, inside an element that begins with a text since,
/// at the start of the text.
fn moved(moves: &Moves, place: CaretPlace) -> CaretPlace
    requires { StaysNear moves.now.prims place }
    ensures { result ≡ moved moves.now place }
{
    match carried_through(moves.prims.as_slice(), place) {
        CaretPlace::Text(node, at) => CaretPlace::Text(node, at),
        CaretPlace::Into(node) => inside_since(moves.begun.as_slice(), node),
    }
}

/// Where a place is after some prims, one after another.
fn carried_through(prims: &[Primitive], place: CaretPlace) -> CaretPlace
    requires { StaysNear prims.now place }
    ensures { result ≡ carried_through prims.now place }
{
    let mut place = place;
    for prim in prims {
        place = carried(prim, place);
    }
    place
}

/// The inside of an element, or the start of the text that it begins with since a change.
fn inside_since(begun: &[Begun], node: NodeName) -> CaretPlace
    ensures { result ≡ inside_since begun.now node }
{
    for one in begun {
        if node.0 == one.element.0 {
            return CaretPlace::Text(one.text, 0);
        }
    }
    CaretPlace::Into(node)
}

/// Where a place is after a prim: one in a text may move within it.
fn carried(prim: &Primitive, place: CaretPlace) -> CaretPlace
    requires { IsNear (carried prim.now place) }
    ensures { result ≡ carried prim.now place }
{
    match place {
        CaretPlace::Text(node, at) => CaretPlace::Text(node, carried_offset(prim, node, at)),
        CaretPlace::Into(node) => CaretPlace::Into(node),
    }
}

/// Where a place in a text node is in it after a prim.
fn carried_offset(prim: &Primitive, node: NodeName, at: usize) -> usize
    requires { IsNear (carried prim.now (CaretPlace.Text node at)) }
    ensures { CaretPlace.Text node result ≡ carried prim.now (CaretPlace.Text node at) }
{
    match prim {
        Primitive::InsertText(text, from, piece) => {
            if node.0 == text.0 && *from < at {
                at + piece.as_text().len()
            } else {
                at
            }
        }
        Primitive::RemoveText(text, from, to) => {
            if node.0 == text.0 {
                behind_removal(*from, *to, at)
            } else {
                at
            }
        }
        Primitive::InsertChild(_, _, _) => at,
        Primitive::RemoveChild(_, _) => at,
        Primitive::SetAttr(_, _, _) => at,
        Primitive::RemoveAttr(_, _) => at,
        Primitive::PutAttr(_, _, _, _) => at,
    }
}

/// Where a place in a text is after the bytes from one place to another were taken out.
fn behind_removal(from: usize, to: usize, at: usize) -> usize
    ensures { result ≡ behind_removal from to at }
{
    if to < at {
        at - to.saturating_sub(from)
    } else if from < at {
        from
    } else {
        at
    }
}
