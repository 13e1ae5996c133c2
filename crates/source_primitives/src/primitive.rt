use serna_kinds::{AttrPair, Chars, Items, NameId, NodeName};

/// A place in the source at which a caret can stand. It is in a text node, so many bytes from its start, or in an
/// element that has no text at its start.
#[derive(Clone, Copy, Debug, PartialEq, Eq)]
pub enum CaretPlace {
    Text(NodeName, usize),
    Into(NodeName),
}

/// A caret: its place, and at which of the places on the pages that show this place it stands, from 1.
#[derive(Clone, Copy, Debug, PartialEq, Eq)]
pub struct Caret {
    pub place: CaretPlace,
    pub occurrence: usize,
}

/// One step through a subtree in document order: an element begins (its number, its name and its attributes), a text,
/// a comment, or the innermost element ends.
#[derive(Debug, Drop)]
pub enum SubItem {
    Begin(NodeName, NameId, Items<AttrPair>),
    Text(NodeName, Chars),
    Comment(NodeName, Chars),
    Finish,
}

/// The smallest change of a source.
#[derive(Debug, Drop)]
pub enum Primitive {
    /// Characters are put into a text node, so many bytes from its start.
    InsertText(NodeName, usize, Chars),
    /// The bytes of a text node from one place to another are taken out.
    RemoveText(NodeName, usize, usize),
    /// A subtree is put among the children of a node, so many children before it.
    InsertChild(NodeName, usize, Items<SubItem>),
    /// A child of a node is taken out with all below it, so many children before it.
    RemoveChild(NodeName, usize),
    /// An attribute of an element gets a value. A name that the element does not have yet goes behind its last attribute.
    SetAttr(NodeName, NameId, Chars),
    /// An attribute of an element is taken out.
    RemoveAttr(NodeName, NameId),
    /// A new attribute is put among those of an element, so many attributes before it. It is what takes `RemoveAttr` back.
    PutAttr(NodeName, usize, NameId, Chars),
}

/// The prim that takes a prim back.
pub type Undoing = Primitive;

/// An element whose first child is a text since a change, and that text.
#[derive(Clone, Copy, Debug, PartialEq, Eq)]
pub struct Begun {
    pub element: NodeName,
    pub text: NodeName,
}

/// How a change moves places: its primitives, one after another, and, of the elements whose children they change, those that
/// begin with a text in what the whole change leaves. A place inside such an element is then the start of that text.
#[derive(Debug, Drop)]
pub struct Moves {
    pub prims: Items<Primitive>,
    pub begun: Items<Begun>,
}
