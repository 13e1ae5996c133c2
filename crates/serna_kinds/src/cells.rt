ghost use Rattle.std.specs.Prelude.{◌≡◌};
ghost use Rattle.std.specs.Option.{option_map};

use crate::Chars;

/// The number of a node. The document node has 0; the others count from 1, and no number is given twice.
#[derive(Clone, Copy, Debug, PartialEq, Eq, PartialOrd, Ord, Hash)]
pub struct NodeName(pub u32);

/// The number under which a `NameTable` keeps a name.
#[derive(Clone, Copy, Debug, PartialEq, Eq, PartialOrd, Ord, Hash)]
pub struct NameId(pub u64);

/// What a node is (XPath 1.0, section 5).
#[derive(Clone, Copy, Debug, PartialEq, Eq, Hash)]
pub enum Kind {
    Root,
    Element,
    Text,
    Comment,
}

/// A node of the tree, or an attribute by its element and its name.
#[derive(Clone, Copy, Debug, PartialEq, Eq, Hash)]
pub enum NodeRef {
    Node(NodeName),
    Attr(NodeName, NameId),
}

/// What can be asked of a node.
#[derive(Clone, Copy, Debug, PartialEq, Eq, Hash)]
pub enum Facet {
    Label,
    Kids,
    Up,
    Attrs,
    Text,
}

/// One question to a source: a facet of a node.
#[derive(Clone, Copy, Debug, PartialEq, Eq, Hash)]
pub struct Cell {
    pub node: NodeName,
    pub facet: Facet,
}

/// An attribute: its name and its value.
#[derive(Debug, Drop)]
pub struct AttrPair {
    pub name: NameId,
    pub value: Chars,
}

/// The answer to a question: a node's kind with an element's name, its children, its parent, an element's
/// attributes in their order, or the content of a text or comment.
#[derive(Clone, Copy, Debug)]
pub enum CellValue<'a> {
    Label(Kind, Option<NameId>),
    Kids(&'a [NodeName]),
    Up(Option<NodeName>),
    Attrs(&'a [AttrPair]),
    Text(&'a str),
}

/// Something that answers questions to a source.
///
/// Each linked node has `Label` and `Up`; the document node and an element have `Kids`, an element has
/// `Attrs`, a text or comment has `Text`. Other cells have no value.
pub trait SourceView {
    ghost use Rattle.std.specs.Prelude.{Option};
    ghost use Rattle.serna_kinds.specs.declared.cells.Cell.{Cell};
    ghost use Rattle.serna_kinds.specs.Content.{Content, content_of};

    ghost cells: { Self → Cell → Option Content };

    /// The value of a cell, None exactly where the view has no such cell. Takes no memory.
    fn read(&self, cell: Cell) -> Option<CellValue<'_>>
        ensures { option_map content_of result ≡ cells self.now cell };
}
