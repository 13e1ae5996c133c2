use serna_kinds::{AttrPair, Chars, Items, NameId, Spaces};
use std::marker::Model;

/// A line of the input: its number, from 1 over the whole input, and its bytes without the LF.
#[derive(Debug, Drop)]
pub struct Line {
    pub number: u32,
    pub bytes: Items<u8>,
}

/// One step through a tree in document order: an element begins (its name, its attributes, the number of its line),
/// a text, a comment, or the innermost element ends.
#[derive(Debug, Drop)]
pub enum TreeItem {
    Begin(NameId, Items<AttrPair>, u32),
    Text(Chars),
    Comment(Chars),
    Finish,
}

/// A tree that was read: its items in document order, and the namespaces that its outermost element declares.
#[derive(Debug, Drop)]
pub struct Tree {
    items: Items<TreeItem>,
    spaces: Spaces,
}

impl Model for Tree {
    ghost use Rattle.tree_lines.specs.Whole.{ReadTree, IsTree};

    ghost Value = { ReadTree };

    ghost view = { λ t. record { items = t.items; spaces = t.spaces } };

    ghost invariant = { λ t. IsTree t.items };
}

impl Tree {
    ghost use Rattle.std.specs.Prelude.{◌≡◌};
    ghost use Rattle.tree_lines.specs.Whole.{IsTree};

    // The tree of these items.
    pub(crate) fn from_parts(items: Items<TreeItem>, spaces: Spaces) -> Tree
        requires { IsTree items }
        ensures { result ≡ record { items = items; spaces = spaces } }
    {
        Tree { items, spaces }
    }

    /// The items, those of one element with comments beside it, within the limits of a section.
    pub fn items(&self) -> &[TreeItem]
        ensures value { result.now ≡ self.now.items }
        ensures whole { IsTree self.now.items }
    {
        self.items.as_slice()
    }

    /// The namespaces that the outermost element declares, in the order of its lines.
    pub fn spaces(&self) -> &Spaces
        ensures { result.now ≡ self.now.spaces }
    {
        &self.spaces
    }
}
