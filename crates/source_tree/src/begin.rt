//! The source that a tree begins.
ghost use Rattle.std.specs.Prelude.{◌≡◌, ◌+◌, ◌-◌, ◌^◌, ◌<◌, ◌∷◌, ◌++◌, [], IfOk, OnOk, length};
ghost use Rattle.tree_lines.specs.Given.{Given, items_of};
ghost use Rattle.source_tree.specs.Begun.{numbering, nodes_in};

use crate::SourceTree;
use frozen_tree::Frozen;
use serna_kinds::{Items, NoMemory, NodeName};
use source_primitives::SubItem;
use source_steps::{copied_pairs, whole_document};
use std::alloc::{AllocError, Global};
use std::sync::Arc;
use tree_lines::{Tree, TreeItem};

impl SourceTree {
    ghost use Rattle.std.specs.Prelude.{List};
    ghost use Rattle.serna_kinds.specs.Names.{NameParts};
    ghost use Rattle.tree_lines.specs.Tokens.{AreNamed};
    ghost use Rattle.source_model.specs.Proper.{IsProper};
    ghost use Rattle.source_tree.specs.Begun.{begun};

    /// The source of a document that was read, with what it declares. Its nodes are numbered from 1 in document order. No change
    /// was taken on yet.
    pub fn begin(alloc: Global, tree: &Tree) -> Result<SourceTree, AllocError>
        ensures source { IfOk result (λ s. (given : Given) → tree.now.items ≡ items_of given → s.source ≡ begun tree.now.spaces given) }
        ensures proper { IfOk result (λ s. (names : List NameParts) → AreNamed names tree.now.items → IsProper names s.source) }
        ensures taken { IfOk result (λ s. s.taken ≡ 0) }
    {
        let numbered = numbered(alloc, tree.items())?;
        let Numbering { items, made } = numbered;
        let changes = whole_document(alloc, items.as_slice())?;
        let cells = Frozen::new().with_cells(alloc, changes.as_slice())?;
        let spaces = Arc::new(alloc, tree.spaces().copy(alloc)?)?;
        Ok(SourceTree {
            cells,
            made,
            taken: 0,
            spaces,
        })
    }
}

/// The items of a tree with the numbers of their nodes, and how many nodes there are.
#[derive(Drop)]
struct Numbering {
    items: Items<SubItem>,
    made: u32,
}

/// Numbers the nodes of a tree from 1 in document order.
fn numbered(alloc: Global, items: &[TreeItem]) -> Result<Numbering, NoMemory>
    requires { length items.now < 2 ^ 32 - 1 }
    ensures items { IfOk result (λ numbered. numbered.items ≡ numbering 1 items.now) }
    ensures made { IfOk result (λ numbered. numbered.made ≡ nodes_in items.now) }
{
    let mut numbered = Numbering {
        items: Items::new(alloc),
        made: 0,
    };
    for item in items {
        numbered.add(alloc, item)?;
    }
    Ok(numbered)
}

impl Numbering {
    /// Adds an item, its node under the next number.
    fn add(&mut self, alloc: Global, item: &TreeItem) -> Result<(), NoMemory>
        requires { self.old.made < 2 ^ 32 - 1 }
        ensures items { OnOk result (self.new.items ≡ self.old.items ++ numbering (self.old.made + 1) (item.now ∷ [])) }
        ensures made { OnOk result (self.new.made ≡ self.old.made + nodes_in (item.now ∷ [])) }
    {
        let number = NodeName(self.made + 1);
        match item {
            TreeItem::Begin(name, pairs, _) => {
                let pairs = copied_pairs(alloc, pairs.as_slice())?;
                self.items.push(SubItem::Begin(number, *name, pairs))?;
                self.made += 1;
            }
            TreeItem::Text(text) => {
                self.items.push(SubItem::Text(number, text.copy()?))?;
                self.made += 1;
            }
            TreeItem::Comment(text) => {
                self.items.push(SubItem::Comment(number, text.copy()?))?;
                self.made += 1;
            }
            TreeItem::Finish => self.items.push(SubItem::Finish)?,
        }
        Ok(())
    }
}
