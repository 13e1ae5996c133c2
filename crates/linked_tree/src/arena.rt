//! The arena, its nodes and their lists of children.

ghost use Rattle.std.specs.Prelude.{◌≡◌, ℕ, ◌+◌, ◌<◌, ◌≤◌, ◌++◌, ◌∷◌, [], length, Option, Some, None, IsSome, IfSome, IfOk, OnOk, OnErr, insert, slice_get, ◌^◌};
ghost use Rattle.std.specs.Option.{ForSome};
ghost use Rattle.index_lists.specs.Lists.{without, first_of, place_after};
ghost use Rattle.linked_tree.specs.Forest.{alone, count, parent_of, kids_of, IsApart, IsForest, IsSameBut, insert_behind, last_of};

use crate::kids::Kids;
use crate::links::{Links, Nodes};
use std::alloc::{AllocError, Global};
use std::marker::Model;

/// Memory was refused.
pub type NoMemory = std::alloc::AllocError;

/// How many nodes an arena can have.
pub const NODES: usize = u32::MAX as usize;

/// Nodes, each with its parent and its children in their order.
///
/// Clauses see it as the list of its nodes by their numbers, and mostly through `parent_of` and `kids_of`.
/// What a node's number is asked for was made before.
#[derive(Drop)]
pub struct Arena {
    nodes: Nodes,
}

impl Model for Arena {
    ghost use Rattle.std.specs.Prelude.{List};
    ghost use Rattle.linked_tree.specs.Forest.{Node};

    ghost Value = { List Node };

    ghost use Rattle.linked_tree.specs.Links.{forest_of, IsSound};

    ghost view = { λ a. forest_of a.nodes };

    ghost invariant = { λ a. IsSound a.nodes };
}

impl Arena {
    /// No node. It takes no memory.
    pub fn new(alloc: Global) -> Arena
        ensures empty { result ≡ [] }
        ensures forest { IsForest result }
    {
        Arena {
            nodes: Nodes {
                links: Vec::new(alloc),
            },
        }
    }

    /// How many nodes were made.
    pub fn count(&self) -> u32
        ensures count { result ≡ count self.now }
        ensures forest { IsForest self.now }
    {
        self.nodes.links.len() as u32
    }

    /// Makes a node without parent and children, and answers its number, which is that of the nodes made
    /// before.
    ///
    /// # Errors
    ///
    /// `NoMemory` where memory was refused. The arena is as before.
    pub fn make(&mut self) -> Result<u32, NoMemory>
        requires { count self.old < NODES }
        ensures node { IfOk result (λ node. node ≡ count self.old) }
        ensures made { OnOk result (self.new ≡ self.old ++ alone ∷ []) }
        ensures err { OnErr result (self.new ≡ self.old) }
        ensures forest { IsForest self.new }
    {
        let node = self.nodes.links.len() as u32;
        self.nodes.links.push(Links::none())?;
        Ok(node)
    }

    /// The same arena once more.
    ///
    /// # Errors
    ///
    /// `NoMemory` where memory was refused.
    pub fn copy(&self, alloc: Global) -> Result<Arena, NoMemory>
        ensures same { IfOk result (λ copy. copy ≡ self.now) }
        ensures forest { IsForest self.now }
    {
        let links = Vec::from_slice(alloc, self.nodes.links.as_slice())?;
        Ok(Arena {
            nodes: Nodes { links },
        })
    }

    /// The parent of a node; `None` for a root.
    pub fn parent(&self, node: u32) -> Option<u32>
        requires { node < count self.now }
        ensures parent { result ≡ parent_of self.now node }
        ensures made { IfSome result (λ parent. parent < count self.now) }
        ensures forest { IsForest self.now }
    {
        self.nodes.links[node as usize].parent.node()
    }

    /// The first child of a node; `None` where it has no children.
    pub fn first(&self, node: u32) -> Option<u32>
        requires { node < count self.now }
        ensures first { result ≡ first_of (kids_of self.now node) }
        ensures parent { IfSome result (λ kid. parent_of self.now kid ≡ Some node) }
        ensures made { IfSome result (λ kid. kid < count self.now) }
        ensures forest { IsForest self.now }
    {
        self.nodes.links[node as usize].first.node()
    }

    /// The last child of a node; `None` where it has no children.
    pub fn last(&self, node: u32) -> Option<u32>
        requires { node < count self.now }
        ensures last { result ≡ last_of (kids_of self.now node) }
        ensures parent { IfSome result (λ kid. parent_of self.now kid ≡ Some node) }
        ensures made { IfSome result (λ kid. kid < count self.now) }
        ensures forest { IsForest self.now }
    {
        self.nodes.links[node as usize].last.node()
    }

    /// The sibling behind a child; `None` where it stands last.
    pub fn next(&self, kid: u32) -> Option<u32>
        requires { IsSome (parent_of self.now kid) }
        ensures next { IfSome (parent_of self.now kid) (λ parent. result ≡ place_after kid (kids_of self.now parent)) }
        ensures parent { IfSome result (λ next. parent_of self.now next ≡ parent_of self.now kid) }
        ensures made { IfSome result (λ next. next < count self.now) }
        ensures forest { IsForest self.now }
    {
        self.nodes.links[kid as usize].next.node()
    }

    /// The children of a node, in their order.
    pub fn kids(&self, node: u32) -> Kids<'_>
        requires { node < count self.now }
        ensures kids { result ≡ kids_of self.now node }
        ensures few { length result < 2 ^ 32 }
        ensures forest { IsForest self.now }
    {
        Kids::from(self, self.first(node))
    }

    /// The child of a node at a place, counted from 0; `None` where there are no more children. It goes over
    /// the children before it.
    pub fn kid_at(&self, node: u32, place: u32) -> Option<u32>
        requires { node < count self.now }
        ensures kid { result ≡ slice_get (kids_of self.now node) place }
        ensures forest { IsForest self.now }
    {
        self.kids(node).nth(place as usize)
    }

    /// Puts a node without a parent among the children of another, at a place from 0 up to their number.
    /// It goes over the children before that place, and takes no memory.
    pub fn link_at(&mut self, parent: u32, place: u32, node: u32)
        requires parent { parent < count self.old }
        requires node { node < count self.old }
        requires free { parent_of self.old node ≡ None }
        requires apart { IsApart self.old node parent }
        requires place { place ≤ length (kids_of self.old parent) }

        ensures kids { kids_of self.new parent ≡ insert (kids_of self.old parent) place node }
        ensures parent { parent_of self.new node ≡ Some parent }
        ensures rest { IsSameBut self.old self.new parent node }
        ensures forest { IsForest self.new }
    {
        match place.checked_sub(1) {
            None => self.link_first(parent, node),
            Some(steps) => {
                let sibling = self.kid_at(parent, steps).unwrap();
                self.link_after(sibling, node);
            }
        }
    }

    /// Puts a node without a parent in front of the children of another. It takes constant time.
    pub fn link_first(&mut self, parent: u32, node: u32)
        requires parent { parent < count self.old }
        requires node { node < count self.old }
        requires free { parent_of self.old node ≡ None }
        requires apart { IsApart self.old node parent }

        ensures kids { kids_of self.new parent ≡ node ∷ kids_of self.old parent }
        ensures parent { parent_of self.new node ≡ Some parent }
        ensures rest { IsSameBut self.old self.new parent node }
        ensures forest { IsForest self.new }
    {
        self.link_behind(parent, None, node);
    }

    /// Puts a node without a parent behind the children of another. It takes constant time.
    pub fn link_last(&mut self, parent: u32, node: u32)
        requires parent { parent < count self.old }
        requires node { node < count self.old }
        requires free { parent_of self.old node ≡ None }
        requires apart { IsApart self.old node parent }

        ensures kids { kids_of self.new parent ≡ kids_of self.old parent ++ node ∷ [] }
        ensures parent { parent_of self.new node ≡ Some parent }
        ensures rest { IsSameBut self.old self.new parent node }
        ensures forest { IsForest self.new }
    {
        let last = self.last(parent);
        self.link_behind(parent, last, node);
    }

    /// Puts a node without a parent right behind a child, and answers the parent of both. It takes constant
    /// time.
    pub fn link_after(&mut self, sibling: u32, node: u32) -> u32
        requires sibling { IsSome (parent_of self.old sibling) }
        requires node { node < count self.old }
        requires free { parent_of self.old node ≡ None }
        requires apart { IsApart self.old node sibling }

        ensures found { parent_of self.old sibling ≡ Some result }
        ensures kids { kids_of self.new result ≡ insert_behind sibling node (kids_of self.old result) }
        ensures parent { parent_of self.new node ≡ Some result }
        ensures rest { IsSameBut self.old self.new result node }
        ensures forest { IsForest self.new }
    {
        let parent = self.parent(sibling).unwrap();
        self.link_behind(parent, Some(sibling), node);
        parent
    }

    ghost use Rattle.linked_tree.specs.Links.{behind};

    /// Puts a node without a parent among the children of another: right behind a child, or in front for
    /// none.
    fn link_behind(&mut self, parent: u32, before: Option<u32>, node: u32)
        requires parent { parent < count self.old }
        requires before { ForSome before (λ sibling. parent_of self.old sibling ≡ Some parent) }
        requires node { node < count self.old }
        requires free { parent_of self.old node ≡ None }
        requires apart { IsApart self.old node parent }

        ensures kids { kids_of self.new parent ≡ behind before node (kids_of self.old parent) }
        ensures parent { parent_of self.new node ≡ Some parent }
        ensures rest { IsSameBut self.old self.new parent node }
        ensures forest { IsForest self.new }
    {
        let after = self.nodes.after(parent, before);
        self.nodes.join(parent, before, Some(node));
        self.nodes.join(parent, Some(node), after);
        self.nodes.set_parent(node, Some(parent));
    }

    /// Takes a child, with all below it, out of the children of its parent, and answers that parent. It takes
    /// constant time and no memory.
    pub fn unlink(&mut self, kid: u32) -> u32
        requires { IsSome (parent_of self.old kid) }

        ensures found { parent_of self.old kid ≡ Some result }
        ensures kids { kids_of self.new result ≡ without kid (kids_of self.old result) }
        ensures parent { parent_of self.new kid ≡ None }
        ensures rest { IsSameBut self.old self.new result kid }
        ensures forest { IsForest self.new }
    {
        let links = self.nodes.links[kid as usize];
        let parent = links.parent.node().unwrap();
        self.nodes
            .join(parent, links.previous.node(), links.next.node());
        self.nodes.set_parent(kid, None);
        parent
    }
}
