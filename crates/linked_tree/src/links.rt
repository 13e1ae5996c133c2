//! The links of all nodes.

ghost use Rattle.std.specs.Prelude.{◌≡◌, ℕ, ◌<◌, ◌^◌};
ghost use Rattle.std.specs.Option.{ForSome};
ghost use Rattle.index_lists.specs.Rings.{spot, SetsAt};
ghost use Rattle.linked_tree.specs.Links.{no_links, node_count, after_in, before_in, parent_in, SetsParent};

use crate::link::Link;

/// How one node is linked: five links, 20 bytes.
#[derive(Clone, Copy)]
pub struct Links {
    pub parent: Link,
    /// The first and the last child; none where there are no children.
    pub first: Link,
    pub last: Link,
    /// The siblings before and behind the node; none at the ends of the list, and where there is no parent.
    pub previous: Link,
    pub next: Link,
}

impl Links {
    /// The links of a node that stands alone.
    pub fn none() -> Links
        ensures { result ≡ no_links }
    {
        Links {
            parent: Link::to(None),
            first: Link::to(None),
            last: Link::to(None),
            previous: Link::to(None),
            next: Link::to(None),
        }
    }
}

/// The links of each node, by its number.
#[derive(Drop)]
pub struct Nodes {
    pub links: Vec<Links>,
}

impl Nodes {
    /// What stands behind a child of `parent`, or first for none; none where nothing does.
    pub fn after(&self, parent: u32, before: Option<u32>) -> Option<u32>
        requires parent { parent < node_count self.now }
        requires before { ForSome before (λ node. node < node_count self.now) }
        ensures { result ≡ after_in self.now (spot parent before) }
    {
        match before {
            Some(node) => self.links[node as usize].next.node(),
            None => self.links[parent as usize].first.node(),
        }
    }

    /// Makes `before` and `after` neighbours among the children of `parent`, where none stands for the
    /// edge of the list.
    pub fn join(&mut self, parent: u32, before: Option<u32>, after: Option<u32>)
        requires few { node_count self.old < 2 ^ 32 }
        requires parent { parent < node_count self.old }
        requires before { ForSome before (λ node. node < node_count self.old) }
        requires after { ForSome after (λ node. node < node_count self.old) }

        ensures forward { SetsAt (after_in self.old) (after_in self.new) (spot parent before) after }
        ensures back { SetsAt (before_in self.old) (before_in self.new) (spot parent after) before }
        ensures parents { (node : ℕ) → parent_in self.new node ≡ parent_in self.old node }
        ensures count { node_count self.new ≡ node_count self.old }
    {
        match before {
            Some(node) => self.links[node as usize].next = Link::to(after),
            None => self.links[parent as usize].first = Link::to(after),
        }
        match after {
            Some(node) => self.links[node as usize].previous = Link::to(before),
            None => self.links[parent as usize].last = Link::to(before),
        }
    }

    /// Notes whose child a node is.
    pub fn set_parent(&mut self, node: u32, parent: Option<u32>)
        requires few { node_count self.old < 2 ^ 32 }
        requires node { node < node_count self.old }
        requires parent { ForSome parent (λ number. number < node_count self.old) }

        ensures { SetsParent self.old self.new node parent }
    {
        self.links[node as usize].parent = Link::to(parent);
    }
}
