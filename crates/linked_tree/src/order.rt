//! Paths and document order, each found on the way up.

ghost use Rattle.std.specs.Prelude.{◌≡◌, ◌≢◌, ℕ, ◌+◌, ◌<◌, ◌↔◌, Some, None, IsTrue, IsSome, IfOk, IsSomeAnd, slice_get, ◌==◌, ◌^◌};
ghost use Rattle.std.specs.List.{list_any};
ghost use Rattle.std.specs.Option.{ForSome};
ghost use Rattle.linked_tree.specs.Forest.{count, parent_of, kids_of, kids_from, above, IsForest};
ghost use Rattle.linked_tree.specs.Paths.{IsPath, IsBefore};
ghost use Rattle.linked_tree.specs.Ways.{IsDepth, IsParting, IsEarlier};

use crate::arena::{Arena, NoMemory};
use crate::kids::Kids;
use sqlite_items::Items;
use std::alloc::Global;

impl Arena {
    /// The path of a node: at which place among its siblings each node stands, on the way down from the root
    /// to it. The root's path is empty. It costs the levels, and the siblings before each.
    ///
    /// # Errors
    ///
    /// `NoMemory` where memory was refused.
    pub fn path(&self, alloc: Global, node: u32) -> Result<Items<u32>, NoMemory>
        requires { node < count self.now }
        ensures path { IfOk result (λ path. (root : ℕ) × IsPath self.now root path node) }
        ensures forest { IsForest self.now }
    {
        let mut places = Vec::new(alloc);
        let mut at = node;
        while let Some(parent) = self.parent(at) {
            places.push(self.place(parent, at))?;
            at = parent;
        }
        places.reverse();
        Ok(Items::from_vec(places))
    }

    /// At which place a node stands among the children of its parent.
    fn place(&self, parent: u32, kid: u32) -> u32
        requires made { parent < count self.now }
        requires parent { parent_of self.now kid ≡ Some parent }
        ensures { slice_get (kids_of self.now parent) result ≡ Some kid }
    {
        self.position(parent, kid).unwrap() as u32
    }

    /// At which place a node stands first among the children of another.
    fn position(&self, parent: u32, kid: u32) -> Option<usize>
        requires made { parent < count self.now }
        requires parent { parent_of self.now kid ≡ Some parent }
        ensures { IsSomeAnd result (λ place. (place < 2 ^ 32) × (slice_get (kids_of self.now parent) place ≡ Some kid)) }
    {
        self.kids(parent).position(|other| other == kid)
    }

    /// Whether two nodes stand under one root, and `a` before `b` in document order. It costs the levels
    /// above both and the siblings where their ways up part.
    pub fn before(&self, a: u32, b: u32) -> bool
        requires a { a < count self.now }
        requires b { b < count self.now }
        ensures before { IsTrue result ↔ IsBefore self.now a b }
        ensures forest { IsForest self.now }
    {
        let (depth_a, depth_b) = (self.depth(a), self.depth(b));
        let depth = depth_a.min(depth_b);
        let x = self.ancestor(a, depth_a - depth);
        let y = self.ancestor(b, depth_b - depth);
        if x == y {
            return depth_a < depth_b;
        }
        let (x, y) = self.parting(x, y, depth);
        self.is_earlier(x, y)
    }

    /// How many levels there are above a node.
    fn depth(&self, node: u32) -> u32
        requires { node < count self.now }
        ensures above { IsDepth self.now node result }
        ensures forest { IsForest self.now }
    {
        let mut depth = 0;
        let mut at = node;
        while let Some(parent) = self.parent(at) {
            depth += 1;
            at = parent;
        }
        depth
    }

    /// The node so many levels above a node.
    fn ancestor(&self, node: u32, levels: u32) -> u32
        requires made { node < count self.now }
        requires high { IsSome (above self.now levels node) }
        ensures above { above self.now levels node ≡ Some result }
        ensures made { result < count self.now }
    {
        let mut at = node;
        for _level in 0..levels {
            at = self.parent(at).unwrap();
        }
        at
    }

    /// On the ways up from two nodes of one depth, the first two nodes that have one parent, or the roots.
    fn parting(&self, a: u32, b: u32, depth: u32) -> (u32, u32)
        requires depth_a { IsDepth self.now a depth }
        requires depth_b { IsDepth self.now b depth }
        requires made_a { a < count self.now }
        requires made_b { b < count self.now }
        requires apart { a ≢ b }
        ensures parting { IsParting self.now a b result.0 result.1 }
        ensures made { result.0 < count self.now }
    {
        let (mut x, mut y) = (a, b);
        for _level in 0..depth {
            let over_x = self.parent(x).unwrap();
            let over_y = self.parent(y).unwrap();
            if over_x == over_y {
                return (x, y);
            }
            x = over_x;
            y = over_y;
        }
        (x, y)
    }

    /// Whether a node has a parent, and another stands behind it among its siblings.
    fn is_earlier(&self, x: u32, y: u32) -> bool
        requires made { x < count self.now }
        requires apart { x ≢ y }
        requires parents { parent_of self.now x ≡ parent_of self.now y }
        ensures { IsTrue result ↔ IsEarlier self.now x y }
    {
        self.parent(x).is_some() && self.is_behind(x, y)
    }

    /// Whether a node is a child, or stands behind it among its siblings.
    fn is_behind(&self, kid: u32, other: u32) -> bool
        requires { IsSome (parent_of self.now kid) }
        ensures { result ≡ list_any (λ x. x == other) (kids_from self.now (Some kid)) }
    {
        Kids::from(self, Some(kid)).any(|x| x == other)
    }
}
