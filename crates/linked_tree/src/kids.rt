//! The iterator over the children of a node.

ghost use Rattle.std.specs.Prelude.{◌≡◌, Some, IsSome};
ghost use Rattle.std.specs.Option.{ForSome};
ghost use Rattle.std.specs.Iterator.{YieldsFirstBy, item_count};
ghost use Rattle.linked_tree.specs.Forest.{parent_of, kids_from};

use crate::arena::Arena;
use std::marker::Model;

/// An iterator over children of a node, in their order, each in constant time. Clauses see it as the list of
/// the children that are still to come.
#[derive(Drop)]
pub struct Kids<'a> {
    arena: &'a Arena,
    /// The next child; `None` at the end.
    at: Option<u32>,
}

impl<'a> Model for Kids<'a> {
    ghost use Rattle.std.specs.Prelude.{ℕ, List};
    ghost use Rattle.linked_tree.specs.Forest.{kids_from, IsLinkedKid};

    ghost Value = { List ℕ };

    ghost view = { λ k. kids_from k.arena.now k.at };

    ghost invariant = { λ k. IsLinkedKid k.arena.now k.at };
}

impl<'a> Kids<'a> {
    /// The child `at` and its siblings behind it.
    pub(crate) fn from(arena: &'a Arena, at: Option<u32>) -> Kids<'a>
        requires { ForSome at (λ kid. IsSome (parent_of arena.now kid)) }
        ensures { result ≡ kids_from arena.now at }
    {
        Kids { arena, at }
    }
}

impl<'a> Iterator for Kids<'a> {
    type Item = u32;

    ghost next_gives = { YieldsFirstBy (λ kid. kid) (λ left. left) };

    ghost remaining = { item_count (λ left. left) };

    fn next(&mut self) -> Option<u32> {
        let kid = self.at?;
        self.at = self.arena.next(kid);
        Some(kid)
    }
}
