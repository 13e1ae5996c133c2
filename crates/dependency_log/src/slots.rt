//! The iterator over the slots of a cell.

ghost use Rattle.std.specs.Prelude.{◌≡◌, Some};
ghost use Rattle.std.specs.Option.{ForSome};
ghost use Rattle.std.specs.Iterator.{YieldsFirstBy, item_count};
ghost use Rattle.index_lists.specs.Threads.{IsLive};
ghost use Rattle.dependency_log.specs.Edges.{slots_from, IsSound};

use crate::edges::Edges;
use std::marker::Model;

/// An iterator over the slots that have a cell, each in constant time. Clauses see it as the list of the slots
/// that are still to come.
#[derive(Drop)]
pub struct Slots<'a> {
    edges: &'a Edges,
    /// The place of the next edge; `None` at the end.
    at: Option<usize>,
}

impl<'a> Model for Slots<'a> {
    ghost use Rattle.std.specs.Prelude.{ℕ, List};
    ghost use Rattle.dependency_log.specs.Edges.{slots_from, IsSound, IsEdge};

    ghost Value = { List ℕ };

    ghost view = { λ s. slots_from s.edges.now s.at };

    ghost invariant = { λ s. IsSound s.edges.now × IsEdge s.edges.now s.at };
}

impl<'a> Slots<'a> {
    /// The slots of the edge `at` and of those behind it in the list of its cell.
    pub(crate) fn from(edges: &'a Edges, at: Option<usize>) -> Slots<'a>
        requires sound { IsSound edges.now }
        requires edge { ForSome at (λ place. IsLive edges.now.threads place) }
        ensures { result ≡ slots_from edges.now at }
    {
        Slots { edges, at }
    }
}

impl<'a> Iterator for Slots<'a> {
    type Item = u64;

    ghost next_gives = { YieldsFirstBy (λ slot. slot) (λ left. left) };

    ghost remaining = { item_count (λ left. left) };

    fn next(&mut self) -> Option<u64> {
        let place = self.at?;
        self.at = self.edges.next(place);
        Some(self.edges.slot(place))
    }
}
