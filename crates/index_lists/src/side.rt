//! One side of the store: doubly linked lists over the places of an arena.

ghost use Rattle.std.specs.Prelude.{◌≡◌, ◌≢◌, ℕ, ◌<◌, ◌≤◌, ◌++◌, ◌∷◌, [], max, length, Option, Some, None, IsSome, IfSome, OnOk, OnErr};
ghost use Rattle.index_lists.specs.Lists.{without, first_of, place_after};

use crate::index::{Index, NUMBERS};
use crate::links::{Ends, Link, Links};
use std::alloc::{AllocError, Global};
use std::marker::Model;

/// Lists of places, each linked both ways; a place stands in one list at most. Lists and places are
/// numbered from 0.
#[derive(Drop)]
pub struct Chains {
    links: Links,
}

impl Model for Chains {
    ghost use Rattle.index_lists.specs.Side.{Side};

    ghost Value = { Side };

    ghost use Rattle.index_lists.specs.Links.{side_of, IsChained, IsCounted};

    ghost view = { λ c. side_of c.links };

    ghost invariant = { λ c. IsChained c.links × IsCounted c.links };
}

impl Chains {
    ghost use Rattle.index_lists.specs.Side.{list_at, owner_at, IsSound, Appends, TakesOut, Extends};

    /// No place and no list. It takes no memory.
    pub fn new(alloc: Global) -> Chains
        ensures { result ≡ record { lists = []; owners = [] } }
    {
        Chains {
            links: Links {
                places: Vec::new(alloc),
                ends: Vec::new(alloc),
            },
        }
    }

    /// How many places there are.
    pub fn places(&self) -> usize
        ensures { result ≡ length self.now.owners }
    {
        self.links.places.len()
    }

    /// Makes sure of so many places. New places stand in no list.
    pub fn grow_places(&mut self, places: usize) -> Result<(), AllocError>
        ensures places { OnOk result (length self.new.owners ≡ max places (length self.old.owners)) }
        ensures err { OnErr result (self.new ≡ self.old) }
        ensures extends { Extends self.old self.new }
        ensures sound { IsSound self.new }
    {
        let places = places.max(self.links.places.len());
        if places > NUMBERS {
            return Err(AllocError);
        }
        self.links.places.resize(places, Link::none())?;
        Ok(())
    }

    /// Makes sure of so many lists. New lists are empty.
    pub fn grow_lists(&mut self, lists: usize) -> Result<(), AllocError>
        ensures lists { OnOk result (length self.new.lists ≡ max lists (length self.old.lists)) }
        ensures places { length self.new.owners ≡ length self.old.owners }
        ensures err { OnErr result (self.new ≡ self.old) }
        ensures extends { Extends self.old self.new }
        ensures sound { IsSound self.new }
    {
        let lists = lists.max(self.links.ends.len());
        if lists > NUMBERS {
            return Err(AllocError);
        }
        self.links.ends.resize(lists, Ends::none())?;
        Ok(())
    }

    /// The list in which a linked place stands.
    pub fn list_of(&self, place: usize) -> usize
        requires { IsSome (owner_at self.now place) }
        ensures { owner_at self.now place ≡ Some result }
    {
        self.links.places[place].list.get().unwrap()
    }

    /// The first place of a list.
    pub fn first(&self, list: usize) -> Option<usize>
        requires { list < length self.now.lists }
        ensures first { result ≡ first_of (list_at self.now list) }
        ensures owner { IfSome result (λ place. owner_at self.now place ≡ Some list) }
    {
        self.links.ends[list].first.get()
    }

    /// The place after a linked place in its list.
    pub fn next(&self, place: usize) -> Option<usize>
        requires { IsSome (owner_at self.now place) }
        ensures next { IfSome (owner_at self.now place) (λ list. result ≡ place_after place (list_at self.now list)) }
        ensures owner { IfSome result (λ next. owner_at self.now next ≡ owner_at self.now place) }
    {
        self.links.places[place].after.get()
    }

    /// Puts a place that stands in no list at the end of a list.
    pub fn push_back(&mut self, list: usize, place: usize)
        requires list { list < length self.old.lists }
        requires place { place < length self.old.owners }
        requires free { owner_at self.old place ≡ None }

        ensures appends { Appends self.old self.new list place }
        ensures sound { IsSound self.new }
    {
        // The place goes between the last one and the edge of the list.
        let (before, after) = (self.links.ends[list].last, Index::none());
        self.links.join(list, before, Index::of(place));
        self.links.join(list, Index::of(place), after);
        self.links.set_owner(place, Index::of(list));
    }

    /// Takes a linked place out of its list, and answers that list.
    pub fn unlink(&mut self, place: usize) -> usize
        requires { IsSome (owner_at self.old place) }

        ensures list { owner_at self.old place ≡ Some result }
        ensures takes_out { TakesOut self.old self.new result place }
        ensures sound { IsSound self.new }
    {
        let link = self.links.places[place];
        let list = link.list.get().unwrap();
        self.links.join(list, link.before, link.after);
        self.links.set_owner(place, Index::none());
        list
    }
}
