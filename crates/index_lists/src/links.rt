//! The links of one side of the store, which tie places to lists both ways.

ghost use Rattle.std.specs.Prelude.{◌≡◌, ℕ, ◌<◌};
ghost use Rattle.std.specs.Option.{ForSome};
ghost use Rattle.index_lists.specs.Links.{unlinked, no_ends, place_count, list_count, after_at, before_at, owner_of, SetsOwner};
ghost use Rattle.index_lists.specs.Rings.{spot, SetsAt};

use crate::index::Index;

/// How one place is linked.
#[derive(Clone, Copy)]
pub struct Link {
    /// The list in which the place stands; none while it stands in no list, and then the other two
    /// say nothing.
    pub list: Index,
    /// The place before this one; none at the front of the list.
    pub before: Index,
    /// The place after this one; none at the end of the list.
    pub after: Index,
}

impl Link {
    /// The link of a place that stands in no list.
    pub fn none() -> Link
        ensures { result ≡ unlinked }
    {
        Link {
            list: Index::none(),
            before: Index::none(),
            after: Index::none(),
        }
    }
}

/// The two ends of one list.
#[derive(Clone, Copy)]
pub struct Ends {
    /// The first place; none in an empty list.
    pub first: Index,
    /// The last place; none in an empty list.
    pub last: Index,
}

impl Ends {
    /// The ends of an empty list.
    pub fn none() -> Ends
        ensures { result ≡ no_ends }
    {
        Ends {
            first: Index::none(),
            last: Index::none(),
        }
    }
}

/// A link for each place, and two ends for each list.
#[derive(Drop)]
pub struct Links {
    pub places: Vec<Link>,
    pub ends: Vec<Ends>,
}

impl Links {
    /// Makes `before` and `after` neighbours in a list, where none stands for the edge of the list.
    pub fn join(&mut self, list: usize, before: Index, after: Index)
        requires list { list < list_count self.old }
        requires before { ForSome before (λ place. place < place_count self.old) }
        requires after { ForSome after (λ place. place < place_count self.old) }

        ensures forward { SetsAt (after_at self.old) (after_at self.new) (spot list before) after }
        ensures back { SetsAt (before_at self.old) (before_at self.new) (spot list after) before }
        ensures owners { (place : ℕ) → owner_of self.new place ≡ owner_of self.old place }
        ensures place_count { place_count self.new ≡ place_count self.old }
        ensures list_count { list_count self.new ≡ list_count self.old }
    {
        match before.get() {
            Some(place) => self.places[place].after = after,
            None => self.ends[list].first = after,
        }
        match after.get() {
            Some(place) => self.places[place].before = before,
            None => self.ends[list].last = before,
        }
    }

    /// Notes in which list a place stands.
    pub fn set_owner(&mut self, place: usize, list: Index)
        requires { place < place_count self.old }

        ensures { SetsOwner self.old self.new place list }
    {
        self.places[place].list = list;
    }
}
