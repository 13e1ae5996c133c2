//! Items that stand in two lists at once, linked by index in one arena.
//!
//! An item is put at the end of one left list and of one right list, and is taken out of both by the
//! place that it got. Links are four bytes, so that an item takes 28 bytes and a list 8. All calls but
//! [`Threads::reserve`] and [`Threads::clear_right`] take constant time.
#![tactic(auto)]

ghost use Rattle.std.specs.Prelude.{◌≡◌, ◌≢◌, ℕ, ◌+◌, ◌<◌, ◌≤◌, ◌++◌, ◌∷◌, [], Option, Some, None, if◌then◌else◌, IfSome, OnOk, length};
ghost use Rattle.index_lists.specs.Lists.{without, first_of, place_after};

mod index;
mod links;
mod pool;
mod side;

pub use pool::Pool;
use side::Chains;
use std::alloc::{AllocError, Global};
use std::marker::Model;

/// Memory was refused, or what was asked for is more than the numbers of places and lists can name.
pub type NoMemory = std::alloc::AllocError;

/// Items, each in one left list and in one right list at once.
///
/// Lists are named by numbers from 0, within the numbers reserved, and an item by its place, which
/// [`Threads::push_back`] gives. The place of an item that was removed may be given again.
#[derive(Drop)]
pub struct Threads {
    left: Chains,
    right: Chains,
    /// The places; those that no live item has are free.
    places: Pool,
}

impl Model for Threads {
    ghost use Rattle.index_lists.specs.Threads.{Woven};

    ghost Value = { Woven };

    ghost use Rattle.index_lists.specs.Arena.{IsArena};
    ghost use Rattle.index_lists.specs.Pool.{spare_of};

    ghost view = { λ t. record { left = t.left; right = t.right; spare = spare_of t.places } };

    ghost invariant = { λ t. IsArena t.left t.right t.places };
}

impl Threads {
    ghost use Rattle.index_lists.specs.Threads.{nothing, left_count, right_count, left_list, right_list, item_at, left_of, right_of, is_right, outside_right, IsLive, IsRoomier, IsWoven};

    /// No list, no item and no room. It takes no memory.
    pub fn new(alloc: Global) -> Threads
        ensures empty { result ≡ nothing }
        ensures woven { IsWoven result }
    {
        Threads {
            left: Chains::new(alloc),
            right: Chains::new(alloc),
            places: Pool::new(alloc),
        }
    }

    /// Makes room for `items` more items, and for `lefts` left lists and `rights` right lists in all.
    /// New lists are empty.
    ///
    /// The memory comes from the allocator that [`Threads::new`] was given. After an error the lists
    /// and the items are as before, and the room may have grown.
    ///
    /// # Errors
    ///
    /// `NoMemory` where memory was refused, or where there would be more than 4,294,967,295 places or
    /// lists of one side.
    pub fn reserve(
        &mut self,
        _alloc: Global,
        items: usize,
        lefts: usize,
        rights: usize,
    ) -> Result<(), NoMemory>
        ensures items { OnOk result (items ≤ self.new.spare) }
        ensures lefts { OnOk result (lefts ≤ left_count self.new) }
        ensures rights { OnOk result (rights ≤ right_count self.new) }

        // Whatever the answer.
        ensures kept { IsRoomier self.old self.new }
        ensures woven { IsWoven self.new }
    {
        self.reserve_lists(lefts, rights)?;
        self.reserve_items(items)?;
        Ok(())
    }

    /// Makes sure of so many left and right lists.
    fn reserve_lists(&mut self, lefts: usize, rights: usize) -> Result<(), AllocError>
        ensures lefts { OnOk result (lefts ≤ left_count self.new) }
        ensures rights { OnOk result (rights ≤ right_count self.new) }
        ensures kept { IsRoomier self.old self.new }
        ensures woven { IsWoven self.new }
    {
        self.left.grow_lists(lefts)?;
        self.right.grow_lists(rights)?;
        Ok(())
    }

    /// Makes room for so many more items.
    fn reserve_items(&mut self, items: usize) -> Result<(), AllocError>
        ensures items { OnOk result (items ≤ self.new.spare) }
        ensures kept { IsRoomier self.old self.new }
        ensures woven { IsWoven self.new }
    {
        let missing = items.saturating_sub(self.places.spare());
        let count = self.places.count().checked_add(missing).ok_or(AllocError)?;
        self.left.grow_places(count)?;
        self.right.grow_places(count)?;
        self.places.reserve(items)?;
        Ok(())
    }

    /// Puts a new item at the end of a left list and of a right list, and answers its place.
    pub fn push_back(&mut self, left: usize, right: usize) -> usize
        requires room { 1 ≤ self.old.spare }
        requires left { left < left_count self.old }
        requires right { right < right_count self.old }

        ensures fresh { item_at self.old result ≡ None }
        ensures item { item_at self.new result ≡ Some (left, right) }
        ensures left_end { left_list self.new left ≡ left_list self.old left ++ result ∷ [] }
        ensures right_end { right_list self.new right ≡ right_list self.old right ++ result ∷ [] }
        ensures spare { self.new.spare + 1 ≡ self.old.spare }

        // Every other list and item stays, and so do the numbers of lists.
        ensures other_left_lists { (list : ℕ) → list ≢ left → left_list self.new list ≡ left_list self.old list }
        ensures other_right_lists { (list : ℕ) → list ≢ right → right_list self.new list ≡ right_list self.old list }
        ensures other_items { (place : ℕ) → place ≢ result → item_at self.new place ≡ item_at self.old place }
        ensures same_lefts { left_count self.new ≡ left_count self.old }
        ensures same_rights { right_count self.new ≡ right_count self.old }
        ensures woven { IsWoven self.new }
    {
        let place = self.places.take();
        self.left.push_back(left, place);
        self.right.push_back(right, place);
        place
    }

    /// Takes the item at a live place out of both its lists, and answers the item: its left list and
    /// its right list.
    pub fn remove(&mut self, place: usize) -> (usize, usize)
        requires { IsLive self.old place }

        ensures item { item_at self.old place ≡ Some result }
        ensures gone { item_at self.new place ≡ None }
        ensures left_out { left_list self.new result.0 ≡ without place (left_list self.old result.0) }
        ensures right_out { right_list self.new result.1 ≡ without place (right_list self.old result.1) }
        ensures spare { self.new.spare ≡ self.old.spare + 1 }

        // Every other list and item stays, and so do the numbers of lists.
        ensures other_left_lists { (list : ℕ) → list ≢ result.0 → left_list self.new list ≡ left_list self.old list }
        ensures other_right_lists { (list : ℕ) → list ≢ result.1 → right_list self.new list ≡ right_list self.old list }
        ensures other_items { (other : ℕ) → other ≢ place → item_at self.new other ≡ item_at self.old other }
        ensures same_lefts { left_count self.new ≡ left_count self.old }
        ensures same_rights { right_count self.new ≡ right_count self.old }
        ensures woven { IsWoven self.new }
    {
        let left = self.left.unlink(place);
        let right = self.right.unlink(place);
        self.places.give_back(place);
        (left, right)
    }

    /// Takes every item of a right list out of both its lists. It takes no memory, and time by the
    /// number of these items.
    pub fn clear_right(&mut self, right: usize)
        requires { right < right_count self.old }

        ensures empty { right_list self.new right ≡ [] }
        ensures left_lists { (list : ℕ) → left_list self.new list ≡ outside_right self.old right (left_list self.old list) }
        ensures items { (place : ℕ) → item_at self.new place ≡ (if is_right self.old right place then None else item_at self.old place) }
        ensures spare { self.new.spare ≡ self.old.spare + length (right_list self.old right) }

        // Every other right list stays, and so do the numbers of lists.
        ensures other_right_lists { (list : ℕ) → list ≢ right → right_list self.new list ≡ right_list self.old list }
        ensures same_lefts { left_count self.new ≡ left_count self.old }
        ensures same_rights { right_count self.new ≡ right_count self.old }
        ensures woven { IsWoven self.new }
    {
        while let Some(place) = self.first_right(right) {
            self.remove(place);
        }
    }

    /// The first place of a left list; `None` where the list is empty.
    pub fn first_left(&self, left: usize) -> Option<usize>
        requires { left < left_count self.now }
        ensures first { result ≡ first_of (left_list self.now left) }
        ensures live { IfSome result (IsLive self.now) }
        ensures same_left { IfSome result (λ place. left_of self.now place ≡ left) }
        ensures woven { IsWoven self.now }
    {
        self.left.first(left)
    }

    /// The place after a live one in its own left list; `None` where it stands last.
    pub fn next_left(&self, place: usize) -> Option<usize>
        requires { IsLive self.now place }
        ensures next { result ≡ place_after place (left_list self.now (left_of self.now place)) }
        ensures live { IfSome result (IsLive self.now) }
        ensures same_left { IfSome result (λ next. left_of self.now next ≡ left_of self.now place) }
        ensures woven { IsWoven self.now }
    {
        self.left.next(place)
    }

    /// The first place of a right list; `None` where the list is empty.
    pub fn first_right(&self, right: usize) -> Option<usize>
        requires { right < right_count self.now }
        ensures first { result ≡ first_of (right_list self.now right) }
        ensures live { IfSome result (IsLive self.now) }
        ensures same_right { IfSome result (λ place. right_of self.now place ≡ right) }
        ensures woven { IsWoven self.now }
    {
        self.right.first(right)
    }

    /// The place after a live one in its own right list; `None` where it stands last.
    pub fn next_right(&self, place: usize) -> Option<usize>
        requires { IsLive self.now place }
        ensures next { result ≡ place_after place (right_list self.now (right_of self.now place)) }
        ensures live { IfSome result (IsLive self.now) }
        ensures same_right { IfSome result (λ next. right_of self.now next ≡ right_of self.now place) }
        ensures woven { IsWoven self.now }
    {
        self.right.next(place)
    }

    /// The item at a live place: its left list and its right list.
    pub fn item(&self, place: usize) -> (usize, usize)
        requires { IsLive self.now place }
        ensures item { item_at self.now place ≡ Some result }
        ensures woven { IsWoven self.now }
    {
        (self.left.list_of(place), self.right.list_of(place))
    }
}

#[cfg(test)]
mod tests;
