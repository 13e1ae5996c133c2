//! Lists of shared values, in which one value at a time is changed.

ghost use Rattle.std.specs.Prelude.{◌≡◌, ◌≢◌, ◌==◌, ℕ, [], IfOk, OnOk, unwrap_or, option_copied, if◌then◌else◌};
ghost use Rattle.std.specs.Arc.{arc_value};
ghost use Rattle.frozen_tree.specs.Shelves.{place_in};

use serna_kinds::NoMemory;
use std::alloc::Global;
use std::marker::Model;
use std::sync::Arc;

/// What can stand on a [`Shelf`]: it has a value that stands for nothing, and can be copied.
pub(crate) trait Shelved: Drop + Sized {
    ghost nothing: { Self };

    /// The value that stands for nothing. Takes no memory.
    fn empty(alloc: Global) -> Self
        ensures { result ≡ nothing };

    /// The same value, in memory of its own but for what it shares.
    fn copy(&self, alloc: Global) -> Result<Self, NoMemory>
        ensures { IfOk result (λ copy. copy ≡ self.now) };
}

/// A list of places, each with a value that copies of the shelf share, or with none. Contracts see that list.
#[derive(Drop)]
pub(crate) struct Shelf<T> {
    places: Vec<Option<Arc<T>>>,
}

impl<T> Model for Shelf<T> {
    ghost use Rattle.std.specs.Prelude.{List, Option, map, option_map};
    ghost use Rattle.std.specs.Coded.{coded_list, coded_option};
    ghost use Rattle.std.specs.Arc.{arc_value};

    ghost Value = { List (Option T) };

    ghost coded = { coded_list (coded_option T.code) };

    ghost view = { λ s. map (option_map arc_value) s.places.items };
}

// The value for the caller alone: the one that is handed in where no one else shares it, else a copy.
fn own<T: Shelved>(alloc: Global, shared: Arc<T>) -> Result<T, NoMemory>
    ensures { IfOk result (λ value. value ≡ arc_value shared) }
{
    match Arc::try_unwrap(shared) {
        Ok(value) => Ok(value),
        Err(shared) => shared.copy(alloc),
    }
}

impl<T: Shelved> Shelf<T> {
    /// What stands at a place, None where nothing does.
    pub(crate) fn get(&self, place: usize) -> Option<&T>
        ensures { unwrap_or (option_copied result) T.nothing ≡ place_in T.nothing self.now place }
    {
        match self.places.get(place) {
            Some(Some(value)) => Some(value),
            _ => None,
        }
    }

    /// Takes out what stands at a place, for the caller alone. What shares it keeps it.
    pub(crate) fn take(&mut self, alloc: Global, place: usize) -> Result<T, NoMemory>
        ensures value { IfOk result (λ value. value ≡ place_in T.nothing self.old place) }
        ensures others { (k : ℕ) → k ≢ place → place_in T.nothing self.new k ≡ place_in T.nothing self.old k }
    {
        if place >= self.places.len() {
            return Ok(T::empty(alloc));
        }
        match self.places[place].take() {
            Some(shared) => own(alloc, shared),
            None => Ok(T::empty(alloc)),
        }
    }

    /// Puts a value at a place, in the place of what stands there.
    pub(crate) fn put(&mut self, alloc: Global, place: usize, value: T) -> Result<(), NoMemory>
        ensures { OnOk result ((k : ℕ) → place_in T.nothing self.new k ≡ if k == place then value else place_in T.nothing self.old k) }
    {
        let shared = Arc::new(alloc, value)?;
        while self.places.len() <= place {
            self.places.push(None)?;
        }
        self.places[place] = Some(shared);
        Ok(())
    }
}

impl<T: Shelved> Shelved for Shelf<T> {
    ghost nothing = { [] };

    fn empty(alloc: Global) -> Shelf<T> {
        Shelf {
            places: Vec::new(alloc),
        }
    }

    fn copy(&self, _alloc: Global) -> Result<Shelf<T>, NoMemory> {
        let places = self.places.clone()?;
        Ok(Shelf { places })
    }
}
