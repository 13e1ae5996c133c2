ghost use Rattle.std.specs.Prelude.{◌≡◌, ◌+◌, ◌<◌, ◌≤◌, None, IfErr, IsOk, OnOk, OnErr};
ghost use Rattle.std.specs.Option.{option_copied};
ghost use Rattle.std.specs.FinMap as map;

use crate::Fragment;
use serna_kinds::NoMemory;
use std::alloc::{AllocFailed, Global};
use std::collections::HashMap;
use std::marker::Model;

/// Results by their numbers. Contracts see it as the map from each number to what its result says, and how many more results
/// can be stored without memory.
#[derive(Debug, Drop)]
pub struct Fragments {
    by_number: HashMap<u64, Fragment>,
}

impl Model for Fragments {
    ghost use Rattle.std.specs.FinMap as map;
    ghost use Rattle.std.specs.HashMap.{spare};
    ghost use Rattle.std.specs.Coded.{codes, coded_ℕ, coded×, code_by};
    ghost use Rattle.result_origin.specs.Stored.{Stored, Shelf, shelf_code};

    ghost Value = { Shelf };

    ghost coded = { shelf_code (Prim.hlevel codes) };

    ghost view = { λ f. record { stored = map.from_entries f.by_number.entries; room = spare f.by_number } };
}

impl Fragments {
    ghost use Rattle.result_origin.specs.Stored.{kept};

    /// No results. Takes no memory.
    pub fn new(alloc: Global) -> Fragments
        ensures { result.stored ≡ map.empty }
    {
        Fragments {
            by_number: HashMap::new(alloc),
        }
    }

    /// Makes room for so many more results, so that as many calls of `put` take no memory. What is stored stays, and after an
    /// error there is no less room than before.
    pub fn reserve(&mut self, more: usize) -> Result<(), NoMemory>
        ensures stored { self.new.stored ≡ self.old.stored }
        ensures ok { OnOk result (more ≤ self.new.room) }
        ensures room { self.old.room ≤ self.new.room }
    {
        self.by_number.reserve(more)
    }

    /// Stores the result of a number, in place of an earlier one. Where there is room it takes no memory, and uses up no more
    /// than one place; it fails only where there is none, and no result of the number. It then hands the result back, and what
    /// is stored is as before.
    pub fn put(&mut self, id: u64, fragment: Fragment) -> Result<(), AllocFailed<Fragment>>
        ensures ok { OnOk result (self.new.stored ≡ map.insert self.old.stored id fragment) }
        ensures succeeds { 0 < self.old.room → IsOk result }
        ensures room { self.old.room ≤ self.new.room + 1 }
        ensures handed_back { IfErr result (λ failed. failed.value ≡ fragment) }
        ensures err { OnErr result (self.new.stored ≡ self.old.stored) }
        ensures absent { OnErr result (kept self.old.stored id ≡ None) }
    {
        match self.by_number.insert(id, fragment) {
            Ok(_) => Ok(()),
            Err(failed) => {
                let (_, value) = failed.value;
                Err(AllocFailed { value })
            }
        }
    }

    /// The result of a number, None exactly where there is none.
    pub fn get(&self, id: u64) -> Option<&Fragment>
        ensures { option_copied result ≡ kept self.now.stored id }
    {
        self.by_number.get(&id)
    }

    /// Takes out the result of a number, None exactly where there is none. Takes no memory, and leaves no less room than before.
    pub fn take(&mut self, id: u64) -> Option<Fragment>
        ensures value { result ≡ kept self.old.stored id }
        ensures stored { self.new.stored ≡ map.remove self.old.stored id }
        ensures room { self.old.room ≤ self.new.room }
    {
        self.by_number.remove(&id)
    }
}
