//! A number for each written name.

ghost use Rattle.std.specs.Prelude.{◌≡◌, ◌<◌, ℕ, List, [], Some, IfOk, OnOk, OnErr};
ghost use Rattle.content_model.specs.Symbols.{symbol_in, with_name, Grows};

use crate::NoMemory;
use indexmap::IndexSet;
use std::alloc::Global;
use std::marker::Model;

/// The names seen so far, each with a number of its own, from 1. A name keeps its number, and 0 is that of no name: it
/// stands for text.
#[derive(Drop)]
pub struct Symbols {
    names: IndexSet<Vec<u8>>,
}

impl Model for Symbols {
    ghost use Rattle.std.specs.Prelude.{List, ℕ, map};

    ghost Value = { List (List ℕ) };

    ghost view = { λ s. map (λ name. name.items) s.names.keys };
}

impl Symbols {
    /// No names. It takes no memory.
    pub fn new(alloc: Global) -> Symbols
        ensures { result ≡ [] }
    {
        Symbols {
            names: IndexSet::new(alloc),
        }
    }

    /// The number of a name, a new one where the name has none. A name that has a number takes no memory.
    pub fn intern(&mut self, alloc: Global, written: &str) -> Result<u64, NoMemory>
        ensures number { IfOk result (λ n. symbol_in self.new written.now ≡ Some n) }
        // A name that has a number keeps it, and so do all others.
        ensures table { OnOk result (self.new ≡ with_name self.old written.now) }
        ensures err { OnErr result (self.new ≡ self.old) }
    {
        self.intern_bytes(alloc, written.as_bytes())
    }

    /// The number of a name, where it has one.
    pub fn find(&self, written: &str) -> Option<u64>
        ensures { result ≡ symbol_in self.now written.now }
    {
        self.find_bytes(written.as_bytes())
    }

    pub(crate) fn intern_bytes(&mut self, alloc: Global, written: &[u8]) -> Result<u64, NoMemory>
        ensures number { IfOk result (λ n. symbol_in self.new written.now ≡ Some n) }
        ensures table { OnOk result (self.new ≡ with_name self.old written.now) }
        ensures err { OnErr result (self.new ≡ self.old) }
    {
        if let Some(symbol) = self.find_bytes(written) {
            return Ok(symbol);
        }
        let name = Vec::from_slice(alloc, written)?;
        let (place, _) = self.names.insert_full(name)?;
        let _count = self.names.len();
        Ok(place as u64 + 1)
    }

    fn find_bytes(&self, written: &[u8]) -> Option<u64>
        ensures { result ≡ symbol_in self.now written.now }
    {
        let _count = self.names.len();
        match self.names.get_index_of(written) {
            Some(place) => Some(place as u64 + 1),
            None => None,
        }
    }
}

/// The laws of the numbers.
pub fn number_laws()
    // No name has the number 0.
    ensures positive { (names : List (List ℕ)) (name : List ℕ) (n : ℕ) → symbol_in names name ≡ Some n → 0 < n }
    // Different names have different numbers.
    ensures apart { (names : List (List ℕ)) (one other : List ℕ) (n : ℕ) → symbol_in names one ≡ Some n → symbol_in names other ≡ Some n → one ≡ other }
    // A name keeps its number when the table grows.
    ensures lasting { (names later : List (List ℕ)) (name : List ℕ) (n : ℕ) → Grows names later → symbol_in names name ≡ Some n → symbol_in later name ≡ Some n }
    // The table only grows.
    ensures growing { (names : List (List ℕ)) (name : List ℕ) → Grows names (with_name names name) }
{}
