//! Numbers that are given out and taken back.

ghost use Rattle.std.specs.Prelude.{◌≡◌, ◌≢◌, ℕ, ◌+◌, ◌≤◌, [], OnOk, OnErr, max};
ghost use Rattle.index_lists.specs.Lists.{times};

use crate::NoMemory;
use std::alloc::{AllocError, Global};
use std::marker::Model;

/// Numbers from 0 on, each of which is free or taken: the names of lists or of items, to be used again
/// once their holder is gone.
///
/// The number that was given back last is taken first.
#[derive(Drop)]
pub struct Pool {
    /// The numbers that are free, as a stack with room for all numbers.
    free: Vec<u32>,
    /// How many numbers there are.
    count: u32,
}

impl Model for Pool {
    ghost use Rattle.index_lists.specs.Pool.{Pooled};

    ghost Value = { Pooled };

    ghost use Rattle.std.specs.Prelude.{◌≤◌, vec_capacity};
    ghost use Rattle.index_lists.specs.Pool.{IsPool};

    ghost view = { λ p. record { free = p.free.items; count = p.count } };

    ghost invariant = { λ p. IsPool (record { free = p.free.items; count = p.count }) × (p.count ≤ vec_capacity p.free) };
}

impl Pool {
    ghost use Rattle.index_lists.specs.Pool.{IsFree, IsTaken, IsPool, IsGrown, spare_of, one_more};

    /// No number. It takes no memory.
    pub fn new(alloc: Global) -> Pool
        ensures empty { result ≡ record { free = []; count = 0 } }
        ensures pool { IsPool result }
    {
        Pool {
            free: Vec::new(alloc),
            count: 0,
        }
    }

    /// How many numbers are free.
    pub fn spare(&self) -> usize
        ensures spare { result ≡ spare_of self.now }
        ensures pool { IsPool self.now }
    {
        self.free.len()
    }

    /// How many numbers there are, free and taken: the numbers are those below.
    pub fn count(&self) -> usize
        ensures count { result ≡ self.now.count }
        ensures pool { IsPool self.now }
    {
        self.count as usize
    }

    /// Makes sure of `numbers` free numbers. New numbers follow the old ones.
    ///
    /// It is the only call that takes memory. After an error there may be more free numbers, though not
    /// as many as asked for.
    ///
    /// # Errors
    ///
    /// `NoMemory` where memory was refused, or where there would be more than 4,294,967,295 numbers.
    pub fn reserve(&mut self, numbers: usize) -> Result<(), NoMemory>
        ensures spare { OnOk result (numbers ≤ spare_of self.new) }

        // Whatever the answer, the old numbers are free or taken as they were, and new ones are free.
        ensures grown { IsGrown self.old self.new }
        ensures few { spare_of self.new ≤ max numbers (spare_of self.old) }
        ensures pool { IsPool self.new }
    {
        while self.free.len() < numbers {
            self.add_one()?;
        }
        Ok(())
    }

    /// Adds one number, which is free.
    fn add_one(&mut self) -> Result<(), AllocError>
        ensures ok { OnOk result (self.new ≡ one_more self.old) }
        ensures err { OnErr result (self.new ≡ self.old) }
        ensures pool { IsPool self.new }
    {
        let next = self.count.checked_add(1).ok_or(AllocError)?;
        let taken = self.count as usize - self.free.len();
        self.free.reserve(taken + 1)?;
        self.free.push(self.count)?;
        self.count = next;
        Ok(())
    }

    /// Gives out a free number, which is then taken.
    pub fn take(&mut self) -> usize
        requires { 1 ≤ spare_of self.old }

        ensures was_free { IsFree self.old result }
        ensures taken { IsTaken self.new result }
        ensures spare { spare_of self.new + 1 ≡ spare_of self.old }
        ensures others { (number : ℕ) → number ≢ result → times number self.new.free ≡ times number self.old.free }
        ensures count { self.new.count ≡ self.old.count }
        ensures pool { IsPool self.new }
    {
        self.free.pop().unwrap() as usize
    }

    /// Takes a number back, which is then free.
    pub fn give_back(&mut self, number: usize)
        requires { IsTaken self.old number }

        ensures free { IsFree self.new number }
        ensures spare { spare_of self.new ≡ spare_of self.old + 1 }
        ensures others { (other : ℕ) → other ≢ number → times other self.new.free ≡ times other self.old.free }
        ensures count { self.new.count ≡ self.old.count }
        ensures pool { IsPool self.new }
    {
        // There is room for every number, so this push can't fail.
        let _ = self.free.push(number as u32);
    }
}
