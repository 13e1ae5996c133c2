ghost use Rattle.std.specs.Prelude.{◌≡◌, ◌↔◌, ◌++◌, ◌<◌, ◌≤◌, Some, Contains, length, take, drop};
ghost use Rattle.serna_outside.specs.Outside.{raised, Reads, CountsRead};
ghost use Rattle.serna_outside.specs.MemorySource.{SourceState, count_of, read_answer, after_read};

use crate::steps::{copy_front, fails, got};
use crate::{Got, Source};
use serna_kinds::Items;
use std::marker::Model;

/// A source of bytes in memory that gives them in small pieces and fails where it is told to, as a real one may.
///
/// Contracts see it as a `SourceState`: the bytes left, the numbers of the calls that fail, the most bytes that a read
/// gives, and the counts of calls and of faults, which stay at 2^64 - 1 once they are there.
#[derive(Debug, Drop)]
pub struct MemorySource {
    bytes: Items<u8>,
    given: usize,
    failing: Items<u64>,
    most: usize,
    calls: u64,
    faults: u64,
}

impl Model for MemorySource {
    ghost use Rattle.std.specs.Prelude.{◌≤◌, length, drop};
    ghost use Rattle.serna_outside.specs.MemorySource.{SourceState};

    ghost Value = { SourceState };

    ghost view = { λ s. record { left = drop s.given s.bytes; failing = s.failing; most = s.most; calls = s.calls; faults = s.faults } };

    ghost invariant = { λ s. (s.given ≤ length s.bytes) × (1 ≤ s.most) };
}

impl MemorySource {
    /// A source of these bytes. A read gives at most `most` of them, and the calls of `read` whose numbers, from 1, are
    /// in `failing` fail. Takes no memory.
    pub fn new(bytes: Items<u8>, failing: Items<u64>, most: usize) -> MemorySource
        requires { 1 ≤ most }
        ensures { result ≡ record { left = bytes; failing = failing; most = most; calls = 0; faults = 0 } }
    {
        MemorySource {
            bytes,
            given: 0,
            failing,
            most,
            calls: 0,
            faults: 0,
        }
    }
}

impl Source for MemorySource {
    ghost left = { λ s. Some s.left };

    ghost calls = { λ s. s.calls };

    ghost faults = { λ s. s.faults };

    /// Gives as many bytes as `most` and the buffer allow, or fails where the number of this call is one of those that
    /// fail. A call that fails changes the two counts and nothing else. The rest of the buffer stays.
    fn read(&mut self, into: &mut [u8]) -> Got
        requires { 0 < length into.old }
        ensures bytes { Reads (Some self.old.left) (Some self.new.left) into.new result }
        ensures called { self.new.calls ≡ raised self.old.calls }
        ensures counted { CountsRead self.old.faults self.new.faults result }

        ensures fails { (result ≡ Got.Failed) ↔ Contains self.old.failing (raised self.old.calls) }
        ensures answer { result ≡ read_answer self.old (length into.old) }
        ensures after { self.new ≡ after_read self.old result }
        ensures copied { into.new ≡ take (count_of result) self.old.left ++ drop (count_of result) into.old }
    {
        self.calls = self.calls.saturating_add(1);
        if fails(self.failing.as_slice(), self.calls) {
            self.faults = self.faults.saturating_add(1);
            return Got::Failed;
        }
        let given = self.given;
        let most = self.most;
        let count = copy_front(&self.bytes.as_slice()[given..], into, most);
        self.given = given + count;
        got(count)
    }
}
