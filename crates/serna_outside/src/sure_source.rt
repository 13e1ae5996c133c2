ghost use Rattle.std.specs.Prelude.{◌≡◌, ◌++◌, ◌<◌, Some, length, min, take, drop};
ghost use Rattle.serna_outside.specs.Outside.{raised, Reads, CountsRead};
ghost use Rattle.serna_outside.specs.MemorySource.{got_of, count_of};

use crate::steps::{copy_front, got};
use crate::{Got, Source};
use serna_kinds::Items;
use std::marker::Model;

/// A source of bytes in memory that never fails.
///
/// Contracts see it as a `SureState`: the bytes left, and the count of calls, which stays at 2^64 - 1 once it is there.
#[derive(Debug, Drop)]
pub struct SureSource {
    bytes: Items<u8>,
    given: usize,
    calls: u64,
}

impl Model for SureSource {
    ghost use Rattle.std.specs.Prelude.{◌≤◌, length, drop};
    ghost use Rattle.serna_outside.specs.MemorySource.{SureState};

    ghost Value = { SureState };

    ghost view = { λ s. record { left = drop s.given s.bytes; calls = s.calls } };

    ghost invariant = { λ s. s.given ≤ length s.bytes };
}

impl SureSource {
    /// A source of these bytes, from the first on. Takes no memory.
    pub fn new(bytes: Items<u8>) -> SureSource
        ensures { result ≡ record { left = bytes; calls = 0 } }
    {
        SureSource {
            bytes,
            given: 0,
            calls: 0,
        }
    }
}

impl Source for SureSource {
    ghost left = { λ s. Some s.left };

    ghost calls = { λ s. s.calls };

    ghost faults = { λ s. 0 };

    /// Gives as many bytes as fit into the buffer. The rest of the buffer stays.
    fn read(&mut self, into: &mut [u8]) -> Got
        requires { 0 < length into.old }
        ensures bytes { Reads (Some self.old.left) (Some self.new.left) into.new result }
        ensures called { self.new.calls ≡ raised self.old.calls }
        ensures counted { CountsRead 0 0 result }

        ensures answer { result ≡ got_of (min (length into.old) (length self.old.left)) }
        ensures rest { self.new.left ≡ drop (count_of result) self.old.left }
        ensures copied { into.new ≡ take (count_of result) self.old.left ++ drop (count_of result) into.old }
    {
        self.calls = self.calls.saturating_add(1);
        let given = self.given;
        let room = into.len();
        let count = copy_front(&self.bytes.as_slice()[given..], into, room);
        self.given = given + count;
        got(count)
    }
}
