ghost use Rattle.std.specs.Prelude.{◌≡◌, ◌↔◌, ◌⊎◌, ◌<◌, ◌≤◌, [], Some, IsTrue, false, not, IfOk, Contains, length};
ghost use Rattle.serna_outside.specs.Outside.{raised, Writes, CountsWrite, CountsFinish};
ghost use Rattle.serna_outside.specs.MemorySink.{SinkState, next_is_to_fail, write_answer, after_write, after_finish};

use crate::steps::fails;
use crate::{Put, Sink};
use serna_kinds::{Items, NoMemory};
use std::alloc::Global;
use std::marker::Model;

/// A sink that keeps its bytes in memory, and fails where it is full or is told to fail.
///
/// Contracts see it as a `SinkState`: the bytes held, the numbers of the calls that fail, the most bytes that it can
/// hold, the counts of calls and of faults, which stay at 2^64 - 1 once they are there, and whether `finish` was the last
/// call.
#[derive(Debug, Drop)]
pub struct MemorySink {
    held: Vec<u8>,
    failing: Items<u64>,
    room: usize,
    calls: u64,
    faults: u64,
    finished: bool,
}

impl Model for MemorySink {
    ghost use Rattle.std.specs.Prelude.{◌≤◌, vec_len, vec_capacity};
    ghost use Rattle.serna_outside.specs.MemorySink.{SinkState};

    ghost Value = { SinkState };

    ghost view = { λ s. record { held = s.held.items; failing = s.failing; room = s.room; calls = s.calls; faults = s.faults; finished = s.finished } };

    ghost invariant = { λ s. (vec_len s.held ≤ s.room) × (s.room ≤ vec_capacity s.held) };
}

impl MemorySink {
    /// An empty sink for `room` bytes, whose memory it takes here. The calls of `write` and `finish` are numbered
    /// together from 1, and those whose numbers are in `failing` fail.
    pub fn new(alloc: Global, failing: Items<u64>, room: usize) -> Result<MemorySink, NoMemory>
        ensures { IfOk result (λ sink. sink ≡ record { held = []; failing = failing; room = room; calls = 0; faults = 0; finished = false }) }
    {
        let held = Vec::with_capacity(alloc, room)?;
        Ok(MemorySink {
            held,
            failing,
            room,
            calls: 0,
            faults: 0,
            finished: false,
        })
    }

    /// The bytes that the sink has taken, in order.
    pub fn held(&self) -> &[u8]
        ensures { result.now ≡ self.now.held }
    {
        self.held.as_slice()
    }

    /// Whether `finish` was the last call.
    pub fn is_finished(&self) -> bool
        ensures { result ≡ self.now.finished }
    {
        self.finished
    }
}

impl Sink for MemorySink {
    ghost held = { λ s. Some s.held };

    ghost faults = { λ s. s.faults };

    ghost is_finished = { λ s. s.finished };

    /// Takes what fits of the piece, or fails where the number of this call is one of those that fail and where no room
    /// is left. A call that fails changes no byte.
    fn write(&mut self, piece: &[u8]) -> Put
        requires { 0 < length piece.now }
        ensures bytes { Writes (Some self.old.held) (Some self.new.held) piece.now result }
        ensures counted { CountsWrite self.old.faults self.new.faults result }
        ensures unfinished { self.new.finished ≡ false }

        ensures fails { (result ≡ Put.Failed) ↔ (Contains self.old.failing (raised self.old.calls) ⊎ (self.old.room ≤ length self.old.held)) }
        ensures answer { result ≡ write_answer self.old (length piece.now) }
        ensures after { self.new ≡ after_write self.old piece.now result }
    {
        self.calls = self.calls.saturating_add(1);
        self.finished = false;
        let room = self.room - self.held.len();
        if room == 0 || fails(self.failing.as_slice(), self.calls) {
            self.faults = self.faults.saturating_add(1);
            return Put::Failed;
        }
        let count = piece.len().min(room);
        self.held.extend_from_slice(&piece[..count]).unwrap();
        Put::Took(count)
    }

    /// True but where the number of this call is one of those that fail.
    fn finish(&mut self) -> bool
        ensures held { self.new.held ≡ self.old.held }
        ensures counted { CountsFinish self.old.faults self.new.faults result }
        ensures finished { IsTrue self.new.finished }

        ensures fails { (result ≡ false) ↔ Contains self.old.failing (raised self.old.calls) }
        ensures answer { result ≡ not (next_is_to_fail self.old) }
        ensures after { self.new ≡ after_finish self.old result }
    {
        self.calls = self.calls.saturating_add(1);
        self.finished = true;
        if fails(self.failing.as_slice(), self.calls) {
            self.faults = self.faults.saturating_add(1);
            return false;
        }
        true
    }
}
