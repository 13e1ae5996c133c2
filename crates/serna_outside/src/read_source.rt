ghost use Rattle.std.specs.Prelude.{◌≡◌, ◌<◌, None, length};
ghost use Rattle.serna_outside.specs.Outside.{raised, Reads, CountsRead};
ghost use Rattle.serna_outside.specs.Adapters.{HandsOnRead};
ghost use Rattle.serna_outside.specs.Counts.{faults_after_read};

use crate::{Got, Source};
use std::io::Read;
use std::marker::Model;

/// A reader of std as a source. As a source it does not tell what is left.
///
/// Contracts see it as a `ReaderState`: the reader, the count of calls, and the count of faults, one more at each error of
/// the reader, both up to 2^64 - 1. Where the reader tells its bytes, those that a read gives are the ones that the reader
/// lost. What a file, a pipe or a terminal gives is in no contract. A reader that gives nothing into a buffer with room has
/// come to its end.
#[derive(Debug, Drop)]
pub struct ReadSource<R> {
    reader: R,
    calls: u64,
    faults: u64,
}

impl<R> Model for ReadSource<R> {
    ghost use Rattle.serna_outside.specs.Adapters.{ReaderState};

    ghost Value = { ReaderState R };

    ghost view = { λ s. record { reader = s.reader; calls = s.calls; faults = s.faults } };
}

impl<R: Read> ReadSource<R> {
    /// A source over a reader, with no call and no fault so far.
    pub fn new(reader: R) -> ReadSource<R>
        ensures { result ≡ record { reader = reader; calls = 0; faults = 0 } }
    {
        ReadSource {
            reader,
            calls: 0,
            faults: 0,
        }
    }
}

impl<R: Read> Source for ReadSource<R> {
    ghost left = { λ s. None };

    ghost calls = { λ s. s.calls };

    ghost faults = { λ s. s.faults };

    /// One read of the reader. Each error is a fault, also one that asks to try again.
    fn read(&mut self, into: &mut [u8]) -> Got
        requires { 0 < length into.old }
        ensures bytes { Reads None None into.new result }
        ensures called { self.new.calls ≡ raised self.old.calls }
        ensures counted { CountsRead self.old.faults self.new.faults result }

        ensures faults { self.new.faults ≡ faults_after_read self.old.faults result }
        ensures handed_on { HandsOnRead (R.remaining self.old.reader) (R.remaining self.new.reader) into.new result }
    {
        self.calls = self.calls.saturating_add(1);
        match self.reader.read(into) {
            Ok(0) => Got::End,
            Ok(count) => Got::Bytes(count),
            Err(_) => {
                self.faults = self.faults.saturating_add(1);
                Got::Failed
            }
        }
    }
}
