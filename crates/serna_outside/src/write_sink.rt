ghost use Rattle.std.specs.Prelude.{◌≡◌, ◌<◌, None, IsTrue, false, length};
ghost use Rattle.serna_outside.specs.Outside.{Writes, CountsWrite, CountsFinish};
ghost use Rattle.std.specs.Io.KnownBytes.{Keeps};
ghost use Rattle.serna_outside.specs.Adapters.{HandsOnWrite};
ghost use Rattle.serna_outside.specs.Counts.{faults_after_write, faults_after_finish};

use crate::{Put, Sink};
use std::io::Write;
use std::marker::Model;

/// A writer of std as a sink. As a sink it does not tell what it holds.
///
/// Contracts see it as a `WriterState`: the writer, the count of faults, one more at each error of the writer and each time
/// that it takes nothing of a piece, up to 2^64 - 1, and whether `finish` was the last call. Where the writer tells its
/// bytes, it gains those that a write took and no others. What a file, a pipe or a terminal holds is in no contract.
#[derive(Debug, Drop)]
pub struct WriteSink<W> {
    writer: W,
    faults: u64,
    finished: bool,
}

impl<W> Model for WriteSink<W> {
    ghost use Rattle.serna_outside.specs.Adapters.{WriterState};

    ghost Value = { WriterState W };

    ghost view = { λ s. record { writer = s.writer; faults = s.faults; finished = s.finished } };
}

impl<W: Write> WriteSink<W> {
    /// A sink over a writer, with no fault so far and not finished.
    pub fn new(writer: W) -> WriteSink<W>
        ensures { result ≡ record { writer = writer; faults = 0; finished = false } }
    {
        WriteSink {
            writer,
            faults: 0,
            finished: false,
        }
    }
}

impl<W: Write> Sink for WriteSink<W> {
    ghost held = { λ s. None };

    ghost faults = { λ s. s.faults };

    ghost is_finished = { λ s. s.finished };

    /// One write of the writer. Each error is a fault, also one that asks to try again, and so is an answer of 0.
    fn write(&mut self, piece: &[u8]) -> Put
        requires { 0 < length piece.now }
        ensures bytes { Writes None None piece.now result }
        ensures counted { CountsWrite self.old.faults self.new.faults result }
        ensures unfinished { self.new.finished ≡ false }

        ensures faults { self.new.faults ≡ faults_after_write self.old.faults result }
        ensures handed_on { HandsOnWrite (W.contents self.old.writer) (W.contents self.new.writer) piece.now result }
    {
        self.finished = false;
        let count = self.writer.write(piece).unwrap_or(0);
        if count == 0 {
            self.faults = self.faults.saturating_add(1);
            return Put::Failed;
        }
        Put::Took(count)
    }

    /// Flushes the writer.
    fn finish(&mut self) -> bool
        ensures counted { CountsFinish self.old.faults self.new.faults result }
        ensures finished { IsTrue self.new.finished }

        ensures faults { self.new.faults ≡ faults_after_finish self.old.faults result }
        ensures handed_on { Keeps (W.contents self.old.writer) (W.contents self.new.writer) }
    {
        self.finished = true;
        if self.writer.flush().is_err() {
            self.faults = self.faults.saturating_add(1);
            return false;
        }
        true
    }
}
