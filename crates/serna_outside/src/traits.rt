ghost use Rattle.std.specs.Prelude.{◌≡◌, ℕ, ◌<◌, length, Bool, IsTrue, false, List, Option};
ghost use Rattle.serna_outside.specs.Outside.{raised, Reads, CountsRead, Writes, CountsWrite, CountsFinish};

/// What a read gave: so many bytes at the front of the buffer, the end of the source, or a fault.
#[derive(Clone, Copy, Debug, PartialEq, Eq)]
pub enum Got {
    Bytes(usize),
    End,
    Failed,
}

/// What a write took: so many bytes of the front of the piece, or a fault.
#[derive(Clone, Copy, Debug, PartialEq, Eq)]
pub enum Put {
    Took(usize),
    Failed,
}

/// Where bytes come from.
pub trait Source {
    /// The bytes that are left, None where the source does not tell.
    ghost left: { Self → Option (List ℕ) };

    /// How many calls of `read` there were so far, up to 2^64 - 1.
    ghost calls: { Self → ℕ };

    /// How many faults there were so far, up to 2^64 - 1. The count never falls.
    ghost faults: { Self → ℕ };

    /// Reads some of the bytes that are left into the front of a buffer that is not empty.
    ///
    /// `Bytes(n)` gives 1 to `into.len()` bytes, the front of what was left. `End` comes only where nothing is left.
    /// After `End` or `Failed` what is left is the same. `Failed` comes only where the count of faults rises; with any other
    /// answer that count stays. Each answer is one call more.
    fn read(&mut self, into: &mut [u8]) -> Got
        requires { 0 < length into.old }
        ensures bytes { Reads (left self.old) (left self.new) into.new result }
        ensures called { calls self.new ≡ raised (calls self.old) }
        ensures counted { CountsRead (faults self.old) (faults self.new) result };
}

/// Where bytes go.
pub trait Sink {
    /// The bytes that the sink holds, None where it does not tell.
    ghost held: { Self → Option (List ℕ) };

    /// How many faults there were so far, up to 2^64 - 1. The count never falls.
    ghost faults: { Self → ℕ };

    /// Whether `finish` was the last call, whatever it answered.
    ghost is_finished: { Self → Bool };

    /// Appends a prefix of a piece that is not empty.
    ///
    /// `Took(n)` appends the first `n` bytes of the piece, 1 to `piece.len()` of them, and the count of faults stays. After
    /// `Failed` what is held is the same, and the count of faults has risen. After either answer the sink is not finished.
    fn write(&mut self, piece: &[u8]) -> Put
        requires { 0 < length piece.now }
        ensures bytes { Writes (held self.old) (held self.new) piece.now result }
        ensures counted { CountsWrite (faults self.old) (faults self.new) result }
        ensures unfinished { is_finished self.new ≡ false };

    /// Tells the sink that nothing more comes: true where all went well. What is held stays the same, and the count of faults
    /// stays with true and rises with false. After either answer the sink is finished, until the next write.
    fn finish(&mut self) -> bool
        ensures held { held self.new ≡ held self.old }
        ensures counted { CountsFinish (faults self.old) (faults self.new) result }
        ensures finished { IsTrue (is_finished self.new) };
}
