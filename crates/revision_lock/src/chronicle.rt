//! What the lock knows of the value that it keeps.
ghost use Rattle.std.specs.Prelude.{◌≡◌, List, length};

/// A value that has a start and a list of entries, which are numbered from 0.
pub trait Chronicle {
    /// What a start is to a contract. No value of it is made.
    type Start;

    /// What an entry is to a contract. No value of it is made.
    type Entry;

    ghost start: { Self → Self.Start };

    ghost list: { Self → List Self.Entry };

    /// The number of entries.
    fn entries(&self) -> u64
        ensures { result ≡ length (list self.now) };
}
