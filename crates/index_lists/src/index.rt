//! A number of a place or a list, or none, in four bytes.

ghost use Rattle.std.specs.Prelude.{◌≡◌, ◌+◌, ◌^◌, ◌<◌, Some, None};

use std::marker::Model;

/// The first number that an [`Index`] cannot hold, so that there are at most so many places and lists.
pub const NUMBERS: usize = u32::MAX as usize;

/// A number below [`NUMBERS`], or none. Clauses see it as the `Option` that it stands for.
#[derive(Clone, Copy)]
pub struct Index {
    /// One more than the number; 0 for none.
    code: u32,
}

impl Model for Index {
    ghost use Rattle.std.specs.Prelude.{ℕ, Option};

    ghost Value = { Option ℕ };

    ghost use Rattle.index_lists.specs.Index.{number_of, kept_for, kept_for-number_of};

    ghost view = { λ i. number_of i.code };

    ghost inverse = { kept_for };

    ghost inverse_ok = { λ i _. kept_for-number_of i };
}

impl Index {
    /// No number.
    pub fn none() -> Index
        ensures { result ≡ None }
    {
        Index { code: 0 }
    }

    /// A number.
    pub fn of(number: usize) -> Index
        requires { number + 1 < 2 ^ 32 }
        ensures { result ≡ Some number }
    {
        Index {
            code: number as u32 + 1,
        }
    }

    /// The number, if there is one.
    pub fn get(self) -> Option<usize>
        ensures { result ≡ self }
    {
        match self.code {
            0 => None,
            code => Some(code as usize - 1),
        }
    }
}
