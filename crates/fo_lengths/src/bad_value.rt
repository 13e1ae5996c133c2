use std::error::Error;
use std::fmt;

/// The text is no value of the grammar that it was read by.
#[derive(Clone, Copy, Debug, PartialEq, Eq)]
pub struct BadValue;

impl fmt::Display for BadValue {
    fn fmt<W: fmt::Write>(&self, f: &mut fmt::Formatter<W>) -> fmt::Result {
        write!(f, "not a value of this property")
    }
}

impl Error for BadValue {}
