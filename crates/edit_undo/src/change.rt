//! One change of a source, as a history keeps it.

use serna_kinds::Items;
use source_primitives::{Caret, Primitive};

/// A change of a source: what it does, what takes it back, and where the caret was before it and is after it.
#[derive(Debug, Drop)]
pub struct Change {
    /// What the change does, one primitive after another.
    pub prims: Items<Primitive>,
    /// What takes each of them back, in their order: an undo applies the last one first.
    pub inverses: Items<Primitive>,
    /// The caret before the change, `None` where there was none.
    pub before: Option<Caret>,
    /// The caret after the change, `None` where there is none.
    pub after: Option<Caret>,
}
