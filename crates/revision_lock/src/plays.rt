//! What each step on the table tells.
ghost use Rattle.revision_lock.specs.Order.{draws, looks, counts, passes, reads, left_part, new_part, both, spent_view};

use crate::chronicle::Chronicle;
use crate::view::{Slot, View};
use atomic_table::{Join, Play, Split};

/// A ticket is drawn.
pub struct Draw;

impl<V, E> Play<Slot<V>, View<V, E>> for Draw {
    ghost then = { draws };
}

/// A look at the number that is served. Where it is the seat's ticket, the seat takes the value.
pub struct Look;

impl<V: Chronicle> Play<Slot<V>, View<V, V::Entry>> for Look {
    ghost then = { looks V.start V.list };
}

/// One entry is counted.
pub struct Count;

impl<V: Chronicle> Play<Slot<V>, View<V, V::Entry>> for Count {
    ghost then = { counts V.list };
}

/// The turn is passed on.
pub struct PassOn;

impl<V, E> Play<Slot<V>, View<V, E>> for PassOn {
    ghost then = { passes };
}

/// A look at the own entries, and at what was met in the last join.
pub struct Read;

impl<V, E> Play<Slot<V>, View<V, E>> for Read {
    ghost then = { reads };
}

/// One of a share goes to a new seat.
pub struct Cut;

impl<V, E> Split<View<V, E>> for Cut {
    ghost left = { left_part };

    ghost right = { new_part };
}

/// A seat's share and entries go to another.
pub struct Glue;

impl<V, E> Join<View<V, E>> for Glue {
    ghost both = { both };

    ghost spent = { spent_view };
}
