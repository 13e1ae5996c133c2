//! What a seat of the lock's table knows, and what the table's slot holds.
use crate::chronicle::Chronicle;
use atomic_table::{Seat, Table, TableRule};
use std::alloc::Global;
use std::collections::LinkedList;
use std::snapshot::Snapshot;

/// Where a seat stands. A ticket is numbered without an end.
pub enum Stage {
    Idle,
    /// It has drawn this ticket.
    Waits(u64),
    /// Its ticket is served, and the value is out with it.
    Works(u64),
}

/// What a seat knows. No value of it is made.
pub struct View<V, E> {
    /// Its part of the right to close the lock. It is 0 of a pass that was joined to another.
    pub share: u64,
    pub stage: Stage,
    /// The value that the lock was made with. A pass that was joined to another has forgotten it.
    pub first: Option<V>,
    /// The entries that it has seen, a beginning of the one list.
    pub seen: LinkedList<E>,
    /// Of the two lists that its last join made into one, the shorter: a beginning of `seen`, until its next turn.
    pub met: LinkedList<E>,
    /// The entries that it noted, each with its place.
    pub own: LinkedList<(u64, E)>,
}

/// What the slot holds. While the value is out, the slot may show what it was at one moment, for the proofs alone.
#[derive(Drop)]
pub enum Slot<V> {
    Home(V),
    Away,
    Shown(Snapshot<V>),
}

/// What the table is told once: the value as the lock was made, and the number of seats.
pub struct Origin<V> {
    pub first: Snapshot<V>,
    pub seats: u32,
}

// By hand, since a derive would ask that V be `Drop`, and a snapshot has no value.
impl<V> Drop for Origin<V> {
    fn drop(self) {
        let Self { first: _, seats: _ } = self;
    }
}

/// The rule of the lock. Word 0 is the next ticket, word 1 the one that is served, and word 2 the number of entries.
pub struct Order;

impl<V: Chronicle> TableRule<Slot<V>, View<V, V::Entry>, Origin<V>> for Order {
    ghost use Rattle.revision_lock.specs.Order.{Ruled, first_view};

    ghost holds = { λ key. Ruled V.start V.list key.first.value key.seats };

    ghost first = { λ key. first_view key.first.value key.seats };
}

pub type Board<V> = Table<Slot<V>, View<V, <V as Chronicle>::Entry>, Origin<V>, Order, Global>;

pub type Place<V> = Seat<Slot<V>, View<V, <V as Chronicle>::Entry>>;
