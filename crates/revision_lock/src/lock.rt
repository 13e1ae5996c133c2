//! The lock and its passes.
ghost use Rattle.std.specs.Prelude.{◌≡◌, ◌+◌, ◌<◌, ◌≤◌, [], ◌∷◌, IfOk, IfErr};
ghost use Rattle.revision_lock.specs.declared.view.Slot.TheVariants.{Home};
ghost use mathlib.Core.List.{IsPrefix};

use crate::chronicle::Chronicle;
use crate::plays::{Cut, Glue, Read};
use crate::view::{Board, Origin, Place, Slot};
use atomic_table::{Refused, Table};
use std::alloc::{AllocError, Global};
use std::snapshot::Snapshot;

/// Memory ran out.
pub type NoMemory = AllocError;

/// A lock over one value. Its turns come one after another, and what they add to the value's list is one history.
/// Close it with `close`: where it is dropped, the value is dropped too.
#[derive(Drop)]
pub struct TurnLock<V: Chronicle> {
    pub(crate) board: Board<V>,
    ghost shaped: { (board.shared.table_id.words ≡ 3) × (board.shared.table_id.slots ≡ 1) },
}

/// What one thread knows of the history: its share of the seats, the entries that it has seen, and those that are its own.
/// It has no bytes. The shares of all passes of a lock add up to the lock's seats, so the lock cannot be closed once a pass was dropped.
#[derive(Drop)]
pub struct Pass<V: Chronicle> {
    pub(crate) place: Place<V>,
}

impl<V: Chronicle> TurnLock<V> {
    ghost use Rattle.revision_lock.specs.Histories.{AreApart, IsInOrder, numbered, merged, longer};
    ghost use Rattle.revision_lock.specs.Passes.{IsPassOf, first_value, seats_of, share_of, seen_by, own_of};

    /// A lock over the value, and its first pass, which has the whole share of `seats`: there can be so many passes at once.
    /// The value comes back where memory runs out.
    pub fn new(alloc: Global, value: V, seats: u32) -> Result<(TurnLock<V>, Pass<V>), (V, NoMemory)>
        requires seats { 0 < seats }
        requires empty { V.list value ≡ [] }
        ensures pass { IfOk result (λ r. IsPassOf r.0 r.1) }
        ensures first { IfOk result (λ r. first_value r.0 ≡ value) }
        ensures share { IfOk result (λ r. (seats_of r.0 ≡ seats) × (share_of r.1 ≡ seats)) }
        ensures nothing { IfOk result (λ r. (seen_by r.1 ≡ []) × (own_of r.1 ≡ [])) }
        ensures err { IfErr result (λ e. e.0 ≡ value) }
    {
        let about = Origin {
            first: Snapshot::of(&value),
            seats,
        };
        let slots = match slots_with(alloc, value) {
            Ok(slots) => slots,
            Err(value) => return Err((value, AllocError)),
        };
        match Table::new(alloc, &[0, 0, 0], slots, &about) {
            Ok((board, place)) => Ok((TurnLock { board }, Pass { place })),
            Err(Refused { slots }) => Err((value_in(slots), AllocError)),
        }
    }

    /// Gives one of the pass's share to a new pass, which has seen the same and owns no entry.
    pub fn split_pass(&self, pass: &mut Pass<V>) -> Pass<V>
        requires pass { IsPassOf self.now pass.old }
        requires share { 2 ≤ share_of pass.old }
        ensures pass { IsPassOf self.now pass.new }
        ensures kept { (seen_by pass.new ≡ seen_by pass.old) × (own_of pass.new ≡ own_of pass.old) }
        ensures share { share_of pass.new + 1 ≡ share_of pass.old }
        ensures new_pass { IsPassOf self.now result }
        ensures new_kept { (seen_by result ≡ seen_by pass.old) × (own_of result ≡ []) }
        ensures new_share { share_of result ≡ 1 }
    {
        Pass {
            place: self.board.shared.split_seat::<Cut>(&mut pass.place),
        }
    }

    /// Gives the other pass's share and entries to the pass, which has then seen the longer of their two lists. Both lists
    /// are beginnings of it, so that nothing seen is forgotten. No entry was noted by both.
    pub fn join_pass(&self, pass: &mut Pass<V>, other: Pass<V>)
        requires pass { IsPassOf self.now pass.old }
        requires other { IsPassOf self.now other }
        ensures pass { IsPassOf self.now pass.new }
        ensures share { share_of pass.new ≡ share_of pass.old + share_of other }
        ensures seen { seen_by pass.new ≡ longer (seen_by pass.old) (seen_by other) }
        ensures remembers { IsPrefix (seen_by pass.old) (seen_by pass.new) }
        ensures learns { IsPrefix (seen_by other) (seen_by pass.new) }
        ensures own { own_of pass.new ≡ merged (own_of pass.old) (own_of other) }
        ensures in_order { IsInOrder (own_of pass.new) }
        ensures apart { AreApart (own_of pass.old) (own_of other) }
    {
        let Pass { place } = other;
        let shared = &self.board.shared;
        shared.join_seat::<Glue>(&mut pass.place, place);
        shared.load::<Read>(&mut pass.place, 0);
    }

    /// The value, once the one pass that is left has the whole share.
    pub fn close(self, pass: Pass<V>) -> V
        requires pass { IsPassOf self pass }
        requires share { share_of pass ≡ seats_of self }
        ensures start { V.start result ≡ V.start (first_value self) }
        ensures seen { IsPrefix (seen_by pass) (V.list result) }
        ensures own { own_of pass ≡ numbered (V.list result) }
    {
        let TurnLock { board } = self;
        let Pass { place } = pass;
        let mut closed = board.close_with(place);
        let Slot::Home(value) = closed.take(0) else {
            unreachable!()
        };
        closed.free();
        value
    }
}

// A list of one slot, which has the value.
fn slots_with<V>(alloc: Global, value: V) -> Result<Vec<Slot<V>>, V>
    ensures ok { IfOk result (λ slots. slots.items ≡ Home value ∷ []) }
    ensures err { IfErr result (λ x. x ≡ value) }
{
    let Ok(mut slots) = Vec::with_capacity(alloc, 1) else {
        return Err(value);
    };
    slots.push_reserved(Slot::Home(value));
    Ok(slots)
}

fn value_in<V>(mut slots: Vec<Slot<V>>) -> V
    requires { (x : V) × (slots.items ≡ Home x ∷ []) }
    ensures { slots.items ≡ Home result ∷ [] }
{
    let Some(Slot::Home(value)) = slots.pop() else {
        unreachable!()
    };
    slots.destroy_empty();
    value
}
