//! One turn of the lock.
ghost use Rattle.std.specs.Prelude.{◌≡◌, ◌+◌, ◌%◌, ◌^◌, [], ◌∷◌, ◌++◌, length, Some};
ghost use Rattle.std.specs.Borrow.{sem};
ghost use mathlib.Core.List.{IsPrefix};
ghost use Rattle.revision_lock.specs.Passes.{IsPassOf, HasTurn, IsTurnOf, IsOut, first_value, share_of, seen_by, own_of, value_in, noted_in, own_in, share_in, borrowed_by, lock_of, HasCome, HasHome, IsSameView, LendsValue};
ghost use Rattle.revision_lock.specs.declared.view.Slot.TheVariants.{Home};

use crate::chronicle::Chronicle;
use crate::lock::{Pass, TurnLock};
use crate::plays::{Count, Draw, Look, PassOn};
use crate::view::Slot;
use std::snapshot::Snapshot;
use std::sync::Wait;

/// A turn of a lock, with the value. It cannot be dropped, and ends by `leave` alone.
pub struct Turn<'l, V: Chronicle> {
    pass: &'l mut Pass<V>,
    lock: &'l TurnLock<V>,
    value: V,
}

impl<V: Chronicle> TurnLock<V> {
    /// Waits for a turn. The value has the lock's start, and its list begins with all that the pass had seen.
    pub fn enter<'l, R: Wait>(&'l self, rt: &R, pass: &'l mut Pass<V>) -> Turn<'l, V>
        requires { IsPassOf self.now pass.old }
        ensures turn { IsTurnOf self.now result }
        ensures same_pass { borrowed_by result ≡ pass.entry.ghost_name }
        ensures start { V.start (value_in result) ≡ V.start (first_value self.now) }
        ensures list { V.list (value_in result) ≡ noted_in result }
        ensures seen { IsPrefix (seen_by pass.old) (noted_in result) }
        ensures own { own_in result ≡ own_of pass.old }
        ensures share { share_in result ≡ share_of pass.old }
    {
        self.await_turn(rt, pass);
        let value = self.take_value(pass);
        Turn {
            pass,
            lock: self,
            value,
        }
    }

    // Draws a ticket, and waits until it is served.
    fn await_turn<R: Wait>(&self, rt: &R, pass: &mut Pass<V>)
        requires { IsPassOf self.now pass.old }
        ensures { (x : V) × HasCome V.start V.list self.now pass.old pass.new x }
    {
        let shared = &self.board.shared;
        let ticket = shared.fetch_add::<Draw>(&mut pass.place, 0, 1);
        for _ in rt.forever() {
            let serving = shared.load::<Look>(&mut pass.place, 1);
            if serving == ticket {
                return;
            }
            shared.park(rt, 1, (serving & 0xffff_ffff) as u32);
        }
        unreachable!()
    }

    // The value leaves its slot.
    fn take_value(&self, pass: &mut Pass<V>) -> V
        requires { (x : V) × HasHome self.now pass.old x }
        ensures turn { HasTurn self.now pass.new }
        ensures value { HasHome self.now pass.old result }
        ensures same { IsSameView pass.old pass.new }
    {
        match self.board.shared.exchange(&mut pass.place, 0, Slot::Away) {
            Slot::Home(value) => value,
            Slot::Away | Slot::Shown(_) => unreachable!(),
        }
    }

    // The value comes back to its slot.
    fn put_back(&self, pass: &mut Pass<V>, value: V)
        requires { HasTurn self.now pass.old }
        ensures home { HasHome self.now pass.new value }
        ensures same { IsSameView pass.old pass.new }
    {
        match self
            .board
            .shared
            .exchange(&mut pass.place, 0, Slot::Home(value))
        {
            Slot::Home(_) => unreachable!(),
            Slot::Away | Slot::Shown(_) => (),
        }
    }
}

impl<'l, V: Chronicle> Turn<'l, V> {
    /// The value, to be read and changed.
    pub fn value<'t>(&'t mut self) -> &'t mut V
        ensures* writes_back { sem 𝓛 (LendsValue V.row V.Start.row V.Entry.row V.Chronicle self.entry result) }
        ensures value { result.now ≡ value_in self.old }
    {
        &mut self.value
    }

    /// Counts the entry by which the list has grown since the entry or the last note. It is the pass's own.
    pub fn note(&mut self)
        requires turn { IsTurnOf (lock_of self.old) self.old }
        requires grown { (e : V.Entry) × (V.list (value_in self.old) ≡ noted_in self.old ++ e ∷ []) }
        ensures turn { IsTurnOf (lock_of self.old) self.new }
        ensures same_pass { borrowed_by self.new ≡ borrowed_by self.old }
        ensures value { value_in self.new ≡ value_in self.old }
        ensures list { noted_in self.new ≡ V.list (value_in self.old) }
        ensures own { (e : V.Entry) → V.list (value_in self.old) ≡ noted_in self.old ++ e ∷ [] → own_in self.new ≡ own_in self.old ++ (length (noted_in self.old), e) ∷ [] }
        ensures share { share_in self.new ≡ share_in self.old }
    {
        // The word is the holder's alone during the turn, so the exchange does not fail. It shows the value, so that the step can name the entry.
        let count = self.value.entries();
        let shown = Slot::Shown(Snapshot::of(&self.value));
        let pass = &mut *self.pass;
        self.lock
            .board
            .shared
            .compare_exchange_with::<Count>(&mut pass.place, 2, count - 1, count, &shown);
        let Slot::Shown(_) = shown else {
            unreachable!()
        };
    }

    /// Ends the turn. The list must be the one of the entry or the last note, and the start the lock's. The pass has then seen the whole list.
    pub fn leave(self)
        requires turn { IsTurnOf (lock_of self) self }
        requires list { V.list (value_in self) ≡ noted_in self }
        requires start { V.start (value_in self) ≡ V.start (first_value (lock_of self)) }
        ensures pass { IsPassOf (lock_of self.entry) self.exit.0.now }
        ensures seen { seen_by self.exit.0.now ≡ V.list (value_in self.entry) }
        ensures own { own_of self.exit.0.now ≡ own_in self.entry }
        ensures share { share_of self.exit.0.now ≡ share_in self.entry }
    {
        let Turn { pass, lock, value } = self;
        lock.put_back(pass, value);
        lock.board.shared.fetch_add::<PassOn>(&mut pass.place, 1, 1);
        lock.board.shared.wake_all(1);
    }
}
