//! Maps that are kept under the numbers of their revisions, for all threads.

ghost use Rattle.std.specs.Prelude.{◌≡◌, IfOk, IfSome};
ghost use Rattle.frozen_tree.specs.Revisions.{IsKeptIn, IsSlotAt};

use crate::Frozen;
use boxcar::slot::{OnceSlot, SlotRule, Written};
use boxcar::tag::Tag;
use serna_kinds::NoMemory;
use std::alloc::{AllocError, Global};
use std::marker::Model;
use std::sync::atomic::{AtomicUsize, Ordering};

// Slots whose values keep no rule.
struct AnyValue;

impl<T> SlotRule<T> for AnyValue {
    ghost use Rattle.std.specs.Prelude.{⊤};

    ghost holds = { λ _ _. ⊤ };
}

type Slot<T> = OnceSlot<T, AnyValue>;

type Row = Vec<Slot<Frozen>>;

// How many rows there can be. Each is twice as long as the one before, so that memory ends before they do.
const ROWS: usize = 32;

const FIRST_ROW: usize = 64;

fn new_slots<T: Drop>(alloc: Global, count: usize) -> Result<Vec<Slot<T>>, NoMemory> {
    let mut slots = Vec::with_capacity(alloc, count)?;
    for _ in 0..count {
        slots.push(OnceSlot::new(&Tag::empty()))?;
    }
    Ok(slots)
}

// A slot by its number: its row, its place there, and how long that row is.
#[derive(Clone, Copy)]
struct Spot {
    row: usize,
    place: usize,
    length: usize,
}

impl Spot {
    // The rows follow one another. Past the last one the row is `ROWS`, which is not there.
    fn of(number: usize) -> Spot {
        let mut place = number;
        let mut length = FIRST_ROW;
        for row in 0..ROWS {
            if place < length {
                return Spot { row, place, length };
            }
            place -= length;
            length = length.saturating_mul(2);
        }
        Spot {
            row: ROWS,
            place,
            length,
        }
    }
}

/// What shows that [`Revisions`] keep a map under a number. It holds no map, and its copies show the same.
#[derive(Drop)]
pub struct Kept {
    revision: u64,
    row: usize,
    place: usize,
    made: Written<Row>,
    held: Written<Frozen>,
}

impl Model for Kept {
    ghost use Rattle.frozen_tree.specs.Revisions.{KeptMap, IsSlotAt};

    ghost Value = { KeptMap };

    ghost view = { λ k. record { revision = k.revision; source = k.held.value; row = k.row; name = k.made.of } };

    ghost invariant = { λ k. IsSlotAt k.made.value.items k.place k.held.of };
}

impl Kept {
    /// The number under which the map is kept.
    pub fn revision(&self) -> u64
        ensures { result ≡ self.now.revision }
    {
        self.revision
    }

    /// What shows the same. Takes no memory.
    pub fn again(&self) -> Kept
        ensures { result ≡ self.now }
    {
        Kept {
            revision: self.revision,
            row: self.row,
            place: self.place,
            made: self.made.again(),
            held: self.held.again(),
        }
    }
}

/// Maps that are kept for as long as this lasts, each under the number of its revision. Threads keep and read them through
/// one `&`, and no call waits for another thread.
#[derive(Drop)]
pub struct Revisions {
    rows: Vec<Slot<Row>>,
    // The number of the next slot. Each is given out once.
    next: AtomicUsize,
}

impl Model for Revisions {
    ghost use Rattle.std.specs.Prelude.{List};
    ghost use Rattle.std.specs.Coded.{coded_list};
    ghost use Rattle.boxcar.specs.Slot.{Named, named_coded};

    ghost Value = { List Named };

    ghost coded = { coded_list named_coded };

    ghost view = { λ r. r.rows.items };
}

impl Revisions {
    /// Nothing is kept yet. Contracts see what is kept by [`Kept`] alone.
    pub fn new(alloc: Global) -> Result<Revisions, NoMemory> {
        let rows = new_slots(alloc, ROWS)?;
        Ok(Revisions {
            rows,
            next: AtomicUsize::new(0),
        })
    }

    /// Keeps a map for good. The number may be one that other maps are kept under: what shows this map shows it alone.
    ///
    /// # Errors
    ///
    /// `NoMemory` where memory was refused. What was kept before stays.
    pub fn keep(&self, alloc: Global, revision: u64, source: Frozen) -> Result<Kept, NoMemory>
        ensures kept { IfOk result (λ kept. IsKeptIn self.now kept) }
        ensures revision { IfOk result (λ kept. kept.revision ≡ revision) }
        ensures source { IfOk result (λ kept. kept.source ≡ source) }
    {
        let (spot, made) = self.room(alloc)?;
        let slots = self.rows[spot.row].value(&made);
        // Each number is given out once, so that the slot is there and free.
        let Some(slot) = slots.get(spot.place) else {
            return Err(AllocError);
        };
        match slot.set_written(source) {
            Ok(held) => Ok(Kept {
                revision,
                row: spot.row,
                place: spot.place,
                made,
                held,
            }),
            Err(_) => Err(AllocError),
        }
    }

    /// The map that was kept, at any time and from any thread. Takes no memory.
    pub fn source(&self, kept: &Kept) -> &Frozen
        requires { IsKeptIn self.now kept.now }
        ensures { result.now ≡ kept.now.source }
    {
        let slots = self.rows[kept.row].value(&kept.made);
        slots[kept.place].value(&kept.held)
    }

    // A slot for the caller alone, and what shows that its row is there. Where another thread is making the row, the next row
    // serves, so that no one waits.
    fn room(&self, alloc: Global) -> Result<(Spot, Written<Row>), NoMemory>
        ensures { IfOk result (λ found. IsSlotAt self.now found.0.row found.1.of) }
    {
        for _ in 0..ROWS {
            let number = self.next.fetch_add(1, Ordering::SeqCst);
            let spot = Spot::of(number);
            if let Some(made) = self.row(alloc, spot)? {
                return Ok((spot, made));
            }
            let behind = number
                .saturating_sub(spot.place)
                .saturating_add(spot.length);
            self.next.fetch_max(behind, Ordering::SeqCst);
        }
        Err(AllocError)
    }

    // What shows that the row of a slot is there; this call makes it where it is not. None where another thread is making it.
    fn row(&self, alloc: Global, spot: Spot) -> Result<Option<Written<Row>>, NoMemory>
        ensures { IfOk result (λ found. IfSome found (λ made. IsSlotAt self.now spot.row made.of)) }
    {
        let Some(row) = self.rows.get(spot.row) else {
            return Err(AllocError);
        };
        if let Some(made) = row.witness() {
            return Ok(Some(made));
        }
        let slots = new_slots(alloc, spot.length)?;
        match row.set_written(slots) {
            Ok(made) => Ok(Some(made)),
            Err(_) => Ok(row.witness()),
        }
    }
}
