ghost use Rattle.std.specs.Prelude.{◌≡◌, ◌+◌, ◌-◌, ◌^◌, min, [], true, false, Bool, Option, IsTrue, IfOk, OnOk, OnErr};
ghost use Rattle.std.specs.Option.{option_map};

use crate::{Cell, CellValue, NoMemory, SourceView};
use indexmap::IndexSet;
use std::alloc::Global;
use std::marker::Model;

/// What an evaluation read: its cells, each once and in the order of their first reading, how many reads there
/// were, and whether the instance's position or size was read.
#[derive(Debug, Drop)]
pub struct Tape {
    log: IndexSet<Cell>,
    reads: u64,
    place: bool,
}

impl Model for Tape {
    ghost use Rattle.serna_kinds.specs.Tape.{TapeValue};

    ghost Value = { TapeValue };

    ghost view = { λ t. record { cells = t.log.keys; count = t.reads; place_read = t.place } };
}

impl Tape {
    ghost use Rattle.serna_kinds.specs.declared.cells.Cell.{Cell};
    ghost use Rattle.serna_kinds.specs.Content.{Content, content_of};
    ghost use Rattle.serna_kinds.specs.Tape.{AreDistinctCells, Agrees, SeenBefore, Within, with_cell};

    /// The tape of an evaluation that read nothing yet. Takes no memory.
    pub fn new(alloc: Global) -> Tape
        ensures cells { result.cells ≡ [] }
        ensures count { result.count ≡ 0 }
        ensures place { result.place_read ≡ false }
    {
        Tape {
            log: IndexSet::new(alloc),
            reads: 0,
            place: false,
        }
    }

    /// Answers what the view answers, and notes the cell and one more read.
    ///
    /// The count stays at `u64::MAX` once it is there. After `NoMemory` the tape is as before.
    pub fn read<'v, V: SourceView>(
        &mut self,
        view: &'v V,
        cell: Cell,
    ) -> Result<Option<CellValue<'v>>, NoMemory>
        ensures value { IfOk result (λ found. option_map content_of found ≡ V.cells view.now cell) }
        ensures logged { OnOk result (self.new.cells ≡ with_cell self.old.cells cell) }
        ensures counted { OnOk result (self.new.count ≡ min (self.old.count + 1) (2 ^ 64 - 1)) }
        ensures place { self.new.place_read ≡ self.old.place_read }
        ensures err { OnErr result (self.new ≡ self.old) }

        // What agrees with the view on the new log agrees on the old one, and at the cell.
        ensures before { SeenBefore self.old.cells self.new.cells (V.cells view.now) }
        ensures agrees { OnOk result ((other : Cell → Option Content) → Agrees self.new.cells (V.cells view.now) other → other cell ≡ V.cells view.now cell) }

        // The log stays within each bound that the cell meets.
        ensures within { (allowed : Cell → Bool) → Within allowed self.old.cells → IsTrue (allowed cell) → Within allowed self.new.cells }
    {
        self.log.insert(cell)?;
        self.reads = self.reads.saturating_add(1);
        Ok(view.read(cell))
    }

    /// The log: the cells that were read, in the order of their first reading.
    pub fn cells(&self) -> &[Cell]
        ensures cells { result.now ≡ self.now.cells }
        ensures distinct { AreDistinctCells self.now.cells }
    {
        self.log.as_slice()
    }

    /// How many reads there were.
    pub fn count(&self) -> u64
        ensures { result ≡ self.now.count }
    {
        self.reads
    }

    /// Notes that the instance's position or size was read.
    pub fn note_place(&mut self)
        ensures { self.new ≡ record self.old { place_read = true } }
    {
        self.place = true;
    }

    /// Whether the instance's position or size was read.
    pub fn place_read(&self) -> bool
        ensures { result ≡ self.now.place_read }
    {
        self.place
    }
}
