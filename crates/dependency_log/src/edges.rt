//! The edges between cells and slots, by their numbers.

ghost use Rattle.std.specs.Prelude.{◌≡◌, ◌+◌, ◌<◌, ◌≤◌, ◌++◌, ◌∷◌, [], false, length, All, Contains, IfSome, IfOk, OnOk, ◌^◌};
ghost use Rattle.std.specs.List.{list_any};
ghost use Rattle.index_lists.specs.Lists.{first_of, place_after};
ghost use Rattle.index_lists.specs.Threads.{left_count, right_count, left_list, left_of, IsLive};
ghost use Rattle.serna_kinds.specs.Tape.{is_cell, AreDistinctCells};
ghost use Rattle.dependency_log.specs.Logged.{nothing, each_once};
ghost use Rattle.dependency_log.specs.Edges.{cell_number, slot_of, cells_in, log_of, IsSound, IsSameBut};

use crate::log::NoMemory;
use index_lists::Threads;
use indexmap::IndexSet;
use serna_kinds::Cell;
use std::alloc::Global;

/// An item for each edge, in the left list of its cell and in the right list of its slot.
#[derive(Drop)]
pub struct Edges {
    /// The cells that were ever named. The number of a cell is its place among them.
    pub cells: IndexSet<Cell>,
    /// The slots that were ever named, and so their numbers.
    pub slots: IndexSet<u64>,
    pub threads: Threads,
}

/// Each of some cells once, in the order in which they are first named.
pub fn named_once(alloc: Global, cells: &[Cell]) -> Result<IndexSet<Cell>, NoMemory>
    ensures once { IfOk result (λ named. named.keys ≡ each_once cells.now) }
    ensures distinct { IfOk result (λ named. AreDistinctCells named.keys) }
{
    let mut named = IndexSet::new(alloc);
    for cell in cells {
        named.insert(*cell)?;
    }
    Ok(named)
}

impl Edges {
    /// No edge, and no number. It takes no memory.
    pub fn new(alloc: Global) -> Edges
        ensures sound { IsSound result }
        ensures empty { log_of result ≡ nothing }
    {
        Edges {
            cells: IndexSet::new(alloc),
            slots: IndexSet::new(alloc),
            threads: Threads::new(alloc),
        }
    }

    /// Gives numbers to a slot and to cells, and makes room for an edge to each of the cells. The edges stay.
    pub fn prepare(&mut self, alloc: Global, slot: u64, cells: &[Cell]) -> Result<(), NoMemory>
        requires { IsSound self.old }

        ensures slot { OnOk result (Contains self.new.slots.keys slot) }
        ensures cells { OnOk result (All (Contains self.new.cells.keys) cells.now) }
        ensures room { OnOk result (length cells.now ≤ self.new.threads.spare) }
        ensures same { log_of self.new ≡ log_of self.old }
        ensures sound { IsSound self.new }
    {
        self.reserve(alloc, cells.len())?;
        self.name_slot(slot)?;
        self.name_cells(cells)?;
        Ok(())
    }

    /// Makes room for so many edges and cells, and for a slot.
    fn reserve(&mut self, alloc: Global, cells: usize) -> Result<(), NoMemory>
        requires sound { IsSound self.old }
        requires few { cells < 2 ^ 63 }

        ensures edges { OnOk result (cells ≤ self.new.threads.spare) }
        ensures lefts { OnOk result (length self.new.cells.keys + cells ≤ left_count self.new.threads) }
        ensures rights { OnOk result (length self.new.slots.keys + 1 ≤ right_count self.new.threads) }
        ensures same { log_of self.new ≡ log_of self.old }
        ensures sound { IsSound self.new }
    {
        let lefts = self.cells.len() + cells;
        let rights = self.slots.len() + 1;
        self.threads.reserve(alloc, cells, lefts, rights)
    }

    /// Gives a number to a slot that has none.
    fn name_slot(&mut self, slot: u64) -> Result<(), NoMemory>
        requires sound { IsSound self.old }
        requires room { length self.old.slots.keys + 1 ≤ right_count self.old.threads }

        ensures slot { OnOk result (Contains self.new.slots.keys slot) }
        ensures cells { self.new.cells.keys ≡ self.old.cells.keys }
        ensures threads { self.new.threads ≡ self.old.threads }
        ensures same { log_of self.new ≡ log_of self.old }
        ensures sound { IsSound self.new }
    {
        self.slots.insert(slot)?;
        Ok(())
    }

    /// Gives a number to each of some cells that has none.
    fn name_cells(&mut self, cells: &[Cell]) -> Result<(), NoMemory>
        requires sound { IsSound self.old }
        requires room { length self.old.cells.keys + length cells.now ≤ left_count self.old.threads }

        ensures cells { OnOk result (All (Contains self.new.cells.keys) cells.now) }
        ensures slots { self.new.slots.keys ≡ self.old.slots.keys }
        ensures threads { self.new.threads ≡ self.old.threads }
        ensures same { log_of self.new ≡ log_of self.old }
        ensures sound { IsSound self.new }
    {
        for cell in cells {
            self.name_cell(*cell)?;
        }
        Ok(())
    }

    /// Gives a number to a cell that has none.
    fn name_cell(&mut self, cell: Cell) -> Result<(), NoMemory>
        requires sound { IsSound self.old }
        requires room { length self.old.cells.keys + 1 ≤ left_count self.old.threads }

        ensures cell { OnOk result (Contains self.new.cells.keys cell) }
        ensures others { (other : Cell) → Contains self.old.cells.keys other → Contains self.new.cells.keys other }
        ensures count { length self.new.cells.keys ≤ length self.old.cells.keys + 1 }
        ensures slots { self.new.slots.keys ≡ self.old.slots.keys }
        ensures threads { self.new.threads ≡ self.old.threads }
        ensures same { log_of self.new ≡ log_of self.old }
        ensures sound { IsSound self.new }
    {
        self.cells.insert(cell)?;
        Ok(())
    }

    /// Takes away the edges of a slot.
    pub fn clear(&mut self, slot: u64)
        requires { IsSound self.old }

        ensures empty { cells_in self.new slot ≡ [] }
        ensures same { IsSameBut self.old self.new slot }
        ensures nothing { cells_in self.old slot ≡ [] → log_of self.new ≡ log_of self.old }
        ensures room { self.old.threads.spare ≤ self.new.threads.spare }
        ensures sound { IsSound self.new }
    {
        if let Some(number) = self.slots.get_index_of(&slot) {
            self.threads.clear_right(number);
        }
    }

    /// Makes an edge from a slot that has none to each of some cells.
    pub fn connect(&mut self, slot: u64, cells: &[Cell])
        requires sound { IsSound self.old }
        requires slot { Contains self.old.slots.keys slot }
        requires cells { All (Contains self.old.cells.keys) cells.now }
        requires distinct { AreDistinctCells cells.now }
        requires empty { cells_in self.old slot ≡ [] }
        requires room { length cells.now ≤ self.old.threads.spare }

        ensures cells { cells_in self.new slot ≡ cells.now }
        ensures same { IsSameBut self.old self.new slot }
        ensures sound { IsSound self.new }
    {
        for cell in cells {
            self.connect_one(slot, *cell);
        }
    }

    /// Makes an edge from a slot to a cell that it does not have.
    fn connect_one(&mut self, slot: u64, cell: Cell)
        requires sound { IsSound self.old }
        requires slot { Contains self.old.slots.keys slot }
        requires cell { Contains self.old.cells.keys cell }
        requires apart { list_any (is_cell cell) (cells_in self.old slot) ≡ false }
        requires room { 1 ≤ self.old.threads.spare }

        ensures cells { cells_in self.new slot ≡ cells_in self.old slot ++ cell ∷ [] }
        ensures same { IsSameBut self.old self.new slot }
        ensures room { self.new.threads.spare + 1 ≡ self.old.threads.spare }
        ensures sound { IsSound self.new }
    {
        let left = self.cells.get_index_of(&cell).unwrap();
        let right = self.slots.get_index_of(&slot).unwrap();
        self.threads.push_back(left, right);
    }

    /// The first edge of a cell; `None` where it has none.
    pub fn first(&self, cell: Cell) -> Option<usize>
        requires { IsSound self.now }
        ensures first { result ≡ first_of (left_list self.now.threads (cell_number self.now cell)) }
        ensures edge { IfSome result (IsLive self.now.threads) }
    {
        let left = self.cells.get_index_of(&cell)?;
        self.threads.first_left(left)
    }

    /// The edge behind an edge in the list of its cell.
    pub fn next(&self, place: usize) -> Option<usize>
        requires { IsLive self.now.threads place }
        ensures next { result ≡ place_after place (left_list self.now.threads (left_of self.now.threads place)) }
        ensures edge { IfSome result (IsLive self.now.threads) }
        ensures cell { IfSome result (λ next. left_of self.now.threads next ≡ left_of self.now.threads place) }
    {
        self.threads.next_left(place)
    }

    /// The slot of an edge.
    pub fn slot(&self, place: usize) -> u64
        requires sound { IsSound self.now }
        requires edge { IsLive self.now.threads place }
        ensures { result ≡ slot_of self.now place }
    {
        let (_, right) = self.threads.item(place);
        self.slots.as_slice()[right]
    }
}
