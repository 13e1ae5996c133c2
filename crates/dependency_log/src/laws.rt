//! Laws of logs. Each function has an empty body, and its contract is the law.

ghost use Rattle.std.specs.Prelude.{◌↔◌, ℕ, List, IsTrue, Contains};
ghost use Rattle.serna_kinds.specs.declared.cells.Cell.{Cell};
ghost use Rattle.serna_kinds.specs.Tape.{AreDistinctCells};
ghost use Rattle.dependency_log.specs.Logged.{each_once, has_cell};
ghost use Rattle.dependency_log.specs.History.{Event, cells_after, LastNames};

/// After each history of puts and drops, a slot has a cell exactly where its last put named the cell and it was not
/// dropped since.
pub fn the_last_put_tells()
    ensures { (history : List Event) (slot : ℕ) (cell : Cell) → IsTrue (has_cell (cells_after history) slot cell) ↔ LastNames history slot cell }
{}

/// `each_once` has the cells that are named, and no cell twice.
pub fn a_cell_named_twice_is_one()
    ensures same { (cells : List Cell) (cell : Cell) → Contains (each_once cells) cell ↔ Contains cells cell }
    ensures distinct { (cells : List Cell) → AreDistinctCells (each_once cells) }
{}
