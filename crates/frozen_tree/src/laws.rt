//! Laws of maps, stamps and changes.

ghost use Rattle.std.specs.Prelude.{◌≡◌, ◌<◌, ◌≤◌, ◌↔◌, ◌++◌, ◌∷◌, [], ℕ, false, Some, None, List, IsTrue, codes};
ghost use Rattle.serna_kinds.specs.declared.cells.Cell.{Cell};
ghost use Rattle.serna_kinds.specs.Content.{Text};
ghost use Rattle.frozen_tree.specs.declared.kept.CellChange.{CellChange};
ghost use Rattle.frozen_tree.specs.Maps.{CellMap, Stamps, nothing, no_stamps, left_by, changed_by, names, stamped_by, Revision, map_after, stamps_after, named_in, AreLater, AreRising, Tells};
ghost use Rattle.frozen_tree.specs.Examples.{text_cell, puts, takes_out};

/// A cell that no change names keeps its value and its stamp.
pub fn unnamed_cells_stay()
    ensures value { (changes : List CellChange) (map : CellMap) (cell : Cell) → names changes cell ≡ false → changed_by changes map cell ≡ map cell }
    ensures stamp { (revision : ℕ) (changes : List CellChange) (stamps : Stamps) (cell : Cell) → names changes cell ≡ false → stamped_by revision changes stamps cell ≡ stamps cell }
{}

/// The last change that names a cell says its value.
pub fn last_change_says()
    ensures { (before after : List CellChange) (change : CellChange) (map : CellMap) → names after change.cell ≡ false → changed_by (before ++ change ∷ after) map change.cell ≡ left_by change }
{}

/// What stamps tell of a map that was kept at a revision: a cell whose stamp is not later has the value that it had there.
pub fn stamps_tell()
    // So it is of the map itself, with whatever stamps.
    ensures at_first { (number : ℕ) (map : CellMap) (stamps : Stamps) → Tells number map stamps map }
    // It stays so when cells are changed at a later revision.
    ensures step { (number revision : ℕ) (changes : List CellChange) (old now : CellMap) (stamps : Stamps) → number < revision →
        Tells number old stamps now → Tells number old (stamped_by revision changes stamps) (changed_by changes now) }
    // So it is after any later revisions.
    ensures chain { (number : ℕ) (later : List Revision) (map : CellMap) (stamps : Stamps) → AreLater number later →
        Tells number map (stamps_after later stamps) (map_after later map) }
    // And so, where revisions rise, the last stamps tell of the map after each of them.
    ensures whole { (before later : List Revision) (r : Revision) (map : CellMap) (stamps : Stamps) → AreRising (before ++ r ∷ later) →
        Tells r.number (map_after (before ++ r ∷ []) map) (stamps_after (before ++ r ∷ later) stamps) (map_after (before ++ r ∷ later) map) }
{}

/// A cell's stamp is later than a revision exactly where a change at a later one named the cell.
pub fn late_stamps_are_named()
    ensures { (number : ℕ) (later : List Revision) (stamps : Stamps) (cell : Cell) → AreLater number later → stamps cell ≤ number →
        ((number < stamps_after later stamps cell) ↔ IsTrue (named_in later cell)) }
{}

/// Changes of the texts of two nodes, in the empty map.
pub fn examples()
    ensures put { changed_by (puts 7 (codes "a") ∷ []) nothing (text_cell 7) ≡ Some (Text (codes "a")) }
    ensures neighbour { changed_by (puts 7 (codes "a") ∷ []) nothing (text_cell 8) ≡ None }
    ensures taken_out { changed_by (puts 7 (codes "a") ∷ takes_out 7 ∷ []) nothing (text_cell 7) ≡ None }
    ensures put_again { changed_by (puts 7 (codes "a") ∷ takes_out 7 ∷ puts 7 (codes "b") ∷ []) nothing (text_cell 7) ≡ Some (Text (codes "b")) }
    ensures stamp { stamped_by 5 (takes_out 7 ∷ []) no_stamps (text_cell 7) ≡ 5 }
    ensures other_stamp { stamped_by 5 (takes_out 7 ∷ []) no_stamps (text_cell 8) ≡ 0 }
{}
