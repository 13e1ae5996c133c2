ghost use Rattle.std.specs.Prelude.{◌≡◌, ◌+◌, ◌≤◌, pos, map, length, IfOk};
ghost use Rattle.std.specs.List.{All};
ghost use Rattle.fo_tables.specs.Cells.{IsSpan};
ghost use Rattle.fo_tables.specs.Heights.{tall_cells, greatest, heights_of};
ghost use Rattle.fo_tables.specs.Needs.{still_needed, empty_rows, IsByLastRow};

use crate::cells::GridCell;
use crate::sizes::size;
use serna_kinds::{Items, NoMemory};
use std::alloc::Global;

/// The heights of so many rows of a part of a table, in millipoints, from its cells and the heights that their contents
/// need. In order from the first, each row is as high as the cells that end in it need beyond the earlier rows that they
/// span. (CSS 2, 17.5.3.)
pub fn row_heights(
    alloc: Global,
    cells: &[GridCell],
    heights: &[i64],
    rows: usize,
) -> Result<Items<i64>, NoMemory>
    requires spans { All (λ cell. IsSpan cell.span) cells.now }
    requires heights { length heights.now ≡ length cells.now }
    requires within { All (λ cell. cell.row + cell.span.rows ≤ rows) cells.now }
    ensures { IfOk result (λ found. found ≡ map pos (heights_of (tall_cells cells.now heights.now) rows)) }
{
    let ending = by_last_row(alloc, cells, heights, rows)?;
    let mut earlier = Items::new(alloc);
    let mut found = Items::new(alloc);
    for needs in &ending {
        let height = row_height(needs.as_slice(), earlier.as_slice());
        earlier.push(height)?;
        found.push(height as i64)?;
    }
    Ok(found)
}

/// What a cell needs of the rows that it spans, from its first row on.
#[derive(Clone, Copy)]
struct Need {
    row: usize,
    height: u64,
}

impl Need {
    /// What it needs beyond the rows before the last one, of these from the first row of all on.
    fn beyond(self, earlier: &[u64]) -> u64
        requires { self.row ≤ length earlier.now }
        ensures { result ≡ still_needed earlier.now self }
    {
        let mut left = self.height;
        for height in &earlier[self.row..] {
            left = left.saturating_sub(*height);
        }
        left
    }
}

/// For each row, what the cells that end in it need.
fn by_last_row(
    alloc: Global,
    cells: &[GridCell],
    heights: &[i64],
    rows: usize,
) -> Result<Vec<Items<Need>>, NoMemory>
    requires spans { All (λ cell. IsSpan cell.span) cells.now }
    requires heights { length heights.now ≡ length cells.now }
    requires within { All (λ cell. cell.row + cell.span.rows ≤ rows) cells.now }
    ensures { IfOk result (λ ending. IsByLastRow (tall_cells cells.now heights.now) rows ending.items) }
{
    let mut ending = no_needs(alloc, rows)?;
    for (place, cell) in cells.iter().enumerate() {
        let last = cell.row + cell.span.rows as usize - 1;
        let need = Need {
            row: cell.row,
            height: size(heights[place]),
        };
        ending[last].push(need)?;
    }
    Ok(ending)
}

/// So many rows in which no cell ends.
fn no_needs(alloc: Global, rows: usize) -> Result<Vec<Items<Need>>, NoMemory>
    ensures { IfOk result (λ ending. ending.items ≡ empty_rows rows) }
{
    let mut ending = Vec::with_capacity(alloc, rows)?;
    'rows: while ending.len() < rows {
        ending.push(Items::new(alloc))?;
    }
    Ok(ending)
}

/// The height of the row behind the earlier ones, from what the cells that end in it need.
fn row_height(needs: &[Need], earlier: &[u64]) -> u64
    requires { All (λ need. need.row ≤ length earlier.now) needs.now }
    ensures { result ≡ greatest (map (still_needed earlier.now) needs.now) }
{
    let mut height = 0;
    for need in needs {
        height = need.beyond(earlier).max(height);
    }
    height
}
