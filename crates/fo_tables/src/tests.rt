//! That calls succeed with ample memory, and what they give where the format's rules meet.
use crate::{ColumnWidth, GridCell, Span, columns, grid, row_heights};
use serna_kinds::Items;
use std::test::Fail;

/// 100 millipoints, a quarter of the table, and two shares.
const GIVEN: [ColumnWidth; 4] = [
    ColumnWidth::Fixed(100),
    ColumnWidth::Percent(25_000_000),
    ColumnWidth::Share(1),
    ColumnWidth::Share(2),
];

/// Their widths in a table of 1000 with one column more, whose share takes what cutting leaves.
const WIDTHS: [i64; 5] = [100, 250, 162, 325, 163];

#[test]
fn widths_of_columns(rt: HostRuntime) -> Result<(), Fail> {
    let widths = columns(rt.alloc(), &GIVEN, 5, 1000)?;
    assert_eq!(rt; widths.as_slice(), WIDTHS.as_slice());
    Ok(())
}

/// A cell that spans two rows, between two that do not.
const FIRST: [Span; 3] = [
    Span {
        columns: 1,
        rows: 1,
    },
    Span {
        columns: 1,
        rows: 9,
    },
    Span {
        columns: 1,
        rows: 1,
    },
];

/// A cell that is too wide for the gap before the one from above, and one that is not.
const SECOND: [Span; 2] = [
    Span {
        columns: 2,
        rows: 1,
    },
    Span {
        columns: 1,
        rows: 1,
    },
];

/// The rows, columns, and spans of the five cells.
const PLACES: [(usize, usize, u32, u32); 5] = [
    (0, 0, 1, 1),
    (0, 1, 1, 2),
    (0, 2, 1, 1),
    (1, 2, 2, 1),
    (1, 0, 1, 1),
];

#[test]
fn places_of_cells(rt: HostRuntime) -> Result<(), Fail> {
    let first = Items::from_slice(rt.alloc(), &FIRST)?;
    let second = Items::from_slice(rt.alloc(), &SECOND)?;
    let rows = [first, second];
    let cells = grid(rt.alloc(), &rows)?;
    assert_eq!(rt; cells.len(), PLACES.len());
    for (cell, place) in cells.as_slice().iter().zip(PLACES) {
        let span = cell.span;
        assert_eq!(rt; (cell.row, cell.column, span.columns, span.rows), place);
    }
    Ok(())
}

/// Two cells of the first row, of which the first goes on in the second, and one of the second row.
const CELLS: [GridCell; 3] = [
    GridCell {
        row: 0,
        column: 0,
        span: Span {
            columns: 1,
            rows: 2,
        },
    },
    GridCell {
        row: 0,
        column: 1,
        span: Span {
            columns: 1,
            rows: 1,
        },
    },
    GridCell {
        row: 1,
        column: 1,
        span: Span {
            columns: 1,
            rows: 1,
        },
    },
];

/// What they need, and what the rows get.
const NEEDED: [i64; 3] = [50, 20, -5];

const HEIGHTS: [i64; 2] = [20, 30];

#[test]
fn heights_of_rows(rt: HostRuntime) -> Result<(), Fail> {
    let heights = row_heights(rt.alloc(), &CELLS, &NEEDED, 2)?;
    assert_eq!(rt; heights.as_slice(), HEIGHTS.as_slice());
    Ok(())
}
