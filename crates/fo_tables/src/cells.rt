ghost use Rattle.std.specs.Prelude.{◌≡◌, ℕ, false, ◌+◌, ◌^◌, ◌<◌, ◌≤◌, [], length, slice_index, IfOk, OnOk, if◌then◌else◌};
ghost use Rattle.std.specs.List.{All, fold};
ghost use Rattle.fo_tables.specs.Cells.{IsSpan, is_within, are_free, first_free, cut_span, with_cell, grid_of};
ghost use Rattle.fo_tables.specs.Taken.{AreTaken, IsFirstFit};

use serna_kinds::{Items, NoMemory};
use std::alloc::Global;

/// One more than the most columns that a cell spans.
const COUNTS: usize = 101;

/// How many columns and rows a cell spans, each from 1 to 100 (XSL 1.1, 7.28.12 and 7.28.13).
#[derive(Clone, Copy, Debug, PartialEq, Eq)]
pub struct Span {
    pub columns: u32,
    pub rows: u32,
}

/// Where a cell stands: the row and the column in which it begins, and what it spans from there on.
#[derive(Clone, Copy, Debug, PartialEq, Eq)]
pub struct GridCell {
    pub row: usize,
    pub column: usize,
    pub span: Span,
}

/// The cells of a part of a table, row by row, from the spans of the cells in each of its rows. A cell takes the
/// first columns that are all free in its row. The rows that it spans are cut at the part's end. (XSL 1.1, 6.7.10.)
pub fn grid(alloc: Global, rows: &[Items<Span>]) -> Result<Items<GridCell>, NoMemory>
    requires { All (λ spans. All IsSpan spans) rows.now }
    ensures { IfOk result (λ cells. cells ≡ grid_of rows.now) }
{
    let mut filling = Filling::new(alloc);
    for (row, spans) in rows.iter().enumerate() {
        filling.fill(row, rows.len() - row, spans.as_slice())?;
    }
    Ok(filling.into_cells())
}

/// A grid whose rows are filled one after another.
#[derive(Drop)]
struct Filling {
    cells: Items<GridCell>,
    /// The first row from which on each column is free; behind the last of these columns all are free.
    until: Items<usize>,
}

impl Filling {
    fn new(alloc: Global) -> Filling
        ensures cells { result.cells ≡ [] }
        ensures until { result.until ≡ [] }
    {
        Filling {
            cells: Items::new(alloc),
            until: Items::new(alloc),
        }
    }

    fn into_cells(self) -> Items<GridCell>
        ensures { result ≡ self.cells }
    {
        let Filling { cells, .. } = self;
        cells
    }

    /// Places the cells of a row, which is the first of so many rows that are left. For each count of columns, the next
    /// search begins where the last one for it in this row ended: columns only get taken meanwhile.
    fn fill(&mut self, row: usize, rows_left: usize, spans: &[Span]) -> Result<(), NoMemory>
        requires spans { All IsSpan spans.now }
        requires end { row + rows_left < 2 ^ 64 }
        requires taken { AreTaken self.old.cells self.old.until row }
        ensures cells { OnOk result (self.new.cells ≡ fold (with_cell rows_left row) self.old.cells spans.now) }
        ensures taken { OnOk result (AreTaken self.new.cells self.new.until row) }
    {
        let mut searched = [0; COUNTS];
        for span in spans {
            let count = span.columns as usize;
            searched[count] = self.place(row, rows_left, *span, searched[count])?;
        }
        Ok(())
    }

    /// Places one more cell in a row, where no column before `from` will do. Answers its column.
    fn place(
        &mut self,
        row: usize,
        rows_left: usize,
        span: Span,
        from: usize,
    ) -> Result<usize, NoMemory>
        requires span { IsSpan span }
        requires end { row + rows_left < 2 ^ 64 }
        requires taken { AreTaken self.old.cells self.old.until row }
        requires from { from ≤ length self.old.until }
        requires searched { (start : ℕ) → start < from → are_free self.old.cells row span.columns start ≡ false }
        ensures column { IfOk result (λ column. column ≡ first_free self.old.cells row span.columns) }
        ensures cells { OnOk result (self.new.cells ≡ with_cell rows_left row self.old.cells span) }
        ensures taken { OnOk result (AreTaken self.new.cells self.new.until row) }
        ensures within { IfOk result (λ column. column ≤ length self.new.until) }
        ensures grows { OnOk result (length self.old.until ≤ length self.new.until) }
    {
        let span = cut_span(span, rows_left);
        let count = span.columns as usize;
        let column = first_fit(self.until.as_slice(), row, from, count);
        self.take(column, count, row + span.rows as usize)?;
        self.cells.push(GridCell { row, column, span })?;
        Ok(column)
    }

    /// Takes so many columns, as far as that row.
    fn take(&mut self, first: usize, count: usize, end: usize) -> Result<(), NoMemory>
        requires first { first ≤ length self.old.until }
        requires count { first + count < 2 ^ 64 }
        ensures cells { self.new.cells ≡ self.old.cells }
        ensures until { OnOk result ((column : ℕ) → slice_index self.new.until column ≡ (if is_within first count column then end else slice_index self.old.until column)) }
        ensures grows { OnOk result (length self.old.until ≤ length self.new.until) }
    {
        for column in first..first + count {
            if column < self.until.len() {
                self.until.set(column, end);
            } else {
                self.until.push(end)?;
            }
        }
        Ok(())
    }
}

/// A span with its rows cut to those that are left.
fn cut_span(span: Span, rows_left: usize) -> Span
    ensures { result ≡ cut_span rows_left span }
{
    let rows = (span.rows as usize).min(rows_left) as u32;
    Span {
        columns: span.columns,
        rows,
    }
}

/// The first column, of those from `from` on, from which so many are free in that row.
fn first_fit(until: &[usize], row: usize, from: usize, count: usize) -> usize
    requires from { from ≤ length until.now }
    requires count { 1 ≤ count }
    ensures { IsFirstFit until.now row from count result }
{
    let mut first = from;
    for column in from..until.len() {
        if column - first == count {
            return first;
        }
        if until[column] > row {
            first = column + 1;
        }
    }
    first
}
