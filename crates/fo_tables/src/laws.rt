//! What holds of the definitions, in words that do not say how a table is laid out.
ghost use Rattle.std.specs.Prelude.{◌≡◌, ℕ, ◌+◌, ◌<◌, ◌≤◌, max, true, false, ℤ, pos, negsuc, List, [], ◌∷◌, ◌++◌, length, map, take, get_or};
ghost use Rattle.std.specs.List.{All, sum, sum_by, list_any, count_by};
ghost use Rattle.fo_tables.specs.declared.widths.ColumnWidth.{ColumnWidth};
ghost use Rattle.fo_tables.specs.declared.widths.ColumnWidth.TheVariants.{Fixed, Percent, Share};
ghost use Rattle.fo_tables.specs.declared.cells.Span.{Span};
ghost use Rattle.fo_tables.specs.declared.cells.GridCell.{GridCell};
ghost use Rattle.fo_tables.specs.Sizes.{size};
ghost use Rattle.fo_tables.specs.Widths.{IsColumn, all_columns, fixed_width, is_share, widths_of};
ghost use Rattle.fo_tables.specs.Cells.{IsSpan, covers, grid_of, IsFirstFree, spans_from};
ghost use Rattle.fo_tables.specs.Heights.{TallCell, heights_of, IsHighEnough, SpansSome};
ghost use Rattle.fo_tables.specs.Examples.{wide, placed, tall};

/// Worked examples of widths: shares and what cutting them leaves; a percentage; fixed columns that are too wide; sizes
/// below 0 and past 10^18; no column at all.
pub fn examples_of_widths()
    ensures shares { widths_of (Fixed (pos 100) ∷ Share 1 ∷ Share 2 ∷ []) 4 (pos 1001) ≡ 100 ∷ 225 ∷ 450 ∷ 226 ∷ [] }
    ensures rest { widths_of (Share 1 ∷ Share 1 ∷ Share 1 ∷ Fixed (pos 10) ∷ []) 0 (pos 30) ≡ 6 ∷ 6 ∷ 8 ∷ 10 ∷ [] }
    ensures percentage { widths_of (Percent (pos 50_000_000) ∷ Share 9999 ∷ []) 1 (pos 999) ≡ 499 ∷ 500 ∷ [] }
    ensures too_wide { widths_of (Fixed (pos 500) ∷ Share 3 ∷ []) 2 (pos 400) ≡ 500 ∷ 0 ∷ [] }
    ensures below_0 { widths_of (Fixed (negsuc 4) ∷ Percent (negsuc 4) ∷ []) 3 (negsuc 0) ≡ 0 ∷ 0 ∷ 0 ∷ [] }
    ensures past { widths_of (Fixed (pos 9_000_000_000_000_000_000) ∷ Share 1 ∷ []) 0 (pos 9_000_000_000_000_000_000) ≡ 1_000_000_000_000_000_000 ∷ 0 ∷ [] }
    ensures none { widths_of [] 0 (pos 7) ≡ [] }
{}

/// Worked examples of grids: a cell beside one that comes from the row above, with its rows cut at the end; a wide cell
/// that passes a gap, which a narrow one then takes; rows without cells.
pub fn examples_of_grids()
    ensures beside { grid_of ((wide 1 2 ∷ wide 2 1 ∷ []) ∷ (wide 1 1 ∷ wide 2 5 ∷ []) ∷ []) ≡ placed 0 0 (wide 1 2) ∷ placed 0 1 (wide 2 1) ∷ placed 1 1 (wide 1 1) ∷ placed 1 2 (wide 2 1) ∷ [] }
    ensures gap { grid_of ((wide 1 1 ∷ wide 1 2 ∷ []) ∷ (wide 2 1 ∷ wide 1 1 ∷ wide 1 1 ∷ []) ∷ []) ≡ placed 0 0 (wide 1 1) ∷ placed 0 1 (wide 1 2) ∷ placed 1 2 (wide 2 1) ∷ placed 1 0 (wide 1 1) ∷ placed 1 4 (wide 1 1) ∷ [] }
    ensures empty { grid_of ([] ∷ (wide 3 100 ∷ []) ∷ [] ∷ []) ≡ placed 1 0 (wide 3 2) ∷ [] }
{}

/// Worked examples of heights: the highest cell of a row; what a cell needs beyond the row before; a cell that is low enough
/// already; rows in which no cell ends.
pub fn examples_of_heights()
    ensures highest { heights_of (tall (placed 0 0 (wide 1 1)) (pos 20) ∷ tall (placed 0 1 (wide 1 1)) (pos 30) ∷ []) 1 ≡ 30 ∷ [] }
    ensures beyond { heights_of (tall (placed 0 0 (wide 1 2)) (pos 50) ∷ tall (placed 0 1 (wide 1 1)) (pos 30) ∷ tall (placed 1 1 (wide 1 1)) (pos 10) ∷ []) 2 ≡ 30 ∷ 20 ∷ [] }
    ensures low { heights_of (tall (placed 0 0 (wide 1 2)) (pos 35) ∷ tall (placed 0 1 (wide 1 1)) (pos 30) ∷ tall (placed 1 1 (wide 1 1)) (pos 10) ∷ []) 2 ≡ 30 ∷ 10 ∷ [] }
    ensures empty { heights_of (tall (placed 1 0 (wide 1 2)) (pos 35) ∷ tall (placed 3 0 (wide 1 1)) (negsuc 9) ∷ []) 4 ≡ 0 ∷ 0 ∷ 35 ∷ 0 ∷ [] }
{}

/// The columns add up to the table's width where one of them is proportional, and to what the other columns take where that is
/// more or where none is. There are as many as are given or needed, the greater number.
pub fn columns_add_up()
    ensures filled { (given : List ColumnWidth) (needed : ℕ) (width : ℤ) → All IsColumn given → list_any is_share (all_columns given needed) ≡ true →
        sum (widths_of given needed width) ≡ max (size width) (sum_by (fixed_width (size width)) (all_columns given needed)) }
    ensures alone { (given : List ColumnWidth) (needed : ℕ) (width : ℤ) → list_any is_share (all_columns given needed) ≡ false →
        sum (widths_of given needed width) ≡ sum_by (fixed_width (size width)) (all_columns given needed) }
    ensures count { (given : List ColumnWidth) (needed : ℕ) (width : ℤ) → length (widths_of given needed width) ≡ max (length given) needed }
{}

/// No two cells of a grid cover one place, and each cell stands in the first columns of its row that no cell before it covers.
pub fn cells_stand_in_free_places()
    ensures apart { (rows : List (List Span)) (row column : ℕ) → count_by (covers row column) (grid_of rows) ≤ 1 }
    ensures first { (rows : List (List Span)) (before after : List GridCell) (cell : GridCell) → grid_of rows ≡ before ++ cell ∷ after → IsFirstFree before cell }
{}

/// The cells of a grid are those of its rows, in their order, each in its row, with the rows that it spans cut at the end of
/// the part. So none ends behind the last row, and each spans from 1 to 100 columns and rows still.
pub fn cells_are_those_of_the_rows()
    ensures same { (rows : List (List Span)) → map (λ (cell : GridCell). (cell.row, cell.span)) (grid_of rows) ≡ spans_from 0 rows }
    ensures within { (rows : List (List Span)) → All (λ spans. All IsSpan spans) rows → All (λ cell. IsSpan cell.span × (cell.row + cell.span.rows ≤ length rows)) (grid_of rows) }
{}

/// The rows that a cell spans are together as high as it needs, and the heights are the least such: no row can be lower where
/// those before it are as they are.
pub fn rows_are_as_high_as_needed()
    ensures enough { (cells : List TallCell) (rows : ℕ) → All (SpansSome rows) cells → All (IsHighEnough (heights_of cells rows)) cells }
    ensures least { (cells : List TallCell) (rows row : ℕ) (others : List ℕ) → All (SpansSome rows) cells → All (IsHighEnough others) cells → length others ≡ rows → row < rows →
        take row others ≡ take row (heights_of cells rows) → get_or (heights_of cells rows) row 0 ≤ get_or others row 0 }
    ensures count { (cells : List TallCell) (rows : ℕ) → length (heights_of cells rows) ≡ rows }
{}
