ghost use Rattle.std.specs.Prelude.{◌≡◌, ◌≤◌, pos, map, IfOk};
ghost use Rattle.std.specs.List.{All, sum_by, list_any};
ghost use Rattle.fo_tables.specs.Sizes.{most};
ghost use Rattle.fo_tables.specs.Widths.{IsColumn, all_columns, fixed_width, is_share, percentage, share_of, left_over, cut_share, cut_off, shared_out, widths_of};

use crate::sizes::{MOST, natural, size};
use serna_kinds::{Items, NoMemory};
use std::alloc::Global;

/// A whole, in millionths of one per cent.
const WHOLE: u128 = 100_000_000;

/// How wide a column is to be (XSL 1.1, 7.28.4).
#[derive(Clone, Copy, Debug, PartialEq, Eq)]
pub enum ColumnWidth {
    /// In millipoints.
    Fixed(i64),
    /// Of the table's width, in millionths of one per cent: 50% is 50000000. Below 0 it counts as 0.
    Percent(i64),
    /// `proportional-column-width(n)`, with n from 1 to 9999: in this proportion to the other shares.
    Share(u32),
}

/// The widths of the columns of a table that is `width` wide, in millipoints. There are as many columns as
/// are given or as are needed, the greater number; those that are not given are `Share(1)`. What the fixed
/// columns and those in per cent leave is shared out in proportion to the numbers of the `Share` columns,
/// each cut to whole millipoints; what the cutting leaves goes to the last of them. (XSL 1.1, 6.7.4.)
pub fn columns(
    alloc: Global,
    given: &[ColumnWidth],
    needed: usize,
    width: i64,
) -> Result<Items<i64>, NoMemory>
    requires { All IsColumn given.now }
    ensures { IfOk result (λ widths. widths ≡ map pos (widths_of given.now needed width)) }
{
    let table = size(width);
    let columns = all_columns(alloc, given, needed)?;
    let left = left_over(columns.as_slice(), table);
    share_out(alloc, columns.as_slice(), table, left)
}

/// The columns that are given, and those that are needed beyond them.
fn all_columns(
    alloc: Global,
    given: &[ColumnWidth],
    needed: usize,
) -> Result<Items<ColumnWidth>, NoMemory>
    ensures { IfOk result (λ columns. columns ≡ all_columns given.now needed) }
{
    let mut columns = Vec::from_slice(alloc, given)?;
    columns.resize(needed.max(given.len()), ColumnWidth::Share(1))?;
    Ok(Items::from_vec(columns))
}

/// What the columns that are not proportional leave of the table's width.
fn left_over(columns: &[ColumnWidth], table: u64) -> u64
    requires { table ≤ most }
    ensures { result ≡ left_over table columns.now }
{
    let mut left = table;
    for column in columns {
        left = left.saturating_sub(column.fixed_width(table));
    }
    left
}

/// The widths of the columns, of which the proportional ones share so much.
fn share_out(
    alloc: Global,
    columns: &[ColumnWidth],
    table: u64,
    left: u64,
) -> Result<Items<i64>, NoMemory>
    requires table { table ≤ most }
    requires left { left ≤ most }
    requires columns { All IsColumn columns.now }
    ensures { IfOk result (λ widths. widths ≡ map pos (shared_out table left (sum_by share_of columns.now) columns.now)) }
{
    let shares = shares_in(columns);
    let rest = cut_off(columns, left, shares);
    let mut widths = Items::new(alloc);
    for (place, column) in columns.iter().enumerate() {
        let mut width = column.fixed_width(table) + column.cut_share(left, shares);
        if column.is_share() && !any_share(&columns[place + 1..]) {
            width += rest;
        }
        widths.push(width as i64)?;
    }
    Ok(widths)
}

/// The numbers of the proportional columns, in all.
fn shares_in(columns: &[ColumnWidth]) -> u128
    requires { All IsColumn columns.now }
    ensures { result ≡ sum_by share_of columns.now }
{
    let mut shares = 0;
    for column in columns {
        shares += u128::from(column.share());
    }
    shares
}

/// What is left of so much where each proportional column has its share.
fn cut_off(columns: &[ColumnWidth], left: u64, shares: u128) -> u64
    requires columns { All IsColumn columns.now }
    requires shares { shares ≡ sum_by share_of columns.now }
    ensures { result ≡ cut_off left shares columns.now }
{
    let mut rest = left;
    for column in columns {
        rest = rest.saturating_sub(column.cut_share(left, shares));
    }
    rest
}

/// Whether one of the columns is proportional.
fn any_share(columns: &[ColumnWidth]) -> bool
    ensures { result ≡ list_any is_share columns.now }
{
    columns.iter().any(|column| column.is_share())
}

impl ColumnWidth {
    /// The width of a column that is not proportional, and 0 for one that is.
    fn fixed_width(self, table: u64) -> u64
        requires { table ≤ most }
        ensures { result ≡ fixed_width table self }
    {
        match self {
            ColumnWidth::Fixed(width) => size(width),
            ColumnWidth::Percent(part) => percentage(table, natural(part)),
            ColumnWidth::Share(_) => 0,
        }
    }

    fn is_share(self) -> bool
        ensures { result ≡ is_share self }
    {
        matches!(self, ColumnWidth::Share(_))
    }

    /// The number of a proportional column, and 0 for another.
    fn share(self) -> u32
        ensures { result ≡ share_of self }
    {
        match self {
            ColumnWidth::Share(number) => number,
            ColumnWidth::Fixed(_) | ColumnWidth::Percent(_) => 0,
        }
    }

    /// The share of a proportional column in so much, cut to whole millipoints, and 0 for another.
    fn cut_share(self, left: u64, shares: u128) -> u64
        requires column { IsColumn self }
        requires shares { share_of self ≤ shares }
        ensures { result ≡ cut_share left shares self }
    {
        match self {
            ColumnWidth::Share(number) => (u128::from(left) * u128::from(number) / shares) as u64,
            ColumnWidth::Fixed(_) | ColumnWidth::Percent(_) => 0,
        }
    }
}

/// So many millionths of one per cent of the table's width.
fn percentage(table: u64, part: u64) -> u64
    requires { table ≤ most }
    ensures { result ≡ percentage table part }
{
    (u128::from(table) * u128::from(part) / WHOLE).min(u128::from(MOST)) as u64
}
