//! Filling the lines of a paragraph.
ghost use Rattle.std.specs.Prelude.{◌≡◌, ℕ, ◌+◌, ◌^◌, ◌<◌, ◌≤◌, length, slice_index, IfOk};
ghost use Rattle.line_fill.specs.Clusters.{all_clusters, AreEdges};
ghost use Rattle.line_fill.specs.Lines.{indent_at, room_at, moved, x_of, height_of, line_of, lines_of};

use crate::clusters::{Cluster, Table, table_of};
use crate::cuts::used;
use crate::para::{Align, Para};
use crate::parts::{first_run, parts};
use crate::spans::{Span, span_at};
use crate::sums::{minus, natural, plus};
use result_origin::{Line, Part};
use serna_kinds::{Items, NoMemory};
use std::alloc::Global;

/// The lines of a paragraph (XSL 1.1, 4.7.2). Each takes the longest prefix of what is left that fits and ends
/// at the paragraph's end or before a space, which then hangs behind it, is not shown and has no width; else the
/// longest prefix that fits; else one cluster. A paragraph has a line at least, and so has what follows a space
/// that hangs. `x` of a line counts from the left of the reference area, and `down` is 0. In each line stand,
/// in the order of the runs, the parts of those that have a cluster or the hanging space there. Takes time in
/// proportion to the clusters and runs.
pub fn lines(alloc: Global, para: &Para) -> Result<Items<Line>, NoMemory>
    ensures { IfOk result (λ lines. lines ≡ lines_of para.now) }
{
    let table = table_of(alloc, para.runs.as_slice())?;
    let all = table.clusters.len();
    let mut lines = Items::new(alloc);
    let mut first = 0;
    let mut from = 0;
    'lines: loop {
        let span = span_at(table.clusters.as_slice(), from, room_at(para, from));
        first = first_run(table.edges.as_slice(), first, from);
        lines.push(line(alloc, para, &table, first, span)?)?;
        if !span.goes_on(all) {
            return Ok(lines);
        }
        from = span.next;
    }
}

/// A line of a paragraph, in which the runs before the first one have no part.
fn line(
    alloc: Global,
    para: &Para,
    table: &Table,
    first: usize,
    span: Span,
) -> Result<Line, NoMemory>
    requires clusters { table.now.clusters ≡ all_clusters para.now.runs }
    requires edges { AreEdges para.now.runs table.now.edges }
    requires first { first ≤ length para.now.runs }
    requires passed { (run : ℕ) → run < first → slice_index table.now.edges (run + 1) < span.from }
    requires ordered { span.from ≤ span.to }
    requires behind { span.to ≤ span.next }
    requires within { span.next ≤ length table.now.clusters }
    ensures { IfOk result (λ line. line ≡ line_of para.now span) }
{
    let parts = parts(alloc, para.runs.as_slice(), table, first, span)?;
    Ok(Line {
        x: x_of(para, table.clusters.as_slice(), span),
        down: 0,
        height: height_of(para.line_height, parts.as_slice()),
        parts,
    })
}

/// How much further the line that begins with a cluster is indented.
fn indent_at(para: &Para, from: usize) -> i64
    ensures { result ≡ indent_at para.now from }
{
    if from == 0 { para.indent } else { 0 }
}

/// The space for the line that begins with a cluster.
fn room_at(para: &Para, from: usize) -> u64
    ensures value { result ≡ room_at para.now from }
    ensures small { result < 2 ^ 63 }
{
    natural(minus(para.width, indent_at(para, from)))
}

/// Where a line begins.
fn x_of(para: &Para, clusters: &[Cluster], span: Span) -> i64
    requires ordered { span.from ≤ span.to }
    requires behind { span.to ≤ span.next }
    requires within { span.next ≤ length clusters.now }
    ensures { result ≡ x_of para.now clusters.now span }
{
    let free = room_at(para, span.from).saturating_sub(used(&clusters[span.from..span.to]));
    let indented = plus(para.left, indent_at(para, span.from));
    plus(indented, moved(para.align, free) as i64)
}

/// How much of the free width stands before the text.
fn moved(align: Align, free: u64) -> u64
    ensures value { result ≡ moved align free }
    ensures within { result ≤ free }
{
    match align {
        Align::Start => 0,
        Align::Center => free / 2,
        Align::End => free,
    }
}

/// The height of a line with these parts.
fn height_of(least: i64, parts: &[Part]) -> i64
    ensures { result ≡ height_of least parts.now }
{
    let mut height = least;
    for part in parts {
        height = height.max(part.run().line_height);
    }
    height
}
