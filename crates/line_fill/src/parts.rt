//! The parts of runs that stand in a line.
ghost use Rattle.std.specs.Prelude.{◌≡◌, ℕ, ◌+◌, ◌-◌, ◌<◌, ◌≤◌, ◌++◌, length, take, drop, slice_index, IfOk, OnOk};
ghost use Rattle.serna_kinds.specs.Texts.{IsPlaceIn};
ghost use Rattle.line_fill.specs.Clusters.{clusters_in, all_clusters, place_behind, AreEdges};
ghost use Rattle.line_fill.specs.Parts.{has_empty, stands, part_of, part_in, parts_from};

use crate::clusters::{Cluster, Table};
use crate::spans::Span;
use result_origin::{Part, Run};
use serna_kinds::{Items, NoMemory};
use std::alloc::Global;

/// The parts of runs in a line; those before the first run have none.
pub(crate) fn parts(
    alloc: Global,
    runs: &[Run],
    table: &Table,
    first: usize,
    span: Span,
) -> Result<Items<Part>, NoMemory>
    requires clusters { table.now.clusters ≡ all_clusters runs.now }
    requires edges { AreEdges runs.now table.now.edges }
    requires first { first ≤ length runs.now }
    requires passed { (run : ℕ) → run < first → slice_index table.now.edges (run + 1) < span.from }
    requires ordered { span.from ≤ span.to }
    requires behind { span.to ≤ span.next }
    ensures { IfOk result (λ parts. parts ≡ parts_from span 0 runs.now) }
{
    let mut parts = Items::new(alloc);
    let clusters = table.clusters.as_slice();
    let edges = table.edges.as_slice();
    for place in first..runs.len() {
        let low = edges[place];
        let high = edges[place + 1];
        if low > span.next {
            return Ok(parts);
        }
        add_part(&mut parts, &runs[place], clusters, low, high, span)?;
    }
    Ok(parts)
}

/// Adds the part that a run, which stands between two places among all clusters, has in a line, if it has one.
fn add_part(
    parts: &mut Items<Part>,
    run: &Run,
    clusters: &[Cluster],
    low: usize,
    high: usize,
    span: Span,
) -> Result<(), NoMemory>
    requires end { high ≡ low + length (clusters_in run.now) }
    requires within { high ≤ length clusters.now }
    requires clusters { take (high - low) (drop low clusters.now) ≡ clusters_in run.now }
    requires ordered { span.from ≤ span.to }
    requires behind { span.to ≤ span.next }
    ensures { OnOk result (parts.new ≡ parts.old ++ part_in span low run.now) }
{
    if stands(span, low, high) {
        parts.push(part(run, &clusters[low..high], low, span)?)?;
    }
    Ok(())
}

/// The first run, of those from one on, that does not end before a cluster; the end of the runs if there is none.
pub(crate) fn first_run(edges: &[usize], first: usize, from: usize) -> usize
    requires within { first + 1 ≤ length edges.now }
    requires passed { (run : ℕ) → run < first → slice_index edges.now (run + 1) < from }
    ensures within { result + 1 ≤ length edges.now }
    ensures passed { (run : ℕ) → run < result → slice_index edges.now (run + 1) < from }
{
    let runs = edges.len() - 1;
    for run in first..runs {
        if edges[run + 1] >= from {
            return run;
        }
    }
    runs
}

/// Whether a run that stands between two places among the clusters has a part in a line.
fn stands(span: Span, low: usize, high: usize) -> bool
    ensures { result ≡ stands span low high }
{
    if low == high {
        return has_empty(span, low);
    }
    low < span.next && span.from < high || span.from == span.next && span.from == high
}

/// Whether an empty run at a place among the clusters has a part in a line.
fn has_empty(span: Span, at: usize) -> bool
    ensures { result ≡ has_empty span at }
{
    if at == 0 {
        span.from == 0
    } else {
        span.from < at && at <= span.next
    }
}

/// The part of a run, with its clusters and where they begin among all, in a line.
fn part(run: &Run, clusters: &[Cluster], low: usize, span: Span) -> Result<Part, NoMemory>
    requires clusters { clusters.now ≡ clusters_in run.now }
    requires ordered { span.from ≤ span.to }
    requires behind { span.to ≤ span.next }
    ensures { IfOk result (λ part. part ≡ part_of span low run.now) }
{
    let start = place_behind(run, clusters, span.from.saturating_sub(low));
    let finish = place_behind(run, clusters, span.to.saturating_sub(low));
    Ok(Part::new(run.copy()?, start, finish))
}

/// The place behind so many clusters of a run, in bytes; its end where it has no more.
fn place_behind(run: &Run, clusters: &[Cluster], count: usize) -> usize
    requires { clusters.now ≡ clusters_in run.now }
    ensures value { result ≡ place_behind run.now count }
    ensures place { IsPlaceIn run.now.text result }
{
    let text = run.text.as_text();
    match clusters.get(count) {
        Some(cluster) => cluster.start,
        None => text.len(),
    }
}
