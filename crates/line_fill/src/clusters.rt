//! The clusters of a paragraph's runs, in one table.
ghost use Rattle.std.specs.Prelude.{◌≡◌, ◌++◌, IfOk, OnOk};
ghost use Rattle.text_units.specs.Columns.{is_blank};
ghost use Rattle.line_fill.specs.Clusters.{width_of, clusters_in, all_clusters, AreEdges};

use crate::sums::{MOST, natural};
use result_origin::Run;
use serna_kinds::{Items, NoMemory};
use std::alloc::Global;
use text_units::columns;

/// A cluster: where it begins in its run, in bytes, how wide it is, and whether it is a space, before which a line may end.
#[derive(Clone, Copy)]
pub(crate) struct Cluster {
    pub start: usize,
    pub width: u64,
    pub is_space: bool,
}

/// The clusters of all runs, one run after another.
#[derive(Drop)]
pub(crate) struct Table {
    pub clusters: Items<Cluster>,
    /// Where each run begins among the clusters, and then where the last one ends.
    pub edges: Items<usize>,
}

/// The clusters of runs.
pub(crate) fn table_of(alloc: Global, runs: &[Run]) -> Result<Table, NoMemory>
    ensures clusters { IfOk result (λ table. table.clusters ≡ all_clusters runs.now) }
    ensures edges { IfOk result (λ table. AreEdges runs.now table.edges) }
{
    let mut clusters = Items::new(alloc);
    let mut edges = Items::new(alloc);
    edges.push(0)?;
    for run in runs {
        add_clusters(&mut clusters, run)?;
        edges.push(clusters.len())?;
    }
    Ok(Table { clusters, edges })
}

/// Adds the clusters of a run.
fn add_clusters(clusters: &mut Items<Cluster>, run: &Run) -> Result<(), NoMemory>
    ensures { OnOk result (clusters.new ≡ clusters.old ++ clusters_in run.now) }
{
    let mut start = 0;
    for piece in text_units::clusters(run.text.as_text()) {
        clusters.push(Cluster {
            start,
            width: width_of(run.face.size, piece),
            is_space: is_blank(piece),
        })?;
        start += piece.len();
    }
    Ok(())
}

/// How wide a cluster is in a font of that size, in millipoints.
fn width_of(size: i64, piece: &str) -> u64
    ensures { result ≡ width_of size piece.now }
{
    (columns(piece) as u128 * u128::from(natural(size)) / 2).min(u128::from(MOST)) as u64
}

/// Whether a cluster is a space, a tab or a line feed.
fn is_blank(piece: &str) -> bool
    ensures { result ≡ is_blank piece.now }
{
    matches!(piece, " " | "\t" | "\n")
}
