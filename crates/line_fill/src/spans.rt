//! Lines as spans of a paragraph's clusters.
ghost use Rattle.std.specs.Prelude.{◌≡◌, ◌≤◌, ◌<◌, drop, length};
ghost use Rattle.line_fill.specs.Cuts.{cut_of};
ghost use Rattle.line_fill.specs.Spans.{span_of, goes_on};

use crate::clusters::Cluster;
use crate::cuts::cut_of;

/// A line: from its first cluster to the place behind the last that it shows, and where what follows it begins.
#[derive(Clone, Copy)]
pub(crate) struct Span {
    pub from: usize,
    pub to: usize,
    pub next: usize,
}

impl Span {
    /// Whether another line follows, in a paragraph of so many clusters.
    pub fn goes_on(self, all: usize) -> bool
        ensures { result ≡ goes_on all self }
    {
        self.to < self.next || self.next < all
    }
}

/// The line that begins at a cluster, where there is so much space.
pub(crate) fn span_at(clusters: &[Cluster], from: usize, room: u64) -> Span
    requires { from ≤ length clusters.now }
    ensures value { result ≡ span_of from (cut_of room (drop from clusters.now)) }
    ensures begins { result.from ≡ from }
    ensures ordered { from ≤ result.to }
    ensures behind { result.to ≤ result.next }
    ensures within { result.next ≤ length clusters.now }
    ensures some { from < length clusters.now → from < result.next }
{
    let cut = cut_of(&clusters[from..], room);
    let to = from + cut.taken;
    Span {
        from,
        to,
        next: if cut.hangs { to + 1 } else { to },
    }
}
