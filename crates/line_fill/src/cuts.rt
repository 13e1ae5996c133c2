//! Where a line ends.
ghost use Rattle.std.specs.Prelude.{◌≡◌, ◌+◌, ◌<◌, ◌≤◌, min, length, IsTrue, if◌then◌else◌};
ghost use Rattle.line_fill.specs.Cuts.{used, by_words, by_clusters, ends_before, may_end, cut_of};
ghost use Rattle.line_fill.specs.Sums.{most};

use crate::clusters::Cluster;
use crate::sums::MOST;

/// How many of the clusters that are left a line shows, and whether a space hangs behind them.
#[derive(Clone, Copy)]
pub(crate) struct Cut {
    pub taken: usize,
    pub hangs: bool,
}

/// How far a line can go: as many clusters as fit, and as many of them as end where a line may end.
#[derive(Clone, Copy)]
struct Reach {
    words: usize,
    clusters: usize,
}

/// The line that begins clusters, where there is so much space.
pub(crate) fn cut_of(clusters: &[Cluster], room: u64) -> Cut
    ensures value { result ≡ cut_of room clusters.now }
    ensures within { result.taken ≤ length clusters.now }
    ensures hangs { IsTrue result.hangs → result.taken < length clusters.now }
    ensures some { 0 < length clusters.now → 0 < result.taken }
{
    let Reach {
        words,
        clusters: most,
    } = reach_of(clusters, room);
    let all = clusters.len();
    if words == 0 {
        let taken = most.max(1).min(all);
        return Cut {
            taken,
            hangs: false,
        };
    }
    Cut {
        taken: words,
        hangs: words < all,
    }
}

/// How far a line can go where there is so much space.
fn reach_of(clusters: &[Cluster], room: u64) -> Reach
    ensures words { result.words ≡ by_words room clusters.now }
    ensures clusters { result.clusters ≡ by_clusters room clusters.now }
    ensures within { result.words ≤ length clusters.now }
{
    let mut width = 0;
    let mut words = 0;
    for (place, cluster) in clusters.iter().enumerate() {
        width = wider(width, *cluster);
        if width > room {
            return Reach {
                words,
                clusters: place,
            };
        }
        words = last_end(clusters, words, place + 1);
    }
    Reach {
        words,
        clusters: clusters.len(),
    }
}

/// The last of two places, among clusters, at which a line may end: the second if it may, else the first.
fn last_end(clusters: &[Cluster], words: usize, end: usize) -> usize
    requires { end ≤ length clusters.now }
    ensures value { result ≡ (if may_end clusters.now end then end else words) }
    ensures within { words ≤ end → result ≤ end }
{
    if ends_before(&clusters[end..]) {
        end
    } else {
        words
    }
}

/// Whether a line may end before these clusters.
fn ends_before(clusters: &[Cluster]) -> bool
    ensures { result ≡ ends_before clusters.now }
{
    match clusters.first() {
        Some(cluster) => cluster.is_space,
        None => true,
    }
}

/// What so much and one cluster more take of a line.
fn wider(width: u64, cluster: Cluster) -> u64
    requires { width ≤ most }
    ensures { result ≡ min (width + cluster.width) most }
{
    width.saturating_add(cluster.width).min(MOST)
}

/// What clusters take of a line.
pub(crate) fn used(clusters: &[Cluster]) -> u64
    ensures { result ≡ used clusters.now }
{
    let mut width = 0;
    for cluster in clusters {
        width = wider(width, *cluster);
    }
    width
}
