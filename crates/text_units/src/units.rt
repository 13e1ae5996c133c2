// The clusters of a text, and how wide each is.
ghost use Rattle.std.specs.Prelude.{◌≡◌, ◌*◌, ◌≤◌, length, sum_by};
ghost use Rattle.std.specs.List.{concat};
ghost use Rattle.text_units.specs.Clusters.{clusters_of};
ghost use Rattle.text_units.specs.Columns.{columns_of};

use crate::segments::Clusters;
use unicode_width::UnicodeWidthStr;

/// The extended grapheme clusters of a text (UAX 29, section 3), in order.
pub fn clusters(text: &str) -> Clusters<'_>
    ensures value { result ≡ clusters_of text.now }
    ensures joined { concat result ≡ text.now }

    // What a caller that counts them or sums their columns needs to know to stay within a `usize`.
    ensures count { length result ≤ length text.now }
    ensures width { sum_by columns_of result ≤ 2 * length text.now }
{
    Clusters::new(text)
}

/// How many columns a cluster takes: 1 for a cluster that is exactly a space, a tab or a line feed, and
/// else the width of its characters by East_Asian_Width (UAX 11), at most two columns a byte.
pub fn columns(cluster: &str) -> usize
    ensures value { result ≡ columns_of cluster.now }
    ensures bound { result ≤ 2 * length cluster.now }
{
    match cluster {
        " " | "\t" | "\n" => 1,
        _ => cluster.width(),
    }
}
