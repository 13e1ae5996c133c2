//! Laws of clusters, boundaries, stops and columns, for every text. Each function has an empty body, and
//! its contract is the law.
ghost use Rattle.std.specs.Prelude.{◌≡◌, ◌↔◌, ◌+◌, ◌*◌, ◌<◌, ◌≤◌, ℕ, List, true, length, take, slice_index, slice_range, sum_by, IsTrue, All, Contains};
ghost use Rattle.std.specs.List.{concat};
ghost use Rattle.std.specs.List.Sorted.{IsStrictlyIncreasing};
ghost use Rattle.std.specs.Str.{IsUtf8};
ghost use Rattle.unicode_segmentation.specs.Grapheme.{is_grapheme_break};
ghost use Rattle.unicode_segmentation.specs.Segments.{breaks_at};
ghost use Rattle.text_units.specs.Boundaries.{IsPlace, IsBoundary, cluster_boundaries};
ghost use Rattle.text_units.specs.Clusters.{clusters_of};
ghost use Rattle.text_units.specs.Columns.{columns_of};
ghost use Rattle.text_units.specs.Stops.{IsNextStop, IsPrevStop, IsSnapped};

/// The clusters of a text, joined, are the text, and none of them is empty.
pub fn clusters_make_up_the_text()
    ensures joined { (text : List ℕ) → IsUtf8 text → concat (clusters_of text) ≡ text }
    ensures not_empty { (text : List ℕ) → All (λ cluster. 0 < length cluster) (clusters_of text) }
{}

/// The boundaries of a text are its start, its end and places between them, each below the next.
pub fn boundaries_rise_from_start_to_end()
    ensures places { (text : List ℕ) (at : ℕ) → IsUtf8 text → IsBoundary text at → IsPlace text at }
    ensures rise { (text : List ℕ) → IsStrictlyIncreasing (cluster_boundaries text) }
    ensures start { (text : List ℕ) → IsBoundary text 0 }
    ensures end { (text : List ℕ) → IsUtf8 text → IsBoundary text (length text) }
{}

/// A place is a boundary exactly where the rules GB1 to GB999 of UAX 29 break. (Here they break in an empty
/// text too, where the standard has no boundary.)
pub fn boundaries_follow_the_rules()
    ensures { (text : List ℕ) (at : ℕ) → IsUtf8 text → IsPlace text at
        → (IsBoundary text at ↔ IsTrue (breaks_at (is_grapheme_break true) text at)) }
{}

/// There is one boundary more than there are clusters, and the first `count` clusters end at the boundary
/// of that number, counted from 0.
pub fn boundaries_count_clusters()
    ensures number { (text : List ℕ) → length (cluster_boundaries text) ≡ length (clusters_of text) + 1 }
    ensures behind { (text : List ℕ) (count : ℕ) → count ≤ length (clusters_of text)
        → slice_index (cluster_boundaries text) count ≡ length (concat (take count (clusters_of text))) }
{}

/// From a boundary to the next stop, and to the one before, there is one cluster.
pub fn a_step_passes_one_cluster()
    ensures next { (text : List ℕ) (at stop : ℕ) → IsUtf8 text → IsBoundary text at → IsNextStop text at stop
        → Contains (clusters_of text) (slice_range text at stop) }
    ensures prev { (text : List ℕ) (at stop : ℕ) → IsUtf8 text → IsBoundary text at → IsPrevStop text at stop
        → Contains (clusters_of text) (slice_range text stop at) }
{}

/// From a boundary a step forward and one back lead to it again, and so do a step back and one forward.
pub fn a_step_leads_back()
    ensures next { (text : List ℕ) (at stop : ℕ) → IsBoundary text at → IsNextStop text at stop → IsPrevStop text stop at }
    ensures prev { (text : List ℕ) (at stop : ℕ) → IsBoundary text at → IsPrevStop text at stop → IsNextStop text stop at }
{}

/// A place has at most one next stop, one stop before it and one boundary that it is snapped to.
pub fn the_nearest_is_one()
    ensures next { (text : List ℕ) (at stop other : ℕ) → IsNextStop text at stop → IsNextStop text at other → stop ≡ other }
    ensures prev { (text : List ℕ) (at stop other : ℕ) → IsPrevStop text at stop → IsPrevStop text at other → stop ≡ other }
    ensures snapped { (text : List ℕ) (at stop other : ℕ) → IsSnapped text at stop → IsSnapped text at other → stop ≡ other }
{}

/// A boundary is snapped to itself, so that what was snapped stays when it is snapped again.
pub fn a_boundary_stays()
    ensures boundary { (text : List ℕ) (at stop : ℕ) → IsBoundary text at → IsSnapped text at stop → stop ≡ at }
    ensures again { (text : List ℕ) (at once again : ℕ) → IsSnapped text at once → IsSnapped text once again → again ≡ once }
{}

/// The clusters of a text take at most two columns a byte.
pub fn columns_fit_two_to_a_byte()
    ensures { (text : List ℕ) → IsUtf8 text → sum_by columns_of (clusters_of text) ≤ 2 * length text }
{}
