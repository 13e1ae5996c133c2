// The boundaries nearest to a place.
ghost use Rattle.std.specs.Prelude.{◌≡◌, ◌↔◌, length, IfSome, IsTrue};
ghost use Rattle.text_units.specs.Boundaries.{IsPlace, IsBoundary};
ghost use Rattle.text_units.specs.Stops.{IsNextStop, IsPrevStop, IsSnapped, next_stop, prev_stop, snap};

use unicode_segmentation::GraphemeCursor;

/// Where a caret at byte `at` stops when it steps forward: the least cluster boundary (UAX 29, section 3)
/// past `at`, in bytes, or `None` at the end of the text. It reads on to that boundary and no further.
pub fn next_stop(text: &str, at: usize) -> Option<usize>
    requires { IsPlace text.now at }
    ensures end { (result ≡ None) ↔ (at ≡ length text.now) }
    ensures nearest { IfSome result (IsNextStop text.now at) }
    ensures value { result ≡ next_stop text.now at }
    ensures place { IfSome result (IsPlace text.now) }
{
    let mut cursor = GraphemeCursor::new(at, text.len(), true);
    // A cursor fails only for want of text, and it is shown the whole of it.
    cursor.next_boundary(text, 0).unwrap()
}

/// Where a caret at byte `at` stops when it steps back: the greatest cluster boundary before `at`, in bytes,
/// or `None` at the start of the text. It reads back to that boundary, and further only where the rules on
/// flags, emoji and conjuncts do.
pub fn prev_stop(text: &str, at: usize) -> Option<usize>
    requires { IsPlace text.now at }
    ensures start { (result ≡ None) ↔ (at ≡ 0) }
    ensures nearest { IfSome result (IsPrevStop text.now at) }
    ensures value { result ≡ prev_stop text.now at }
    ensures place { IfSome result (IsPlace text.now) }
{
    let mut cursor = GraphemeCursor::new(at, text.len(), true);
    cursor.prev_boundary(text, 0).unwrap()
}

/// Where a caret at byte `at` may stay, in bytes, once the text round it has changed: the least cluster
/// boundary that is not before `at`, which is `at` itself where it is one.
pub fn snap(text: &str, at: usize) -> usize
    requires { IsPlace text.now at }
    ensures nearest { IsSnapped text.now at result }
    ensures value { result ≡ snap text.now at }
    ensures stays { IsBoundary text.now at → result ≡ at }
    ensures place { IsPlace text.now result }
{
    if is_boundary(text, at) {
        return at;
    }
    next_stop(text, at).unwrap_or(at)
}

/// Whether a cluster begins or ends at `at`.
fn is_boundary(text: &str, at: usize) -> bool
    requires { IsPlace text.now at }
    ensures { IsTrue result ↔ IsBoundary text.now at }
{
    let mut cursor = GraphemeCursor::new(at, text.len(), true);
    cursor.is_boundary(text, 0).unwrap()
}
