//! What holds of the definitions, in words that do not say how lines are filled. Each function has an empty body, and its
//! contract is the law.
ghost use Rattle.std.specs.Prelude.{◌≡◌, ℕ, ◌<◌, ◌≤◌, [], ◌∷◌, true, false, List, length, slice_range, encode_utf8_all};
ghost use Rattle.std.specs.List.{All, flat_map, concat};
ghost use Rattle.result_origin.specs.declared.pages.Run.{Run};
ghost use Rattle.result_origin.specs.Pages.{shown_bytes};
ghost use Rattle.line_fill.specs.declared.clusters.Cluster.{Cluster};
ghost use Rattle.line_fill.specs.declared.spans.Span.{Span};
ghost use Rattle.line_fill.specs.Clusters.{pieces, all_clusters};
ghost use Rattle.line_fill.specs.Cuts.{cut_of};
ghost use Rattle.line_fill.specs.Spans.{spans_of};
ghost use Rattle.line_fill.specs.Parts.{stands, parts_from};
ghost use Rattle.line_fill.specs.Laws.{DoFit, AreWords, IsNarrow, HangsASpace, IsText};
ghost use Rattle.line_fill.specs.Examples.{letter, blank, wide, span, room, first_room};

/// A line takes the longest prefix that fits and ends where a line may end; where there is none, the longest that fits; and
/// where nothing fits, one cluster. Behind the last two nothing hangs.
pub fn a_line_takes_the_longest_prefix()
    ensures words { (room : ℕ) (clusters : List Cluster) (count : ℕ) → AreWords room clusters count → AreWords room clusters (cut_of room clusters).taken × (count ≤ (cut_of room clusters).taken) }
    ensures parted { (room : ℕ) (clusters : List Cluster) (count : ℕ) → ((words : ℕ) → AreWords room clusters words → ⊥) → DoFit room clusters count → DoFit room clusters (cut_of room clusters).taken × (count ≤ (cut_of room clusters).taken) × ((cut_of room clusters).hangs ≡ false) }
    ensures one { (room : ℕ) (clusters : List Cluster) → ((count : ℕ) → DoFit room clusters count → ⊥) → 0 < length clusters → ((cut_of room clusters).taken ≡ 1) × ((cut_of room clusters).hangs ≡ false) }
{}

/// No line is wider than its space but one of a single cluster.
pub fn no_line_is_too_wide()
    ensures { (room : ℕ → ℕ) (clusters : List Cluster) → All (IsNarrow room clusters) (spans_of room clusters) }
{}

/// The clusters of a paragraph stand in its lines or hang behind them, each once, in order; the texts of the lines with what
/// hangs behind them, joined, are the paragraph's text; and what hangs is a space.
pub fn nothing_is_lost_or_twice()
    ensures clusters { (room : ℕ → ℕ) (clusters : List Cluster) → flat_map (λ span. slice_range clusters span.from span.next) (spans_of room clusters) ≡ clusters }
    ensures text { (room : ℕ → ℕ) (runs : List Run) → All IsText runs → concat (flat_map (λ span. slice_range (flat_map pieces runs) span.from span.next) (spans_of room (all_clusters runs))) ≡ flat_map (λ run. encode_utf8_all run.text) runs }
    ensures hanging { (room : ℕ → ℕ) (clusters : List Cluster) → All (HangsASpace clusters) (spans_of room clusters) }
{}

/// The parts of a line, joined, are the text of its clusters.
pub fn a_line_shows_its_clusters()
    ensures { (runs : List Run) (span : Span) → All IsText runs → span.from ≤ span.to → span.to ≤ span.next → flat_map shown_bytes (parts_from span 0 runs) ≡ concat (slice_range (flat_map pieces runs) span.from span.to) }
{}

/// Worked examples of lines, in units of one letter's width: no end fits; a space that hangs, and the last of two words that
/// fit; a wide cluster; a space too narrow for one letter, where nothing hangs; what follows a last space that hangs; a space
/// that fits at the end; no cluster at all; a first line with less space.
pub fn examples_of_lines()
    ensures parted { spans_of (room 3) (letter ∷ letter ∷ letter ∷ letter ∷ []) ≡ span 0 3 3 ∷ span 3 4 4 ∷ [] }
    ensures hangs { spans_of (room 2) (letter ∷ letter ∷ blank ∷ letter ∷ []) ≡ span 0 2 3 ∷ span 3 4 4 ∷ [] }
    ensures words { spans_of (room 3) (letter ∷ blank ∷ letter ∷ blank ∷ letter ∷ []) ≡ span 0 3 4 ∷ span 4 5 5 ∷ [] }
    ensures wide { spans_of (room 2) (letter ∷ wide ∷ []) ≡ span 0 1 1 ∷ span 1 2 2 ∷ [] }
    ensures narrow { spans_of (room 0) (letter ∷ blank ∷ letter ∷ []) ≡ span 0 1 1 ∷ span 1 2 2 ∷ span 2 3 3 ∷ [] }
    ensures behind { spans_of (room 2) (letter ∷ letter ∷ blank ∷ []) ≡ span 0 2 3 ∷ span 3 3 3 ∷ [] }
    ensures end { spans_of (room 3) (letter ∷ letter ∷ blank ∷ []) ≡ span 0 3 3 ∷ [] }
    ensures none { spans_of (room 3) [] ≡ span 0 0 0 ∷ [] }
    ensures indented { spans_of (first_room 1 3) (letter ∷ letter ∷ letter ∷ letter ∷ []) ≡ span 0 1 1 ∷ span 1 4 4 ∷ [] }
{}

/// Worked examples of which runs, from one cluster to another, have a part in a line: one that has a cluster there, and one
/// that has not; one with the hanging space alone; the run of a last hanging space in the empty line behind it, and the run
/// before that; empty runs at the start, inside, at the end of a line, and at its beginning.
pub fn examples_of_parts()
    ensures inside { stands (span 2 4 5) 3 9 ≡ true }
    ensures behind { stands (span 2 4 5) 5 9 ≡ false }
    ensures hanging { stands (span 2 4 5) 4 5 ≡ true }
    ensures last { stands (span 3 3 3) 2 3 ≡ true }
    ensures before { stands (span 3 3 3) 0 2 ≡ false }
    ensures at_start { stands (span 0 2 3) 0 0 ≡ true }
    ensures empty { stands (span 0 2 3) 1 1 ≡ true }
    ensures at_end { stands (span 0 2 3) 3 3 ≡ true }
    ensures at_beginning { stands (span 3 4 4) 3 3 ≡ false }
{}
