//! Laws of sources in memory. Each function has an empty body, and its contract is the law.
ghost use Rattle.std.specs.Prelude.{◌≡◌, ◌↔◌, ℕ, ◌-◌, ◌<◌, ◌≤◌, List, [], ◌∷◌, ◌++◌, Some, IsSome, length, reverse};
ghost use Rattle.serna_kinds.specs.declared.cells.NodeName.{NodeName};
ghost use Rattle.serna_kinds.specs.Texts.{IsPlaceIn, upto, past, inserted, removed};
ghost use Rattle.serna_kinds.specs.Names.{NameParts, Space, Grows, AreDistinct};
ghost use Rattle.source_model.specs.Source.{Source, numbers};
ghost use Rattle.source_model.specs.Cells.{Spot, spot_of};
ghost use Rattle.source_model.specs.Changes.{text_at};
ghost use Rattle.source_model.specs.Proper.{uses, IsProper};
ghost use Rattle.source_model.specs.Consistent.{IsLinked, IsConsistent};
ghost use Rattle.source_primitives.specs.declared.primitive.Primitive.{Primitive};
ghost use Rattle.source_primitives.specs.declared.primitive.Primitive.TheVariants.{InsertText, RemoveText, RemoveChild};
ghost use Rattle.source_primitives.specs.Primitives.{applied, applied_all, inverse, inverses, MayApply, MayApplyAll, MayType, KeepsProper};
ghost use Rattle.source_tree.specs.Printing.{IsPrintable, PutsWritable, PrintsBack};
ghost use Rattle.tree_lines.specs.Written.{Written, written_lines};
ghost use Rattle.tree_lines.specs.Documents.{IsDocument};
ghost use Rattle.tree_lines.specs.Given.{Given, without_lines, IsWhole, spaces_of, given_of};
ghost use Rattle.tree_lines.specs.Tokens.{names_with};
ghost use Rattle.source_tree.specs.Begun.{begun};
ghost use Rattle.source_tree.specs.Unnumbered.{document_of};
ghost use Rattle.source_primitives.specs.Places.{IsPlaceOf, Lasts, carried, carried_through, settled, moved, moves_of};
ghost use Rattle.source_primitives.specs.declared.primitive.CaretPlace.{CaretPlace};
ghost use Rattle.source_primitives.specs.declared.primitive.Moves.{Moves};
ghost use Rattle.source_primitives.specs.declared.primitive.CaretPlace.TheVariants as place;
ghost use Rattle.source_primitives.specs.Neighbours.{StandsBetween, CarriesBetween, IsElsewhere};

/// The source that a tree begins has this tree as its document, but for the numbers of the lines: `lines` of it writes the tree.
pub fn a_tree_begins_its_own_document()
    ensures { (spaces : List Space) (given : Given) → document_of (begun spaces given) ≡ without_lines given }
{}

/// The numbers of a tree's lines show in nothing of the source that it begins.
pub fn lines_do_not_show()
    ensures { (spaces : List Space) (given : Given) → begun spaces (without_lines given) ≡ begun spaces given }
{}

/// The document of a proper source is within the limits of what can be read: one element with comments beside it, short texts
/// that are not neighbours, not too many nodes, and elements not too deep in one another.
pub fn documents_of_proper_sources_are_whole()
    ensures { (names : List NameParts) (source : Source) → IsProper names source → IsWhole (document_of source) }
{}

/// What `lines` prints of a source reads back: the lines are those of a document, and the source that it begins has the same
/// document and the same declarations.
pub fn printing_reads_back()
    ensures { (names : List NameParts) (source : Source) → AreDistinct names → IsPrintable names source → PrintsBack names source }
{}

/// A source that can be printed so that it reads back stays so when a prim puts text into it, or a new text or comment.
pub fn typing_keeps_a_source_writable()
    ensures { (names : List NameParts) (source : Source) (prim : Primitive) → IsProper names source → MayType prim source → KeepsProper names prim source →
        PutsWritable names source.spaces prim → IsPrintable names source → IsPrintable names (applied prim source) }
{}

/// The source that a document begins can be printed so that it reads back.
pub fn a_begun_source_is_writable()
    ensures { (names table : List NameParts) (numbers : List ℕ) (document : Written) → IsDocument document →
        Grows (names_with names (written_lines document)) table → IsPrintable table (begun (spaces_of document) (given_of table numbers document)) }
{}

/// A source that can be printed so that it reads back over a table of names can be so over every table that grows from it.
pub fn printable_while_names_grow()
    ensures { (names table : List NameParts) (source : Source) → Grows names table → IsPrintable names source → IsPrintable table source }
{}
