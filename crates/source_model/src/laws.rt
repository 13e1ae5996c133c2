//! Laws of sources. Each function has an empty body, and its contract is the law.
ghost use Rattle.std.specs.Prelude.{◌≡◌, ◌+◌, ◌||◌, ◌↔◌, List, Contains, Option, Some, true, false};
ghost use Rattle.std.specs.List.{AllByRecursion};
ghost use Rattle.serna_kinds.specs.declared.cells.NodeRef.{NodeRef};
ghost use Rattle.serna_kinds.specs.declared.expressions.Axis.TheVariants as axis;
ghost use Rattle.serna_kinds.specs.declared.cells.Cell.{Cell};
ghost use Rattle.serna_kinds.specs.Content.{Content};
ghost use Rattle.serna_kinds.specs.Names.{NameParts, Grows};
ghost use Rattle.source_model.specs.Source.{Source};
ghost use Rattle.source_model.specs.Named.{names_in, AreKnown};
ghost use Rattle.source_model.specs.Proper.{IsProper};
ghost use Rattle.source_model.specs.Paths.{Path, Entry, is_before, entries_of, path_of};
ghost use Rattle.source_model.specs.Axes.{meets, ends_at_node};
ghost use Rattle.source_model.specs.DocumentOrder.{AreInOrder, comes_before, is_earlier, one_if};
ghost use Rattle.source_model.specs.WorkedAxes.{FromElement, FromText, FromAttribute, FromDocument, TakenByTests, Strings, LogBounds};
ghost use Rattle.source_model.specs.Consistent.{IsLinked};
ghost use Rattle.source_model.specs.Cells.{cell_of};
ghost use Rattle.source_model.specs.Told.{told_tree, AreSameCells};

/// A source that is proper over a table of names is proper over every table that grows from it.
pub fn proper_while_names_grow()
    ensures { (names table : List NameParts) (source : Source) → Grows names table → IsProper names source → IsProper table source }
{}

/// The names of a proper source, those of its elements and of their attributes, are in the table.
pub fn names_of_a_proper_source_are_known()
    ensures { (names : List NameParts) (source : Source) → IsProper names source → AreKnown names (names_in source.tree) }
{}

/// Document order on paths is a strict order, and of two paths that differ one stands before the other (XPath 1.0, section 5).
pub fn document_order_is_strict()
    ensures not_itself { (p : Path) → is_before p p ≡ false }
    ensures onward { (p q r : Path) → is_before p q ≡ true → is_before q r ≡ true → is_before p r ≡ true }
    ensures one_first { (p q : Path) → is_before p q ≡ false → is_before q p ≡ false → p ≡ q }
{}

/// The nodes and attributes of a source are enumerated in document order, and those of a proper one each with its path (XPath 1.0,
/// section 5).
pub fn entries_are_in_document_order()
    ensures sorted { (source : Source) → AreInOrder comes_before (entries_of source) }
    ensures placed { (names : List NameParts) (source : Source) → IsProper names source → AllByRecursion (λ (e : Entry). path_of source e.thing.ref ≡ Some e.path) (entries_of source) }
{}

/// A list of nodes and attributes that stands in document order is determined by its members.
pub fn members_determine_a_list_in_order()
    ensures { (source : Source) (refs others : List NodeRef) → AreInOrder (is_earlier source) refs → AreInOrder (is_earlier source) others →
        ((r : NodeRef) → Contains refs r ↔ Contains others r) → refs ≡ others }
{}

/// The axes ancestor, descendant, following, preceding and self part the nodes that are no attributes: each is on exactly one of
/// the five from every node or attribute (XPath 1.0, section 2.2).
pub fn five_axes_part_the_nodes()
    ensures { (n m : Path) → ends_at_node m ≡ true →
        one_if (meets axis.Itself n m) + one_if (meets axis.Descendant n m) + one_if (meets axis.Ancestor n m) + one_if (meets axis.Following n m) + one_if (meets axis.Preceding n m) ≡ 1 }
{}

/// The parent of a node or attribute is what has it as a child or attribute, and nothing else is (XPath 1.0, section 2.2).
pub fn parent_undoes_child_and_attribute()
    ensures back { (n m : Path) → meets axis.Parent m n ≡ (meets axis.Attribute n m || meets axis.Child n m) }
    ensures one { (n m k : Path) → meets axis.Parent m n ≡ true → meets axis.Parent m k ≡ true → n ≡ k }
{}

/// Worked examples of the definitions on one tree of ten nodes: the twelve axes from an element, a text, an attribute and the
/// document node, the node tests, the string-values, and what a step may log (XPath 1.0, sections 2.2, 2.3 and 5).
pub fn worked_axes()
    ensures element { FromElement }
    ensures text { FromText }
    ensures attribute { FromAttribute }
    ensures document { FromDocument }
    ensures tests { TakenByTests }
    ensures strings { Strings }
    ensures log { LogBounds }
{}

/// The nodes of a source are told by its cells: no two trees have the same at each cell.
pub fn cells_tell_the_source()
    ensures told { (source : Source) (view : Cell → Option Content) → IsLinked source → AreSameCells view (cell_of source) → told_tree view ≡ source.tree }
    ensures one { (source other : Source) → IsLinked source → IsLinked other → AreSameCells (cell_of source) (cell_of other) → source.tree ≡ other.tree }
{}
