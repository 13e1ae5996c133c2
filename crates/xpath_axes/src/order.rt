//! Document order (XPath 1.0, section 5).
ghost use Rattle.std.specs.Prelude.{◌≡◌, ◌++◌, Bool, List, IfOk, OnOk};
ghost use Rattle.std.specs.Ordering.{is_lt};
ghost use Rattle.std.specs.Option.{option_map};
ghost use Rattle.serna_kinds.specs.declared.cells.Cell.{Cell};
ghost use Rattle.serna_kinds.specs.Names.{NameParts};
ghost use Rattle.serna_kinds.specs.Tape.{Agrees, SeenBefore, Within};
ghost use Rattle.source_model.specs.Source.{Source};
ghost use Rattle.source_model.specs.Cells.{cell_of};
ghost use Rattle.source_model.specs.Proper.{IsProper};
ghost use Rattle.source_model.specs.Paths.{path_of};
ghost use Rattle.source_model.specs.DocumentOrder.{ordered};
ghost use Rattle.xpath_axes.specs.Order.{order_cells, order_cells_of};
ghost use Rattle.xpath_axes.specs.Ordered.{stands_before, placed_one, placed_in, is_last, each_once, AreSortedFrom};

use crate::paths::{Step, attribute_path, node_path};
use crate::walks::LEVELS;
use serna_kinds::{Items, NoMemory, NodeRef, SourceView, Tape};
use std::alloc::Global;
use std::cmp::Ordering;

/// A node or attribute with its path.
#[derive(Drop)]
struct Placed {
    path: Items<Step>,
    node: NodeRef,
}

/// Those of these nodes and attributes that are in the source, each once, in document order (XPath 1.0, section 5). The tape notes
/// each cell that is read. The path of each is read once. Sorting compares paths, once for each neighbour where they stand in
/// document order already. `Err` comes where memory runs out.
pub fn document_order<V: SourceView>(
    alloc: Global,
    view: &V,
    refs: Items<NodeRef>,
    tape: &mut Tape,
) -> Result<Items<NodeRef>, NoMemory>
    // Nothing that was noted is lost.
    ensures before { SeenBefore tape.old.cells tape.new.cells (V.cells view.now) }
    ensures place { tape.new.place_read ≡ tape.old.place_read }

    // They are those of each proper source that has, at the cells that were noted, what the view has.
    ensures value { IfOk result (λ found. (table : List NameParts) (source : Source) → IsProper table source → Agrees tape.new.cells (V.cells view.now) (cell_of source) →
        found ≡ ordered source refs) }

    // It reads the labels and parents of the nodes and of what is above them, the children of that, and attributes for an attribute.
    ensures within { (allowed : Cell → Bool) (table : List NameParts) (source : Source) → IsProper table source → Agrees tape.new.cells (V.cells view.now) (cell_of source) →
        Within allowed (order_cells source refs) → Within allowed tape.old.cells → Within allowed tape.new.cells }
{
    let mut placed = Vec::new(alloc);
    add_all_placed(alloc, view, refs.as_slice(), tape, &mut placed)?;
    in_order(alloc, placed)
}

// Adds each node or attribute that is in the source, with its path.
fn add_all_placed<V: SourceView>(
    alloc: Global,
    view: &V,
    refs: &[NodeRef],
    tape: &mut Tape,
    out: &mut Vec<Placed>,
) -> Result<(), NoMemory>
    ensures before { SeenBefore tape.old.cells tape.new.cells (V.cells view.now) }
    ensures place { tape.new.place_read ≡ tape.old.place_read }
    ensures value { OnOk result ((table : List NameParts) (source : Source) → IsProper table source → Agrees tape.new.cells (V.cells view.now) (cell_of source) →
        out.new.items ≡ out.old.items ++ placed_in source refs.now) }
    ensures within { (allowed : Cell → Bool) (table : List NameParts) (source : Source) → IsProper table source → Agrees tape.new.cells (V.cells view.now) (cell_of source) →
        Within allowed (order_cells source refs.now) → Within allowed tape.old.cells → Within allowed tape.new.cells }
{
    for node in refs {
        add_placed(alloc, view, *node, tape, out)?;
    }
    Ok(())
}

// Adds a node or attribute with its path, where it is in the source.
fn add_placed<V: SourceView>(
    alloc: Global,
    view: &V,
    node: NodeRef,
    tape: &mut Tape,
    out: &mut Vec<Placed>,
) -> Result<(), NoMemory>
    ensures before { SeenBefore tape.old.cells tape.new.cells (V.cells view.now) }
    ensures place { tape.new.place_read ≡ tape.old.place_read }
    ensures value { OnOk result ((table : List NameParts) (source : Source) → IsProper table source → Agrees tape.new.cells (V.cells view.now) (cell_of source) →
        out.new.items ≡ out.old.items ++ placed_one source node) }
    ensures within { (allowed : Cell → Bool) (table : List NameParts) (source : Source) → IsProper table source → Agrees tape.new.cells (V.cells view.now) (cell_of source) →
        Within allowed (order_cells_of source node) → Within allowed tape.old.cells → Within allowed tape.new.cells }
{
    match path_of(alloc, view, node, tape)? {
        Some(path) => {
            out.push(Placed { path, node })?;
            Ok(())
        }
        None => Ok(()),
    }
}

// The path of a node or attribute. None where it is not in the source.
fn path_of<V: SourceView>(
    alloc: Global,
    view: &V,
    node: NodeRef,
    tape: &mut Tape,
) -> Result<Option<Items<Step>>, NoMemory>
    ensures before { SeenBefore tape.old.cells tape.new.cells (V.cells view.now) }
    ensures place { tape.new.place_read ≡ tape.old.place_read }
    ensures value { IfOk result (λ path. (table : List NameParts) (source : Source) → IsProper table source → Agrees tape.new.cells (V.cells view.now) (cell_of source) →
        path ≡ path_of source node) }
    ensures within { (allowed : Cell → Bool) (table : List NameParts) (source : Source) → IsProper table source → Agrees tape.new.cells (V.cells view.now) (cell_of source) →
        Within allowed (order_cells_of source node) → Within allowed tape.old.cells → Within allowed tape.new.cells }
{
    match node {
        NodeRef::Node(number) => node_path(alloc, view, number, LEVELS, tape),
        NodeRef::Attr(number, name) => attribute_path(alloc, view, number, name, LEVELS, tape),
    }
}

fn compare(a: &Placed, b: &Placed) -> Ordering
    ensures { is_lt result ≡ stands_before a.now b.now }
{
    a.path.as_slice().cmp(b.path.as_slice())
}

// The nodes by their paths, those of one path once.
fn in_order(alloc: Global, mut placed: Vec<Placed>) -> Result<Items<NodeRef>, NoMemory>
    ensures { IfOk result (λ found. AreSortedFrom placed.items found) }
{
    placed.sort_by(|a, b| compare(a, b))?;
    of_each_path(alloc, &placed)
}

// Of a list by paths, the nodes of each path once.
fn of_each_path(alloc: Global, placed: &[Placed]) -> Result<Items<NodeRef>, NoMemory>
    ensures { IfOk result (λ found. found ≡ each_once placed.now) }
{
    let mut found = Items::new(alloc);
    for (place, one) in placed.iter().enumerate() {
        if is_last(one, placed.get(place + 1)) {
            found.push(one.node)?;
        }
    }
    Ok(found)
}

// Whether what follows in a list has another path.
fn is_last(one: &Placed, next: Option<&Placed>) -> bool
    ensures { result ≡ is_last one.now (option_map (λ placed. placed.now) next.entry) }
{
    match next {
        Some(next) => compare(one, next).is_lt(),
        None => true,
    }
}
