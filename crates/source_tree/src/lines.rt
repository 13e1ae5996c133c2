ghost use Rattle.std.specs.Prelude.{◌≡◌, IfOk, OnOk, encode_utf8_all};
ghost use Rattle.tree_lines.specs.Canonical.{canonical_text};
ghost use Rattle.frozen_tree.specs.Frozen.{cells_of};
ghost use Rattle.source_tree.specs.Lines.{Writes, WritesNode, WritesElement, WritesContent, WritesTop, WritesFirst, WritesOutermost};

use crate::SourceTree;
use frozen_tree::Frozen;
use serna_kinds::{AttrPair, Chars, NameId, NameTable, NoMemory, NodeName, Spaces};
use source_steps::{Said, body_at, kids_in};
use std::alloc::Global;
use tree_lines::TreeWriter;

/// How deep elements may stand in one another, an outermost one at 1.
const DEEPEST: usize = 120;

impl SourceTree {
    ghost use Rattle.source_tree.specs.Unnumbered.{document_of};

    /// The tree lines of the source: its canonical text, each line with its LF, with what the document declares directly behind
    /// the beginning of its outermost element. `names` is the table that its names are numbers of. Takes memory for the text
    /// alone; `Err` comes where there is none.
    pub fn lines(&self, alloc: Global, names: &NameTable) -> Result<Chars, NoMemory>
        ensures { IfOk result (λ text. encode_utf8_all text ≡ canonical_text names.now self.now.source.spaces (document_of self.now.source)) }
    {
        let mut writer = TreeWriter::new(alloc);
        let top = kids_in(&self.cells, NodeName(0));
        write_top(&self.cells, top, names, &self.spaces, &mut writer)?;
        writer.into_chars()
    }
}

/// Writes the nodes of these numbers, those below the document node, with all below them. The first element among them has
/// what the document declares.
fn write_top(
    cells: &Frozen,
    kids: &[NodeName],
    names: &NameTable,
    spaces: &Spaces,
    writer: &mut TreeWriter,
) -> Result<(), NoMemory>
    ensures { OnOk result (WritesTop (cells_of cells.now) kids.now names.now spaces.now writer.old writer.new) }
{
    'neighbours: for (place, kid) in kids.iter().enumerate() {
        let declared = write_first(cells, *kid, names, spaces, writer)?;
        if declared {
            return write_kids(cells, &kids[place + 1..], DEEPEST, names, writer);
        }
    }
    Ok(())
}

/// Writes the node of a number with all below it, with what the document declares if it is an element. Gives whether it is.
/// A number of no node writes nothing, and so does a document node.
fn write_first(
    cells: &Frozen,
    number: NodeName,
    names: &NameTable,
    spaces: &Spaces,
    writer: &mut TreeWriter,
) -> Result<bool, NoMemory>
    ensures { IfOk result (λ declared. WritesFirst (cells_of cells.now) number names.now spaces.now writer.old declared writer.new) }
{
    let Some(found) = body_at(cells, number) else {
        return Ok(false);
    };
    match found {
        Said::Root => Ok(false),
        Said::Element(name, attributes) => {
            let kids = kids_in(cells, number);
            write_outermost(cells, name, attributes, kids, names, spaces, writer)?;
            Ok(true)
        }
        Said::Text(text) => {
            writer.text(text)?;
            Ok(false)
        }
        Said::Comment(text) => {
            writer.comment(text)?;
            Ok(false)
        }
    }
}

/// Writes the outermost element: its beginning, with what the document declares and its attributes, and what stands behind it.
fn write_outermost(
    cells: &Frozen,
    name: NameId,
    attributes: &[AttrPair],
    kids: &[NodeName],
    names: &NameTable,
    spaces: &Spaces,
    writer: &mut TreeWriter,
) -> Result<(), NoMemory>
    ensures { OnOk result (WritesOutermost (cells_of cells.now) name attributes.now kids.now names.now spaces.now writer.old writer.new) }
{
    writer.begin_outermost(name, attributes, names, spaces)?;
    write_content(cells, name, kids, DEEPEST - 1, names, writer)
}

/// Writes the nodes of these numbers with all below them, where elements stand at most `left` deep in one another.
#[cycle(writing)]
fn write_kids(
    cells: &Frozen,
    kids: &[NodeName],
    left: usize,
    names: &NameTable,
    writer: &mut TreeWriter,
) -> Result<(), NoMemory>
    ensures { OnOk result (Writes (cells_of cells.now) kids.now left names.now writer.old writer.new) }
{
    'neighbours: for kid in kids {
        write_node(cells, *kid, left, names, writer)?;
    }
    Ok(())
}

/// Writes the node of a number with all below it. A number of no node writes nothing, and so does a document node.
#[cycle(writing)]
fn write_node(
    cells: &Frozen,
    number: NodeName,
    left: usize,
    names: &NameTable,
    writer: &mut TreeWriter,
) -> Result<(), NoMemory>
    ensures { OnOk result (WritesNode (cells_of cells.now) number left names.now writer.old writer.new) }
{
    let Some(found) = body_at(cells, number) else {
        return Ok(());
    };
    match found {
        Said::Root => Ok(()),
        Said::Element(name, attributes) => {
            let kids = kids_in(cells, number);
            write_element(cells, name, attributes, kids, left, names, writer)
        }
        Said::Text(text) => writer.text(text),
        Said::Comment(text) => writer.comment(text),
    }
}

/// Writes an element: its beginning, with its attributes, and what stands behind it.
#[cycle(writing)]
fn write_element(
    cells: &Frozen,
    name: NameId,
    attributes: &[AttrPair],
    kids: &[NodeName],
    left: usize,
    names: &NameTable,
    writer: &mut TreeWriter,
) -> Result<(), NoMemory>
    ensures { OnOk result (WritesElement (cells_of cells.now) name attributes.now kids.now left names.now writer.old writer.new) }
{
    // No element of a source stands deeper.
    if left == 0 {
        return Ok(());
    }
    writer.begin(name, attributes, names)?;
    write_content(cells, name, kids, left - 1, names, writer)
}

/// Writes what stands behind an element's beginning: the nodes of its children's numbers, and its end.
#[cycle(writing)]
fn write_content(
    cells: &Frozen,
    name: NameId,
    kids: &[NodeName],
    left: usize,
    names: &NameTable,
    writer: &mut TreeWriter,
) -> Result<(), NoMemory>
    ensures { OnOk result (WritesContent (cells_of cells.now) name kids.now left names.now writer.old writer.new) }
{
    write_kids(cells, kids, left, names, writer)?;
    writer.end(name, names)
}
