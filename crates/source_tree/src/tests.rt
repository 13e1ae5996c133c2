//! What no clause says: that calls succeed.
ghost use Rattle.std.specs.Prelude.{◌≡◌, IfOk, [], ◌∷◌, map, Some, codes};
ghost use Rattle.source_model.specs.Changes.{text_at};
ghost use Rattle.source_primitives.specs.Primitives.{HasPlace};

use super::*;
use serna_kinds::{Cell, CellValue, Chars, Facet, Items, NameTable, NodeName, SourceView};
use source_primitives::{Primitive, SubItem};
use std::alloc::{AllocError, Global};
use std::slice;
use std::test::Fail;
use tree_lines::{Line, read_tree};

// The lines of a document: comments beside its outermost element, which declares a prefix and has attributes, a text, and an
// element with nothing in it.
const ROWS: [&[u8]; 10] = [
    b"Cx",
    b"(p:e",
    b"Aa b",
    b"Axmlns:p u",
    b"Ap:c d",
    b"-t",
    b"(f",
    b")f",
    b")p:e",
    b"Cy",
];

// Its text once the characters `a` are put behind its text.
const WRITTEN: &str = "Cx\n(p:e\nAxmlns:p u\nAa b\nAp:c d\n-ta\n(f\n)f\n)p:e\nCy\n";

// Lines of these bytes. Their numbers are of no matter here.
fn lines_of(alloc: Global, rows: &[&[u8]]) -> Result<Vec<Line>, AllocError>
    ensures { IfOk result (λ lines. map (λ line. line.bytes) lines.items ≡ map (λ row. row.now) rows.now) }
{
    let mut lines = Vec::new(alloc);
    for row in rows {
        let bytes = Items::from_slice(alloc, row)?;
        lines.push(Line { number: 1, bytes })?;
    }
    Ok(lines)
}

// The source of the document, whose names the table gets.
fn read_source(alloc: Global, names: &mut NameTable) -> Result<SourceTree, Fail>
    ensures text { IfOk result (λ tree. text_at tree.source 3 ≡ Some (codes "t")) }
    ensures inner { IfOk result (λ tree. HasPlace tree.source 4 0) }
    ensures made { IfOk result (λ tree. tree.source.made ≡ 5) }
{
    let lines = lines_of(alloc, &ROWS)?;
    let tree = read_tree(alloc, lines.as_slice(), names)?;
    let source = SourceTree::begin(alloc, &tree)?;
    Ok(source)
}

fn new_source(alloc: Global) -> Result<SourceTree, Fail>
    ensures text { IfOk result (λ tree. text_at tree.source 3 ≡ Some (codes "t")) }
    ensures inner { IfOk result (λ tree. HasPlace tree.source 4 0) }
    ensures made { IfOk result (λ tree. tree.source.made ≡ 5) }
{
    let mut names = NameTable::new(alloc);
    read_source(alloc, &mut names)
}

// The text `a`.
fn piece(alloc: Global) -> Result<Chars, AllocError>
    ensures { IfOk result (λ piece. piece ≡ codes "a") }
{
    Chars::from_text(alloc, "a")
}

#[test]
fn puts_characters_in(rt: HostRuntime) -> Result<(), Fail> {
    let mut source = new_source(rt.alloc())?;
    let characters = piece(rt.alloc())?;
    let primitive = Primitive::InsertText(NodeName(3), 1, characters);
    let undoing = source.apply(rt.alloc(), &primitive)?;
    assert!(rt; matches!(undoing, Primitive::RemoveText(NodeName(3), 1, 2)));
    let cell = Cell {
        node: NodeName(3),
        facet: Facet::Text,
    };
    assert!(rt; matches!(source.read(cell), Some(CellValue::Text("ta"))));
    Ok(())
}

#[test]
fn adds_a_comment(rt: HostRuntime) -> Result<(), Fail> {
    let mut source = new_source(rt.alloc())?;
    let cell = Cell {
        node: NodeName(4),
        facet: Facet::Kids,
    };
    assert!(rt; source.view().stamp(cell) == 0);
    let comment = SubItem::Comment(NodeName(6), piece(rt.alloc())?);
    let mut items = Items::new(rt.alloc());
    items.push(comment)?;
    let primitive = Primitive::InsertChild(NodeName(4), 0, items);
    let undoing = source.apply(rt.alloc(), &primitive)?;
    assert!(rt; matches!(undoing, Primitive::RemoveChild(NodeName(4), 0)));
    let kids = match source.read(cell) {
        Some(CellValue::Kids(kids)) => kids,
        _ => &[],
    };
    assert_eq!(rt; kids, [NodeName(6)].as_slice());
    Ok(())
}

// What is staged does not show until it is taken on.
#[test]
fn stages_and_takes_on(rt: HostRuntime) -> Result<(), Fail> {
    let mut source = new_source(rt.alloc())?;
    let cell = Cell {
        node: NodeName(3),
        facet: Facet::Text,
    };
    let primitive = Primitive::InsertText(NodeName(3), 1, piece(rt.alloc())?);
    let staged = source.after(rt.alloc(), slice::from_ref(&primitive))?;
    assert!(rt; staged.changed().len() == 1 && staged.changed()[0] == cell);
    assert!(rt; source.view().stamp(cell) == 0 && staged.view().stamp(cell) == 1);
    source.take_on(staged);
    assert!(rt; source.view().stamp(cell) == 1 && source.taken() == 1);
    Ok(())
}

#[test]
fn writes_its_lines(rt: HostRuntime) -> Result<(), Fail> {
    let mut names = NameTable::new(rt.alloc());
    let mut source = read_source(rt.alloc(), &mut names)?;
    let primitive = Primitive::InsertText(NodeName(3), 1, piece(rt.alloc())?);
    source.apply(rt.alloc(), &primitive)?;
    let text = source.lines(rt.alloc(), &names)?;
    assert_eq!(rt; text.as_text(), WRITTEN);
    Ok(())
}
