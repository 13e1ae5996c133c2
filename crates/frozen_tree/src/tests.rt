//! What no clause says: that calls succeed, and that they meet no node number that they can't take.
use super::*;
use serna_kinds::{Cell, CellValue, Chars, Facet, NoMemory, NodeName, SourceView};
use std::alloc::Global;
use std::test::Fail;

// Nodes at the ends of leaves, of branches and of the numbers.
const NODES: [u32; 7] = [0, 63, 64, 8191, 8192, 1_000_000, 4_294_967_294];

fn text_of(node: u32) -> Cell {
    Cell {
        node: NodeName(node),
        facet: Facet::Text,
    }
}

fn put(alloc: Global, node: u32, text: &str) -> Result<CellChange, NoMemory> {
    let text = Chars::from_text(alloc, text)?;
    Ok(CellChange {
        cell: text_of(node),
        value: Some(KeptValue::Text(text)),
    })
}

fn taken_out(node: u32) -> CellChange {
    CellChange {
        cell: text_of(node),
        value: None,
    }
}

// The text that a map has for a node, or "-" for none.
fn shown(map: &Frozen, node: u32) -> &str {
    match map.read(text_of(node)) {
        Some(CellValue::Text(text)) => text,
        _ => "-",
    }
}

#[test]
fn takes_any_node(rt: HostRuntime) -> Result<(), Fail> {
    let mut map = Frozen::new();
    for node in NODES {
        map = map.with_cells_at(rt.alloc(), node as u64 + 1, &[put(rt.alloc(), node, "a")?])?;
    }
    for node in NODES {
        assert!(rt; shown(&map, node) == "a" && map.stamp(text_of(node)) == node as u64 + 1);
        assert!(rt; shown(&map, node ^ 2) == "-");
    }
    Ok(())
}

#[test]
fn puts_and_takes_out(rt: HostRuntime) -> Result<(), Fail> {
    let first = Frozen::new().with_cells(rt.alloc(), &[put(rt.alloc(), 7, "a")?])?;
    let second = first.with_cells_at(rt.alloc(), 5, &[taken_out(7)])?;
    let third = second.with_cells_at(rt.alloc(), 6, &[taken_out(7), put(rt.alloc(), 7, "b")?])?;
    let kept = third
        .with_cells(rt.alloc(), &[put(rt.alloc(), 7, "c")?])?
        .copy()?;
    for (map, text, stamp) in [
        (&first, "a", 0),
        (&second, "-", 5),
        (&third, "b", 6),
        (&kept, "c", 6),
    ] {
        assert!(rt; shown(map, 7) == text && map.stamp(text_of(7)) == stamp);
    }
    Ok(())
}

// Each of them may be shared by threads.
fn is_shared<T: Send + Sync>(_value: &T) -> bool {
    true
}

#[test]
fn keeps_each_revision(rt: HostRuntime) -> Result<(), Fail> {
    let revisions = Revisions::new(rt.alloc())?;
    let first = Frozen::new().with_cells(rt.alloc(), &[put(rt.alloc(), 7, "a")?])?;
    let kept = revisions.keep(rt.alloc(), 9, first.copy()?)?;
    for revision in 0..200 {
        let map = first.with_cells_at(rt.alloc(), revision, &[taken_out(7)])?;
        let later = revisions.keep(rt.alloc(), revision, map)?;
        assert!(rt; later.again().revision() == revision);
        assert!(rt; revisions.source(&later).stamp(text_of(7)) == revision);
    }
    assert!(rt; kept.revision() == 9 && shown(revisions.source(&kept), 7) == "a");
    assert!(rt; is_shared(&revisions) && is_shared(&kept) && is_shared(&first));
    Ok(())
}
