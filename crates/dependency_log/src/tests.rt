//! Puts and drops, each followed by what two cells then tell.

use super::*;
use serna_kinds::{Cell, Facet, NodeName};
use std::alloc::Global;
use std::process::Abort;
use std::test::Fail;

/// What a node says.
fn content(node: u32) -> Cell {
    Cell {
        node: NodeName(node),
        facet: Facet::Text,
    }
}

/// Expects a cell to be had by these slots, each told once.
fn expect_slots(
    rt: &impl Abort,
    alloc: Global,
    log: &Log,
    cell: Cell,
    slots: &[u64],
) -> Result<(), Fail> {
    let mut found: Vec<u64> = log.slots_of(cell).collect(alloc)?;
    found.sort()?;
    assert_eq!(rt; found.as_slice(), slots);
    Ok(())
}

/// A slot, the nodes whose content it is put with or `None` where it is dropped, and then the slots that have the
/// content of node 1, and of node 2.
const STEPS: [(u64, Option<&[u32]>, &[u64], &[u64]); 9] = [
    (7, None, &[], &[]),
    (7, Some(&[1, 2, 1]), &[7], &[7]),
    (u64::MAX, Some(&[2]), &[7], &[7, u64::MAX]),
    (7, Some(&[2, 3]), &[], &[7, u64::MAX]),
    (7, Some(&[1]), &[7], &[u64::MAX]),
    (8, None, &[7], &[u64::MAX]),
    (u64::MAX, None, &[7], &[]),
    (u64::MAX, Some(&[1, 2]), &[7, u64::MAX], &[u64::MAX]),
    (7, Some(&[]), &[u64::MAX], &[u64::MAX]),
];

#[test]
fn the_last_put_is_told(rt: HostRuntime) -> Result<(), Fail> {
    let alloc = rt.alloc();
    let mut log = Log::new(alloc);
    for (slot, nodes, first, second) in STEPS {
        match nodes {
            Some(nodes) => {
                let mut cells = Vec::new(alloc);
                for node in nodes {
                    cells.push(content(*node))?;
                }
                log.put(alloc, slot, cells.as_slice())?;
            }
            None => log.drop_slot(slot),
        }
        expect_slots(&rt, alloc, &log, content(1), first)?;
        expect_slots(&rt, alloc, &log, content(2), second)?;
    }
    Ok(())
}

#[test]
fn facets_of_a_node_are_apart(rt: HostRuntime) -> Result<(), Fail> {
    let alloc = rt.alloc();
    let mut log = Log::new(alloc);
    let parent = Cell {
        node: NodeName(1),
        facet: Facet::Up,
    };
    log.put(alloc, 5, [content(1), parent].as_slice())?;
    log.put(alloc, 6, [parent].as_slice())?;
    expect_slots(&rt, alloc, &log, content(1), [5].as_slice())?;
    expect_slots(&rt, alloc, &log, parent, [5, 6].as_slice())?;
    Ok(())
}
