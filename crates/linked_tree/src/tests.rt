//! Trees of a few nodes: each link and unlink at the first, a middle and the last place.

ghost use Rattle.std.specs.Prelude.{◌≡◌, ◌<◌, None};
ghost use Rattle.linked_tree.specs.Forest.{count, parent_of, IsApart};

use super::*;
use std::alloc::Global;
use std::process::Abort;
use std::test::Fail;

/// An arena of so many nodes, which have the numbers from 0.
fn arena_of(rt: &impl Abort, alloc: Global, nodes: u32) -> Result<Arena, Fail> {
    let mut arena = Arena::new(alloc);
    for node in 0..nodes {
        assert!(rt; (arena.count() as usize) < NODES);
        assert_eq!(rt; arena.make()?, node);
    }
    Ok(arena)
}

/// Expects a node without parent and children, which may become a child of another.
fn expect_free(rt: &impl Abort, arena: &Arena, parent: u32, node: u32)
    ensures parent { parent < count arena.now }
    ensures node { node < count arena.now }
    ensures free { parent_of arena.now node ≡ None }
    ensures apart { IsApart arena.now node parent }
{
    assert!(rt; parent < arena.count());
    assert!(rt; node < arena.count());
    assert!(rt; node != parent);
    assert!(rt; arena.parent(node).is_none());
    assert!(rt; arena.first(node).is_none());
}

/// Puts a node without parent and children at a place.
fn graft(rt: &impl Abort, arena: &mut Arena, parent: u32, place: u32, node: u32) {
    expect_free(rt, arena, parent, node);
    assert!(rt; place as usize <= arena.kids(parent).count());
    arena.link_at(parent, place, node);
}

#[test]
fn paths_lead_down(rt: HostRuntime) -> Result<(), Fail> {
    let alloc = rt.alloc();
    let mut arena = arena_of(&rt, alloc, 4)?;
    graft(&rt, &mut arena, 0, 0, 1);
    graft(&rt, &mut arena, 0, 0, 2);
    graft(&rt, &mut arena, 2, 0, 3);
    assert_eq!(rt; arena.count(), 4);
    let kids: Vec<u32> = arena.kids(0).collect(alloc)?;
    assert_eq!(rt; kids.as_slice(), [2, 1].as_slice());
    assert_eq!(rt; arena.path(alloc, 3)?.as_slice(), [0, 0].as_slice());
    assert_eq!(rt; arena.path(alloc, 1)?.as_slice(), [1].as_slice());
    assert!(rt; arena.path(alloc, 0)?.is_empty());
    assert!(rt; arena.before(3, 1));
    assert!(rt; !arena.before(1, 3));
    Ok(())
}

/// A node that is moved, below which node, to which place, and the children of node 0 then.
const MOVES: [(u32, u32, u32, &[u32]); 8] = [
    (1, 0, 0, &[1]),
    (2, 0, 1, &[1, 2]),
    (4, 0, 1, &[1, 4, 2]),
    (4, 0, 0, &[4, 1, 2]),
    (4, 0, 2, &[1, 2, 4]),
    (1, 2, 0, &[2, 4]),
    (4, 2, 1, &[2]),
    (1, 0, 1, &[2, 1]),
];

#[test]
fn moves_at_each_place(rt: HostRuntime) -> Result<(), Fail> {
    let alloc = rt.alloc();
    let mut arena = arena_of(&rt, alloc, 5)?;
    for (node, parent, place, kids) in MOVES {
        assert!(rt; node < arena.count());
        if arena.parent(node).is_some() {
            arena.unlink(node);
        }
        graft(&rt, &mut arena, parent, place, node);
        assert_eq!(rt; arena.count(), 5);
        let found: Vec<u32> = arena.kids(0).collect(alloc)?;
        assert_eq!(rt; found.as_slice(), kids);
    }
    Ok(())
}
