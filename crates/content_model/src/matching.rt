//! Whether a group allows a list of children.
//!
//! A name of the group is reached when the children so far can end there. One child moves from the names reached to the
//! next ones in two passes over the nodes, so the work is (children) x (nodes), whatever the group (Fischer, Huch and
//! Wilke, "A play on regular expressions", 2010, with the marks kept beside the tree).

ghost use Rattle.std.specs.Prelude.{◌≡◌, ◌&&◌, ◌||◌, ◌↔◌, ℕ, ◌++◌, [], ◌∷◌, IsTrue, IfOk, OnOk, fold, reverse};
ghost use Rattle.content_model.specs.Particle.{Particle};
ghost use Rattle.content_model.specs.Language.{Matches};
ghost use Rattle.content_model.specs.Stack.{top, below};
ghost use Rattle.content_model.specs.Passes.{part_begins, reaches, reach_node, keeps, ends_after, settle_node, nodes_of, is_nullable, no_stacks, without_end, after_child};

use crate::NoMemory;
use crate::particle::{Node, Occurrence};
use crate::stack::{Stack, Stacks};
use std::alloc::Global;

/// Pushes for each part of a node whether it can begin: `begins` says so of the node, and `kept` is what the node kept.
fn push_parts(ends: &mut Stack, node: Node, kept: bool, begins: bool) -> Result<(), NoMemory>
    ensures { OnOk result (ends.new ≡ part_begins node kept begins ++ ends.old) }
{
    match node {
        Node::Name(_) => {}
        Node::Sequence(left, _) => {
            ends.push(begins)?;
            ends.push(begins && left || kept)?;
        }
        Node::Choice => {
            ends.push(begins)?;
            ends.push(begins)?;
        }
        Node::Repeated(Occurrence::Optional) => {
            ends.push(begins)?;
        }
        Node::Repeated(Occurrence::ZeroOrMore) => {
            ends.push(begins || kept)?;
        }
        Node::Repeated(Occurrence::OneOrMore) => {
            ends.push(begins || kept)?;
        }
    }
    Ok(())
}

/// Whether a child of this symbol reaches the node, a name where one can begin.
fn is_reached(node: Node, begins: bool, symbol: u64) -> bool
    ensures { result ≡ reaches symbol node begins }
{
    match node {
        Node::Name(name) => begins && name == symbol,
        Node::Sequence(_, _) => false,
        Node::Choice => false,
        Node::Repeated(_) => false,
    }
}

/// Takes the ends of a node's parts, and pushes whether the children so far can end in the node. The result is what the
/// node keeps: of a sequence whether they can end in its left part, of a repetition whether in its part.
fn push_end(ends: &mut Stack, node: Node, mark: bool) -> Result<bool, NoMemory>
    ensures kept { IfOk result (λ kept. kept ≡ keeps node mark ends.old) }
    ensures ends { OnOk result (ends.new ≡ ends_after node mark ends.old) }
{
    match node {
        Node::Name(_) => {
            ends.push(mark)?;
            Ok(mark)
        }
        Node::Sequence(_, right_nullable) => {
            let right = ends.pop();
            let left = ends.pop();
            ends.push(right || left && right_nullable)?;
            Ok(left)
        }
        Node::Choice => {
            let right = ends.pop();
            let left = ends.pop();
            ends.push(left || right)?;
            Ok(left)
        }
        Node::Repeated(_) => {
            let part = ends.pop();
            ends.push(part)?;
            Ok(part)
        }
    }
}

/// The first pass, from the root down: which names a child reaches.
fn reach(stacks: &mut Stacks, nodes: &[Node], symbol: u64) -> Result<(), NoMemory>
    ensures { OnOk result (stacks.new ≡ fold (reach_node symbol) stacks.old (reverse nodes.now)) }
{
    for node in nodes.iter().rev() {
        let begins = stacks.ends.pop();
        let kept = stacks.kept.pop();
        push_parts(&mut stacks.ends, *node, kept, begins)?;
        stacks.reached.push(is_reached(*node, begins, symbol))?;
    }
    Ok(())
}

/// The second pass, from the names up: what each node keeps, and whether the children so far can end here.
fn settle(stacks: &mut Stacks, nodes: &[Node]) -> Result<(), NoMemory>
    ensures { OnOk result (stacks.new ≡ fold settle_node stacks.old nodes.now) }
{
    for node in nodes {
        let mark = stacks.reached.pop();
        let kept = push_end(&mut stacks.ends, *node, mark)?;
        stacks.kept.push(kept)?;
    }
    Ok(())
}

/// Moves on by one child, where the group can also begin with it if `begins` says so. Answers whether the children so far
/// are a whole word of the group.
fn advance(stacks: &mut Stacks, nodes: &[Node], symbol: u64, begins: bool) -> Result<bool, NoMemory>
    ensures ends { IfOk result (λ ends. ends ≡ top (after_child symbol begins nodes.now stacks.old).ends) }
    ensures stacks { OnOk result (stacks.new ≡ without_end (after_child symbol begins nodes.now stacks.old)) }
{
    stacks.ends.push(begins)?;
    reach(stacks, nodes, symbol)?;
    settle(stacks, nodes)?;
    let ends = stacks.ends.pop();
    Ok(ends)
}

/// The stacks before the first child, where no name is reached.
fn before_children(alloc: Global, nodes: &[Node]) -> Result<Stacks, NoMemory>
    ensures { IfOk result (λ stacks. stacks ≡ without_end (fold settle_node no_stacks nodes.now)) }
{
    let mut stacks = Stacks::new(alloc);
    settle(&mut stacks, nodes)?;
    let _ = stacks.ends.pop();
    Ok(stacks)
}

/// Whether the group of these nodes allows the children. `nullable` says whether it allows none.
pub fn matches(
    alloc: Global,
    nodes: &[Node],
    nullable: bool,
    word: &[u64],
) -> Result<bool, NoMemory>
    ensures { (p : Particle ℕ) → reverse nodes.now ≡ nodes_of (λ n. n) p → nullable ≡ is_nullable p
        → IfOk result (λ allowed. IsTrue allowed ↔ Matches p word.now) }
{
    let mut stacks = before_children(alloc, nodes)?;
    let mut begins = true;
    let mut ends = false;
    for symbol in word {
        ends = advance(&mut stacks, nodes, *symbol, begins)?;
        begins = false;
    }
    Ok(is_whole(begins, nullable, ends))
}

/// Whether the children so far are a whole word: none of them, where the group allows that, or a word that ends here.
fn is_whole(begins: bool, nullable: bool, ends: bool) -> bool
    ensures { result ≡ (begins && nullable || ends) }
{
    begins && nullable || ends
}
