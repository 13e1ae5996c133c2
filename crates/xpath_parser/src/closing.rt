//! The end of an operand: what waits for it and binds tighter than what follows is put together with it.

ghost use Rattle.std.specs.Prelude.{◌≡◌, IfOk, OnOk};
ghost use Rattle.xpath_grammar.specs.Parts.{operand_tree};
ghost use Rattle.xpath_parser.specs.Machine.{is_level, closed, with_operator};

use crate::NoMemory;
use crate::state::Pending;
use sqlite_items::Boxed;
use std::alloc::Global;
use xpath_grammar::{Level, Operand, begun, chained, level_of, longer, operand_tree, rank};
use xpath_tokens::{Operator, Stack};
use xpath_trees::Expr;

/// How tightly minus signs bind.
const SIGN_RANK: u8 = 7;

pub fn is_level(left: Level, right: Level) -> bool
    ensures { result ≡ is_level left right }
{
    rank(left) == rank(right)
}

/// An operand, with what waits for it and binds tighter than `least` put together with it.
pub fn closed(
    alloc: Global,
    least: u8,
    mut tree: Expr,
    stack: &mut Stack<Pending>,
) -> Result<Expr, NoMemory>
    ensures { IfOk result (λ e. (e, stack.new) ≡ closed least tree stack.old) }
{
    while let Some(top) = stack.pop() {
        match top {
            Pending::Chain(chain) => {
                if least < rank(level_of(chain.last)) {
                    tree = chained(alloc, chain, tree)?;
                } else {
                    stack.push(Pending::Chain(chain))?;
                    return Ok(tree);
                }
            }
            Pending::Minus(signs) => {
                if least < SIGN_RANK {
                    tree = Expr::Negate(signs, Boxed::new(alloc, tree)?);
                } else {
                    stack.push(Pending::Minus(signs))?;
                    return Ok(tree);
                }
            }
            other => {
                stack.push(other)?;
                return Ok(tree);
            }
        }
    }
    Ok(tree)
}

/// An operator behind an operand: the chain goes on, or one begins.
pub fn push_operator(
    alloc: Global,
    op: Operator,
    tree: Expr,
    stack: &mut Stack<Pending>,
) -> Result<(), NoMemory>
    ensures { OnOk result (stack.new ≡ with_operator op tree stack.old) }
{
    match stack.pop() {
        Some(Pending::Chain(chain)) => {
            if is_level(level_of(chain.last), level_of(op)) {
                stack.push(Pending::Chain(longer(chain, tree, op)?))
            } else {
                stack.push(Pending::Chain(chain))?;
                stack.push(Pending::Chain(begun(alloc, tree, op)))
            }
        }
        Some(other) => {
            stack.push(other)?;
            stack.push(Pending::Chain(begun(alloc, tree, op)))
        }
        None => stack.push(Pending::Chain(begun(alloc, tree, op))),
    }
}

/// The tree of an operand that ends here, with all that waits for it.
pub fn put_together(
    alloc: Global,
    operand: Operand,
    stack: &mut Stack<Pending>,
) -> Result<Expr, NoMemory>
    ensures { IfOk result (λ e. (e, stack.new) ≡ closed 0 (operand_tree operand) stack.old) }
{
    let tree = operand_tree(alloc, operand)?;
    closed(alloc, 0, tree, stack)
}
