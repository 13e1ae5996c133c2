//! The parts of an expression as they are put together.

ghost use Rattle.std.specs.Prelude.{◌≡◌, ◌++◌, IfOk, OnOk};
ghost use Rattle.std.specs.List.{flat_map};
ghost use Rattle.xpath_grammar.specs.Trees.{step_of, any_descendant, compare_level, arith_level, level_of, rank, compared, computed, operands, chain_tree, filtered, once_more};
ghost use Rattle.xpath_grammar.specs.Parts.{with_step, path_tree, operand_tree, whole, path_behind, chained, longer, begun, here, from_root};

use crate::NoMemory;
use crate::operand::{Chain, Level, Operand, Path};
use serna_kinds::{Axis, CompareOp, NodeTest};
use sqlite_items::{Boxed, Items};
use std::alloc::Global;
use xpath_tokens::{Operator, Stack};
use xpath_trees::{ArithOp, Expr, PathStart, Signs, Step};

fn compare_level(op: CompareOp) -> Level
    ensures { result ≡ compare_level op }
{
    match op {
        CompareOp::Equal | CompareOp::NotEqual => Level::Equality,
        CompareOp::Less | CompareOp::LessOrEqual | CompareOp::Greater | CompareOp::GreaterOrEqual =>
            Level::Relational,
    }
}

fn arith_level(op: ArithOp) -> Level
    ensures { result ≡ arith_level op }
{
    match op {
        ArithOp::Add | ArithOp::Subtract => Level::Additive,
        ArithOp::Multiply | ArithOp::Remainder => Level::Multiplicative,
    }
}

/// The level of the chains that an operator makes (XPath 1.0, section 3.3 to 3.5).
pub fn level_of(op: Operator) -> Level
    ensures { result ≡ level_of op }
{
    match op {
        Operator::Or => Level::Or,
        Operator::And => Level::And,
        Operator::Compare(compare) => compare_level(compare),
        Operator::Arith(arith) => arith_level(arith),
        Operator::Union => Level::Union,
    }
}

/// How tightly the operators of a level bind: 1 for `or` to 6 for `*` and `mod`, and 8 for `|`. A minus sign binds as 7.
pub fn rank(level: Level) -> u8
    ensures { result ≡ rank level }
{
    match level {
        Level::Or => 1,
        Level::And => 2,
        Level::Equality => 3,
        Level::Relational => 4,
        Level::Additive => 5,
        Level::Multiplicative => 6,
        Level::Union => 8,
    }
}

// Steps and paths

/// A step of its parts (section 2.1).
pub fn step_of(axis: Axis, test: NodeTest, predicates: Items<Expr>) -> Step
    ensures { result ≡ step_of axis test predicates }
{
    Step {
        axis,
        test,
        predicates,
    }
}

pub fn with_step(path: Path, step: Step) -> Result<Path, NoMemory>
    ensures { IfOk result (λ longer. longer ≡ with_step path step) }
{
    let Path { start, mut steps } = path;
    steps.push(step)?;
    Ok(Path { start, steps })
}

/// The path with the step that `//` stands for.
pub fn with_descendants(alloc: Global, path: Path) -> Result<Path, NoMemory>
    ensures { IfOk result (λ longer. longer ≡ with_step path any_descendant) }
{
    with_step(
        path,
        step_of(Axis::DescendantOrSelf, NodeTest::AnyNode, Items::new(alloc)),
    )
}

/// A path without steps from the context node.
pub fn here(alloc: Global) -> Path
    ensures { result ≡ here }
{
    Path {
        start: PathStart::Context,
        steps: Items::new(alloc),
    }
}

/// A path without steps from the root.
pub fn from_root(alloc: Global) -> Path
    ensures { result ≡ from_root }
{
    Path {
        start: PathStart::Root,
        steps: Items::new(alloc),
    }
}

// Operands

fn filtered(alloc: Global, tree: Expr, predicates: Items<Expr>) -> Result<Expr, NoMemory>
    ensures { IfOk result (λ e. e ≡ filtered tree predicates) }
{
    if predicates.is_empty() {
        Ok(tree)
    } else {
        Ok(Expr::Filter(Boxed::new(alloc, tree)?, predicates))
    }
}

fn path_tree(path: Path) -> Expr
    ensures { result ≡ path_tree path }
{
    Expr::Path(path.start, path.steps)
}

pub fn operand_tree(alloc: Global, operand: Operand) -> Result<Expr, NoMemory>
    ensures { IfOk result (λ e. e ≡ operand_tree operand) }
{
    match operand {
        Operand::Root => Ok(path_tree(from_root(alloc))),
        Operand::Abbreviated(path) => Ok(path_tree(path)),
        Operand::Step(path, axis, test, predicates) => {
            let path = with_step(path, step_of(axis, test, predicates))?;
            Ok(path_tree(path))
        }
        Operand::Primary(tree, predicates) => filtered(alloc, tree, predicates),
    }
}

/// An operand that is whole.
pub fn whole(alloc: Global, tree: Expr) -> Operand
    ensures { result ≡ whole tree }
{
    Operand::Primary(tree, Items::new(alloc))
}

/// Where steps go on behind an operand.
pub fn path_behind(alloc: Global, operand: Operand) -> Result<Option<Path>, NoMemory>
    ensures { IfOk result (λ path. path ≡ path_behind operand) }
{
    match operand {
        Operand::Root => Ok(None),
        Operand::Abbreviated(path) => Ok(Some(path)),
        Operand::Step(path, axis, test, predicates) => {
            let path = with_step(path, step_of(axis, test, predicates))?;
            Ok(Some(path))
        }
        Operand::Primary(tree, predicates) => {
            let tree = filtered(alloc, tree, predicates)?;
            Ok(Some(Path {
                start: PathStart::From(Boxed::new(alloc, tree)?),
                steps: Items::new(alloc),
            }))
        }
    }
}

// Chains

/// The operands of a chain, in order.
fn operands(
    alloc: Global,
    first: Expr,
    mut others: Stack<(Operator, Expr)>,
) -> Result<Items<Expr>, NoMemory>
    ensures { IfOk result (λ all. all ≡ operands first others) }
{
    let mut all = Items::new(alloc);
    all.push(first)?;
    while let Some((_, operand)) = others.pop() {
        all.push(operand)?;
    }
    Ok(all)
}

fn push_compared(
    op: Operator,
    operand: Expr,
    pairs: &mut Items<(CompareOp, Expr)>,
) -> Result<(), NoMemory>
    ensures { OnOk result (pairs.new ≡ pairs.old ++ compared op operand) }
{
    match op {
        Operator::Compare(compare) => pairs.push((compare, operand)),
        _ => Ok(()),
    }
}

fn compared(
    alloc: Global,
    mut others: Stack<(Operator, Expr)>,
) -> Result<Items<(CompareOp, Expr)>, NoMemory>
    ensures { IfOk result (λ pairs. pairs ≡ flat_map (λ other. compared other.0 other.1) others) }
{
    let mut pairs = Items::new(alloc);
    while let Some((op, operand)) = others.pop() {
        push_compared(op, operand, &mut pairs)?;
    }
    Ok(pairs)
}

fn push_computed(
    op: Operator,
    operand: Expr,
    pairs: &mut Items<(ArithOp, Expr)>,
) -> Result<(), NoMemory>
    ensures { OnOk result (pairs.new ≡ pairs.old ++ computed op operand) }
{
    match op {
        Operator::Arith(arith) => pairs.push((arith, operand)),
        _ => Ok(()),
    }
}

fn computed(
    alloc: Global,
    mut others: Stack<(Operator, Expr)>,
) -> Result<Items<(ArithOp, Expr)>, NoMemory>
    ensures { IfOk result (λ pairs. pairs ≡ flat_map (λ other. computed other.0 other.1) others) }
{
    let mut pairs = Items::new(alloc);
    while let Some((op, operand)) = others.pop() {
        push_computed(op, operand, &mut pairs)?;
    }
    Ok(pairs)
}

fn compare_tree(
    alloc: Global,
    first: Expr,
    others: Stack<(Operator, Expr)>,
) -> Result<Expr, NoMemory>
    ensures { IfOk result (λ e. e ≡ chain_tree Level.Equality first others) }
{
    let first = Boxed::new(alloc, first)?;
    Ok(Expr::Compare(first, compared(alloc, others)?))
}

fn arith_tree(alloc: Global, first: Expr, others: Stack<(Operator, Expr)>) -> Result<Expr, NoMemory>
    ensures { IfOk result (λ e. e ≡ chain_tree Level.Additive first others) }
{
    let first = Boxed::new(alloc, first)?;
    Ok(Expr::Arith(first, computed(alloc, others)?))
}

fn chain_tree(
    alloc: Global,
    level: Level,
    first: Expr,
    others: Stack<(Operator, Expr)>,
) -> Result<Expr, NoMemory>
    ensures { IfOk result (λ e. e ≡ chain_tree level first others) }
{
    match level {
        Level::Or => Ok(Expr::Or(operands(alloc, first, others)?)),
        Level::And => Ok(Expr::And(operands(alloc, first, others)?)),
        Level::Equality | Level::Relational => compare_tree(alloc, first, others),
        Level::Additive | Level::Multiplicative => arith_tree(alloc, first, others),
        Level::Union => Ok(Expr::Union(operands(alloc, first, others)?)),
    }
}

/// A chain with its last operand.
pub fn chained(alloc: Global, chain: Chain, tree: Expr) -> Result<Expr, NoMemory>
    ensures { IfOk result (λ e. e ≡ chained chain tree) }
{
    let Chain {
        first,
        mut others,
        last,
    } = chain;
    others.push((last, tree))?;
    let others = Stack::from_items(alloc, others)?;
    chain_tree(alloc, level_of(last), first, others)
}

/// A chain with one more operand and the operator behind it.
pub fn longer(chain: Chain, tree: Expr, op: Operator) -> Result<Chain, NoMemory>
    ensures { IfOk result (λ c. c ≡ longer chain tree op) }
{
    let Chain {
        first,
        mut others,
        last,
    } = chain;
    others.push((last, tree))?;
    Ok(Chain {
        first,
        others,
        last: op,
    })
}

/// A chain that begins with this operand and operator. Takes no memory.
pub fn begun(alloc: Global, tree: Expr, op: Operator) -> Chain
    ensures { result ≡ begun tree op }
{
    Chain {
        first: tree,
        others: Items::new(alloc),
        last: op,
    }
}

/// One minus sign more.
pub fn once_more(signs: Signs) -> Signs
    ensures { result ≡ once_more signs }
{
    match signs {
        Signs::Once => Signs::Twice,
        Signs::Twice => Signs::Once,
    }
}
