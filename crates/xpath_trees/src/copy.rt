//! Copies of trees.

ghost use Rattle.std.specs.Prelude.{◌≡◌, IfOk};

use crate::NoMemory;
use crate::expr::{ArithOp, Expr, PathStart, Step};
use serna_kinds::CompareOp;
use sqlite_items::{Boxed, Items};
use std::alloc::Global;

#[cycle(copy)]
fn copy_all(alloc: Global, exprs: &[Expr]) -> Result<Items<Expr>, NoMemory>
    ensures { IfOk result (λ copies. copies ≡ exprs.now) }
{
    let mut copies = Items::new(alloc);
    for expr in exprs {
        copies.push(copy_expr(alloc, expr)?)?;
    }
    Ok(copies)
}

#[cycle(copy)]
fn copy_compared(
    alloc: Global,
    others: &[(CompareOp, Expr)],
) -> Result<Items<(CompareOp, Expr)>, NoMemory>
    ensures { IfOk result (λ copies. copies ≡ others.now) }
{
    let mut copies = Items::new(alloc);
    for (op, operand) in others {
        copies.push((*op, copy_expr(alloc, operand)?))?;
    }
    Ok(copies)
}

#[cycle(copy)]
fn copy_computed(
    alloc: Global,
    others: &[(ArithOp, Expr)],
) -> Result<Items<(ArithOp, Expr)>, NoMemory>
    ensures { IfOk result (λ copies. copies ≡ others.now) }
{
    let mut copies = Items::new(alloc);
    for (op, operand) in others {
        copies.push((*op, copy_expr(alloc, operand)?))?;
    }
    Ok(copies)
}

#[cycle(copy)]
fn copy_step(alloc: Global, step: &Step) -> Result<Step, NoMemory>
    ensures { IfOk result (λ copied. copied ≡ step.now) }
{
    Ok(Step {
        axis: step.axis,
        test: step.test.copy()?,
        predicates: copy_all(alloc, step.predicates.as_slice())?,
    })
}

#[cycle(copy)]
fn copy_steps(alloc: Global, steps: &[Step]) -> Result<Items<Step>, NoMemory>
    ensures { IfOk result (λ copies. copies ≡ steps.now) }
{
    let mut copies = Items::new(alloc);
    for step in steps {
        copies.push(copy_step(alloc, step)?)?;
    }
    Ok(copies)
}

#[cycle(copy)]
fn copy_start(alloc: Global, start: &PathStart) -> Result<PathStart, NoMemory>
    ensures { IfOk result (λ copied. copied ≡ start.now) }
{
    match start {
        PathStart::Context => Ok(PathStart::Context),
        PathStart::Root => Ok(PathStart::Root),
        PathStart::From(nodes) => {
            let nodes = copy_expr(alloc, nodes.get())?;
            Ok(PathStart::From(Boxed::new(alloc, nodes)?))
        }
    }
}

#[cycle(copy)]
fn copy_boxed(alloc: Global, expr: &Boxed<Expr>) -> Result<Boxed<Expr>, NoMemory>
    ensures { IfOk result (λ copied. copied ≡ expr.now) }
{
    let copied = copy_expr(alloc, expr.get())?;
    Boxed::new(alloc, copied)
}

#[cycle(copy)]
fn copy_expr(alloc: Global, expr: &Expr) -> Result<Expr, NoMemory>
    ensures { IfOk result (λ copied. copied ≡ expr.now) }
{
    match expr {
        Expr::Or(operands) => Ok(Expr::Or(copy_all(alloc, operands.as_slice())?)),
        Expr::And(operands) => Ok(Expr::And(copy_all(alloc, operands.as_slice())?)),
        Expr::Compare(first, others) => {
            let first = copy_boxed(alloc, first)?;
            Ok(Expr::Compare(first, copy_compared(alloc, others.as_slice())?))
        }
        Expr::Arith(first, others) => {
            let first = copy_boxed(alloc, first)?;
            Ok(Expr::Arith(first, copy_computed(alloc, others.as_slice())?))
        }
        Expr::Negate(signs, operand) => Ok(Expr::Negate(*signs, copy_boxed(alloc, operand)?)),
        Expr::Union(operands) => Ok(Expr::Union(copy_all(alloc, operands.as_slice())?)),
        Expr::Path(start, steps) => {
            let start = copy_start(alloc, start)?;
            Ok(Expr::Path(start, copy_steps(alloc, steps.as_slice())?))
        }
        Expr::Filter(filtered, predicates) => {
            let filtered = copy_boxed(alloc, filtered)?;
            Ok(Expr::Filter(filtered, copy_all(alloc, predicates.as_slice())?))
        }
        Expr::Text(text) => Ok(Expr::Text(text.copy()?)),
        Expr::Number(number) => Ok(Expr::Number(*number)),
        Expr::Variable(name) => Ok(Expr::Variable(*name)),
        Expr::Call(function, arguments) => {
            Ok(Expr::Call(*function, copy_all(alloc, arguments.as_slice())?))
        }
    }
}

impl Expr {
    /// The same expression, in memory of its own.
    pub fn copy(&self, alloc: Global) -> Result<Expr, NoMemory>
        ensures { IfOk result (λ copied. copied ≡ self.now) }
    {
        copy_expr(alloc, self)
    }
}

impl Step {
    /// The same step, in memory of its own.
    pub fn copy(&self, alloc: Global) -> Result<Step, NoMemory>
        ensures { IfOk result (λ copied. copied ≡ self.now) }
    {
        copy_step(alloc, self)
    }
}
