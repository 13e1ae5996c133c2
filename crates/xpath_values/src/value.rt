ghost use Rattle.std.specs.Prelude.{◌≡◌, IfOk};
ghost use Rattle.std.specs.Str.{chars};
ghost use Rattle.xpath_values.specs.Values.{truth, truth_text_of};

use crate::number::Num;
use serna_kinds::{Chars, Items, NameId, NoMemory, NodeRef};
use std::alloc::Global;

/// The value of an expression (XPath 1.0, section 1). Nodes are in document order, and none is there twice.
#[derive(Debug, Drop)]
pub enum Value {
    Nodes(Items<NodeRef>),
    Text(Chars),
    Number(Num),
    Truth(bool),
}

/// A value whose nodes are replaced by their string-values, in document order.
#[derive(Debug, Drop)]
pub enum Operand {
    Nodes(Items<Chars>),
    Text(Chars),
    Number(Num),
    Truth(bool),
}

/// A variable and its value (XPath 1.0, section 1).
#[derive(Debug, Drop)]
pub struct Binding {
    pub name: NameId,
    pub value: Value,
}

impl Value {
    /// The same value, in memory of its own.
    pub fn copy(&self, alloc: Global) -> Result<Value, NoMemory>
        ensures { IfOk result (λ value. value ≡ self.now) }
    {
        match self {
            Value::Nodes(nodes) => {
                let nodes = Items::from_slice(alloc, nodes.as_slice())?;
                Ok(Value::Nodes(nodes))
            }
            Value::Text(text) => {
                let text = text.copy()?;
                Ok(Value::Text(text))
            }
            Value::Number(number) => Ok(Value::Number(*number)),
            Value::Truth(holds) => Ok(Value::Truth(*holds)),
        }
    }
}

impl Operand {
    /// The same operand, in memory of its own.
    pub fn copy(&self, alloc: Global) -> Result<Operand, NoMemory>
        ensures { IfOk result (λ operand. operand ≡ self.now) }
    {
        match self {
            Operand::Nodes(texts) => {
                let texts = copy_texts(alloc, texts.as_slice())?;
                Ok(Operand::Nodes(texts))
            }
            Operand::Text(text) => {
                let text = text.copy()?;
                Ok(Operand::Text(text))
            }
            Operand::Number(number) => Ok(Operand::Number(*number)),
            Operand::Truth(holds) => Ok(Operand::Truth(*holds)),
        }
    }
}

impl Binding {
    /// The same variable with the same value, in memory of its own.
    pub fn copy(&self, alloc: Global) -> Result<Binding, NoMemory>
        ensures { IfOk result (λ binding. binding ≡ self.now) }
    {
        let value = self.value.copy(alloc)?;
        Ok(Binding {
            name: self.name,
            value,
        })
    }
}

/// The texts in memory of their own.
fn copy_texts(alloc: Global, texts: &[Chars]) -> Result<Items<Chars>, NoMemory>
    ensures { IfOk result (λ copies. copies ≡ texts.now) }
{
    let mut copies = Items::new(alloc);
    for text in texts {
        copies.push(text.copy()?)?;
    }
    Ok(copies)
}

/// The value as a truth (XPath 1.0, section 4.3): NaN, 0, the empty text and the empty node-set are false.
pub fn to_truth(value: &Value) -> bool
    ensures { result ≡ truth value.now }
{
    match value {
        Value::Nodes(nodes) => !nodes.is_empty(),
        Value::Text(text) => !text.as_text().is_empty(),
        Value::Number(number) => number.is_true(),
        Value::Truth(holds) => *holds,
    }
}

/// The text of a truth (XPath 1.0, section 4.2). Takes no memory.
pub fn truth_text(holds: bool) -> &'static str
    ensures { chars result.now ≡ truth_text_of holds }
{
    if holds { "true" } else { "false" }
}
