//! What a token that is written out stands for.

ghost use Rattle.std.specs.Prelude.{◌≡◌, ◌<◌, List, IfOk, OnOk, option_map, is_some};
ghost use Rattle.std.specs.List.{list_all};
ghost use Rattle.std.specs.Map.{lookup};
ghost use Rattle.std.specs.Str.{bytes_eq};
ghost use Rattle.serna_kinds.specs.Names.{NameParts, Grows, id_of, with_name};
ghost use Rattle.serna_kinds.specs.Qualified.{is_digit, parted, attribute_name};
ghost use Rattle.xpath_tokens.specs.Symbols.{uri_in, without_dollar, text_or_none, inside, number_value, node_types, axes, plain_functions, text_functions, function_named, callee, axis_named, mark_symbol, symbol_of};
ghost use Rattle.xpath_tokens.specs.Named.{IsStored, HasName, names_in, with_names};

use crate::NoMemory;
use crate::symbol::{Operator, Symbol};
use crate::tokens::Kind;
use serna_kinds::{
    Axis, Chars, CompareOp, NameId, NameTable, NodeTest, Spaces, TextFunction, WrittenName,
    is_digit, parted,
};
use std::alloc::Global;
use xpath_trees::{ArithOp, Expr, Function};

/// The URI that a prefix is bound to, empty without a prefix and where it is not bound.
pub fn uri_in<'a>(spaces: &'a Spaces, prefix: &str) -> &'a str
    ensures { result.now ≡ uri_in spaces.now prefix.now }
{
    match spaces.attribute_uri(prefix) {
        Some(uri) => uri,
        None => "",
    }
}

/// The number of a name as it is written.
fn intern(
    alloc: Global,
    name: &str,
    spaces: &Spaces,
    names: &mut NameTable,
) -> Result<NameId, NoMemory>
    ensures number { IfOk result (λ id. (later : List NameParts) → Grows names.new later → id ≡ id_of later (attribute_name spaces.now name.now)) }
    ensures stored { OnOk result ((later : List NameParts) → Grows names.new later → IsStored later (attribute_name spaces.now name.now)) }
    ensures names { OnOk result (names.new ≡ with_name names.old (attribute_name spaces.now name.now)) }
    ensures grows { Grows names.old names.new }
{
    let WrittenName { prefix, local } = WrittenName::parts(name);
    names.intern(alloc, uri_in(spaces, prefix), local, prefix)
}

/// What stands before the quote that ends a literal.
fn before_quote(quote: char, rest: &str) -> &str
    requires { quote < 128 }
    ensures { result.now ≡ text_or_none (parted quote rest.now) }
{
    match parted(quote, rest) {
        Some((text, _)) => text,
        None => "",
    }
}

/// What stands between the quotes of a literal.
fn inside(literal: &str) -> &str
    ensures { result.now ≡ inside literal.now }
{
    match literal.strip_prefix('"') {
        Some(rest) => before_quote('"', rest),
        None => match literal.strip_prefix('\'') {
            Some(rest) => before_quote('\'', rest),
            None => "",
        },
    }
}

fn are_digits(text: &str) -> bool
    ensures { result ≡ list_all is_digit text.now }
{
    text.as_bytes().iter().all(|byte| is_digit(*byte))
}

/// The number that up to fifteen digits stand for.
fn number_value(digits: &str) -> u64
    ensures { result ≡ number_value digits.now }
{
    if are_digits(digits) && digits.len() <= 15 {
        digits.parse().unwrap_or(0)
    } else {
        0
    }
}

fn node_type_named(name: &str) -> Option<NodeTest>
    ensures { result ≡ lookup (bytes_eq name.now) node_types }
{
    match name {
        "node" => Some(NodeTest::AnyNode),
        "text" => Some(NodeTest::AnyText),
        "comment" => Some(NodeTest::AnyComment),
        _ => None,
    }
}

/// Whether the name is a node type.
pub fn is_node_type(name: &str) -> bool
    ensures { result ≡ is_some (lookup (bytes_eq name.now) node_types) }
{
    node_type_named(name).is_some()
}

fn axis_of(name: &str) -> Option<Axis>
    ensures { result ≡ lookup (bytes_eq name.now) axes }
{
    match name {
        "child" => Some(Axis::Child),
        "descendant" => Some(Axis::Descendant),
        "descendant-or-self" => Some(Axis::DescendantOrSelf),
        "self" => Some(Axis::Itself),
        "parent" => Some(Axis::Parent),
        "ancestor" => Some(Axis::Ancestor),
        "ancestor-or-self" => Some(Axis::AncestorOrSelf),
        "following-sibling" => Some(Axis::FollowingSibling),
        "preceding-sibling" => Some(Axis::PrecedingSibling),
        "following" => Some(Axis::Following),
        "preceding" => Some(Axis::Preceding),
        "attribute" => Some(Axis::Attribute),
        _ => None,
    }
}

fn plain_function(name: &str) -> Option<Function>
    ensures { result ≡ lookup (bytes_eq name.now) plain_functions }
{
    match name {
        "last" => Some(Function::Last),
        "position" => Some(Function::Position),
        "count" => Some(Function::Count),
        "local-name" => Some(Function::LocalName),
        "namespace-uri" => Some(Function::NamespaceUri),
        "name" => Some(Function::Name),
        "string" => Some(Function::Text),
        "boolean" => Some(Function::Boolean),
        "not" => Some(Function::Not),
        "true" => Some(Function::True),
        "false" => Some(Function::False),
        "number" => Some(Function::Number),
        "sum" => Some(Function::Sum),
        "floor" => Some(Function::Floor),
        "ceiling" => Some(Function::Ceiling),
        "round" => Some(Function::Round),
        "current" => Some(Function::Current),
        "generate-id" => Some(Function::GenerateId),
        _ => None,
    }
}

fn text_function(name: &str) -> Option<Function>
    ensures { result ≡ lookup (bytes_eq name.now) text_functions }
{
    match name {
        "concat" => Some(Function::On(TextFunction::Concat)),
        "starts-with" => Some(Function::On(TextFunction::StartsWith)),
        "contains" => Some(Function::On(TextFunction::Contains)),
        "substring-before" => Some(Function::On(TextFunction::SubstringBefore)),
        "substring-after" => Some(Function::On(TextFunction::SubstringAfter)),
        "substring" => Some(Function::On(TextFunction::Substring)),
        "string-length" => Some(Function::On(TextFunction::StringLength)),
        "normalize-space" => Some(Function::On(TextFunction::NormalizeSpace)),
        "translate" => Some(Function::On(TextFunction::Translate)),
        _ => None,
    }
}

/// The function of that name, where there is one.
pub fn function_named(name: &str) -> Option<Function>
    ensures { result ≡ function_named name.now }
{
    match plain_function(name) {
        Some(function) => Some(function),
        None => text_function(name),
    }
}

/// A name before `(`. An unknown function is a fault, whatever stands for it.
fn callee(name: &str) -> Symbol
    ensures { result ≡ callee name.now }
{
    match node_type_named(name) {
        Some(test) => Symbol::NodeType(test),
        None => Symbol::Callee(function_named(name).unwrap_or(Function::Last)),
    }
}

/// A name before `::`.
fn axis_named(name: &str) -> Symbol
    ensures { result ≡ axis_named name.now }
{
    match axis_of(name) {
        Some(axis) => Symbol::AxisName(axis),
        None => Symbol::Wrong,
    }
}

fn compared(op: CompareOp) -> Symbol
    ensures { result ≡ Symbol.Operator (Operator.Compare op) }
{
    Symbol::Operator(Operator::Compare(op))
}

fn computed(op: ArithOp) -> Symbol
    ensures { result ≡ Symbol.Operator (Operator.Arith op) }
{
    Symbol::Operator(Operator::Arith(op))
}

/// A token that its kind tells alone.
fn mark_symbol(kind: Kind) -> Symbol
    ensures { result ≡ mark_symbol kind }
{
    match kind {
        Kind::Open => Symbol::Open,
        Kind::Close => Symbol::Close,
        Kind::OpenBracket => Symbol::OpenBracket,
        Kind::CloseBracket => Symbol::CloseBracket,
        Kind::Dot => Symbol::Dot,
        Kind::DotDot => Symbol::DotDot,
        Kind::At => Symbol::At,
        Kind::Comma => Symbol::Comma,
        Kind::Colons => Symbol::Colons,
        Kind::Slash => Symbol::Slash,
        Kind::DoubleSlash => Symbol::DoubleSlash,
        Kind::Bar => Symbol::Operator(Operator::Union),
        Kind::Plus => computed(ArithOp::Add),
        Kind::Minus => computed(ArithOp::Subtract),
        Kind::Equal => compared(CompareOp::Equal),
        Kind::NotEqual => compared(CompareOp::NotEqual),
        Kind::Less => compared(CompareOp::Less),
        Kind::LessOrEqual => compared(CompareOp::LessOrEqual),
        Kind::Greater => compared(CompareOp::Greater),
        Kind::GreaterOrEqual => compared(CompareOp::GreaterOrEqual),
        Kind::Multiply => computed(ArithOp::Multiply),
        Kind::And => Symbol::Operator(Operator::And),
        Kind::Or => Symbol::Operator(Operator::Or),
        Kind::Mod => computed(ArithOp::Remainder),
        Kind::Star => Symbol::Test(NodeTest::AnyName),
        Kind::Fraction => Symbol::Atom(Expr::Number(0)),
        _ => Symbol::Wrong,
    }
}

/// What a token is to the grammar. The table gets the name that it may have.
pub fn symbol_of(
    alloc: Global,
    kind: Kind,
    written: &str,
    spaces: &Spaces,
    names: &mut NameTable,
) -> Result<Symbol, NoMemory>
    ensures symbol { IfOk result (λ s. (later : List NameParts) → Grows names.new later → s ≡ symbol_of spaces.now later kind written.now) }
    ensures named { OnOk result ((later : List NameParts) → Grows names.new later → HasName spaces.now later kind written.now) }
    ensures names { OnOk result (names.new ≡ with_names names.old (names_in spaces.now kind written.now)) }
    ensures grows { Grows names.old names.new }
{
    match kind {
        Kind::Within => {
            let uri = Chars::from_text(alloc, uri_in(spaces, WrittenName::parts(written).prefix))?;
            Ok(Symbol::Test(NodeTest::Within(uri)))
        }
        Kind::Name => {
            let name = intern(alloc, written, spaces, names)?;
            Ok(Symbol::Test(NodeTest::Named(name)))
        }
        Kind::Callee => Ok(callee(written)),
        Kind::AxisName => Ok(axis_named(written)),
        Kind::Literal => {
            let text = Chars::from_text(alloc, inside(written))?;
            Ok(Symbol::Atom(Expr::Text(text)))
        }
        Kind::Number => Ok(Symbol::Atom(Expr::Number(number_value(written)))),
        Kind::Variable => {
            let name = intern(alloc, without_dollar(written), spaces, names)?;
            Ok(Symbol::Atom(Expr::Variable(name)))
        }
        other => Ok(mark_symbol(other)),
    }
}

/// The name of a variable, behind its `$`.
pub fn without_dollar(variable: &str) -> &str
    ensures { result.now ≡ without_dollar variable.now }
{
    match variable.strip_prefix('$') {
        Some(name) => name,
        None => variable,
    }
}
