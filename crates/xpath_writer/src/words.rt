//! The words of an expression: what each token is written as.

ghost use Rattle.std.specs.Prelude.{◌≡◌, ◌++◌, ◌∷◌, [], ◌==◌, OnOk};
ghost use Rattle.std.specs.String.{string_bytes};
ghost use Rattle.std.specs.List.{list_any};
ghost use Rattle.std.specs.Fmt.{decimal};
ghost use Rattle.xpath_tokens.specs.declared.tokens.Kind.TheVariants as kind;
ghost use Rattle.xpath_writer.specs.Writing.{spelled, mark_text, mark, operator_kind, is_named, axis_text, function_text, text_function_text, quote_for, quoted};

use crate::NoMemory;
use serna_kinds::{Axis, CompareOp, TextFunction};
use xpath_tokens::{Kind, Operator};
use xpath_trees::{ArithOp, Function};

pub fn push_word(out: &mut String, word: &str) -> Result<(), NoMemory>
    ensures { OnOk result (string_bytes out.new ≡ string_bytes out.old ++ (word.now ++ 32 ∷ [])) }
{
    out.push_str(word)?;
    out.push_str(" ")?;
    Ok(())
}

/// How a token is written that its kind tells alone.
pub fn mark_text(kind: Kind) -> &'static str
    ensures { result.now ≡ mark_text kind }
{
    match kind {
        Kind::Open => "(",
        Kind::Close => ")",
        Kind::OpenBracket => "[",
        Kind::CloseBracket => "]",
        Kind::Dot => ".",
        Kind::DotDot => "..",
        Kind::At => "@",
        Kind::Comma => ",",
        Kind::Colons => "::",
        Kind::Slash => "/",
        Kind::DoubleSlash => "//",
        Kind::Bar => "|",
        Kind::Plus => "+",
        Kind::Minus => "-",
        Kind::Equal => "=",
        Kind::NotEqual => "!=",
        Kind::Less => "<",
        Kind::LessOrEqual => "<=",
        Kind::Greater => ">",
        Kind::GreaterOrEqual => ">=",
        Kind::Multiply => "*",
        Kind::And => "and",
        Kind::Or => "or",
        Kind::Mod => "mod",
        Kind::Star => "*",
        _ => "",
    }
}

pub fn push_mark(out: &mut String, kind: Kind) -> Result<(), NoMemory>
    ensures { OnOk result (string_bytes out.new ≡ string_bytes out.old ++ spelled (mark kind ∷ [])) }
{
    push_word(out, mark_text(kind))
}

pub fn compare_kind(op: CompareOp) -> Kind
    ensures { result ≡ operator_kind (Operator.Compare op) }
{
    match op {
        CompareOp::Equal => Kind::Equal,
        CompareOp::NotEqual => Kind::NotEqual,
        CompareOp::Less => Kind::Less,
        CompareOp::LessOrEqual => Kind::LessOrEqual,
        CompareOp::Greater => Kind::Greater,
        CompareOp::GreaterOrEqual => Kind::GreaterOrEqual,
    }
}

pub fn arith_kind(op: ArithOp) -> Kind
    ensures { result ≡ operator_kind (Operator.Arith op) }
{
    match op {
        ArithOp::Add => Kind::Plus,
        ArithOp::Subtract => Kind::Minus,
        ArithOp::Multiply => Kind::Multiply,
        ArithOp::Remainder => Kind::Mod,
    }
}

pub fn operator_kind(op: Operator) -> Kind
    ensures { result ≡ operator_kind op }
{
    match op {
        Operator::Or => Kind::Or,
        Operator::And => Kind::And,
        Operator::Compare(op) => compare_kind(op),
        Operator::Arith(op) => arith_kind(op),
        Operator::Union => Kind::Bar,
    }
}

/// Whether the operator is told from a name or `*` by the token before it alone.
pub fn is_named(kind: Kind) -> bool
    ensures { result ≡ is_named kind }
{
    match kind {
        Kind::Or => true,
        Kind::And => true,
        Kind::Multiply => true,
        Kind::Mod => true,
        _ => false,
    }
}

pub fn axis_text(axis: Axis) -> &'static str
    ensures { result.now ≡ axis_text axis }
{
    match axis {
        Axis::Child => "child",
        Axis::Descendant => "descendant",
        Axis::DescendantOrSelf => "descendant-or-self",
        Axis::Itself => "self",
        Axis::Parent => "parent",
        Axis::Ancestor => "ancestor",
        Axis::AncestorOrSelf => "ancestor-or-self",
        Axis::FollowingSibling => "following-sibling",
        Axis::PrecedingSibling => "preceding-sibling",
        Axis::Following => "following",
        Axis::Preceding => "preceding",
        Axis::Attribute => "attribute",
    }
}

pub fn text_function_text(function: TextFunction) -> &'static str
    ensures { result.now ≡ text_function_text function }
{
    match function {
        TextFunction::Concat => "concat",
        TextFunction::StartsWith => "starts-with",
        TextFunction::Contains => "contains",
        TextFunction::SubstringBefore => "substring-before",
        TextFunction::SubstringAfter => "substring-after",
        TextFunction::Substring => "substring",
        TextFunction::StringLength => "string-length",
        TextFunction::NormalizeSpace => "normalize-space",
        TextFunction::Translate => "translate",
    }
}

pub fn function_text(function: Function) -> &'static str
    ensures { result.now ≡ function_text function }
{
    match function {
        Function::Last => "last",
        Function::Position => "position",
        Function::Count => "count",
        Function::LocalName => "local-name",
        Function::NamespaceUri => "namespace-uri",
        Function::Name => "name",
        Function::Text => "string",
        Function::On(function) => text_function_text(function),
        Function::Boolean => "boolean",
        Function::Not => "not",
        Function::True => "true",
        Function::False => "false",
        Function::Number => "number",
        Function::Sum => "sum",
        Function::Floor => "floor",
        Function::Ceiling => "ceiling",
        Function::Round => "round",
        Function::Current => "current",
        Function::GenerateId => "generate-id",
    }
}

pub fn has_quote(text: &str) -> bool
    ensures { result ≡ list_any (λ b. b == 34) text.now }
{
    text.as_bytes().iter().any(|byte| *byte == b'"')
}

/// The quote of a literal: the other one where the text has `"`.
pub fn quote_for(text: &str) -> &'static str
    ensures { result.now ≡ quote_for text.now ∷ [] }
{
    if has_quote(text) { "'" } else { "\"" }
}

pub fn push_literal(out: &mut String, text: &str) -> Result<(), NoMemory>
    ensures { OnOk result (string_bytes out.new ≡ string_bytes out.old ++ spelled ((kind.Literal, quoted text.now) ∷ [])) }
{
    let quote = quote_for(text);
    out.push_str(quote)?;
    out.push_str(text)?;
    push_word(out, quote)
}

pub fn push_number(out: &mut String, number: u64) -> Result<(), NoMemory>
    ensures { OnOk result (string_bytes out.new ≡ string_bytes out.old ++ spelled ((kind.Number, decimal number) ∷ [])) }
{
    write!(out, "{number} ")
}
