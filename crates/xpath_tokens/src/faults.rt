//! The faults of an expression or a pattern that are none of its grammar.

ghost use Rattle.std.specs.Prelude.{◌≡◌, ◌≤◌, IfSome, length};
ghost use Rattle.std.specs.List.{AllByRecursion};
ghost use Rattle.xpath_tokens.specs.Tokens.{IsCut};
ghost use Rattle.xpath_tokens.specs.Faults.{opens, closes, is_comma, commas, arguments_behind, arguments_of, function_fault, function_in, callee_fault, prefix_fault, fault_at, fault_among};

use crate::symbols::written_at;
use crate::tokens::{Kind, Token};
use crate::words::{function_named, is_node_type, without_dollar};
use serna_kinds::{Spaces, WrittenName};
use xpath_trees::Function;

/// The rules that an expression or a pattern can break.
#[derive(Clone, Copy, Debug, PartialEq, Eq)]
pub enum ExprRule {
    /// Rule 20: no expression, or no pattern, can go on here.
    Syntax,
    /// Rule 21: there is no function of that name.
    UnknownFunction,
    /// Rule 22: the function does not take so many arguments.
    WrongArity,
    /// Rule 23: a number with a point.
    Fraction,
    /// Rule 24: a prefix that the document does not declare.
    UnboundPrefix,
}

/// What a text is read as.
#[derive(Clone, Copy, Debug, PartialEq, Eq)]
pub enum ReadAs {
    Expression,
    Pattern,
}

fn opens(kind: Kind) -> bool
    ensures { result ≡ opens kind }
{
    match kind {
        Kind::Open | Kind::OpenBracket => true,
        _ => false,
    }
}

fn closes(kind: Kind) -> bool
    ensures { result ≡ closes kind }
{
    match kind {
        Kind::Close | Kind::CloseBracket => true,
        _ => false,
    }
}

fn is_comma(kind: Kind) -> bool
    ensures { result ≡ is_comma kind }
{
    match kind {
        Kind::Comma => true,
        _ => false,
    }
}

/// The commas up to the bracket that closes the innermost open one, besides those in inner brackets.
fn commas(tokens: &[Token]) -> Option<usize>
    ensures value { result ≡ commas 0 0 tokens.now }
    ensures few { IfSome result (λ n. n ≤ length tokens.now) }
{
    let mut rest = tokens;
    let mut depth = 0usize;
    let mut count = 0usize;
    while let Some((token, behind)) = rest.split_first() {
        if opens(token.kind) {
            depth += 1;
        } else if closes(token.kind) {
            if depth == 0 {
                return Some(count);
            }
            depth -= 1;
        } else if is_comma(token.kind) && depth == 0 {
            count += 1;
        }
        rest = behind;
    }
    None
}

/// How many arguments stand behind the `(` of a call, where the call is closed.
fn arguments_behind(tokens: &[Token]) -> Option<usize>
    ensures { result ≡ arguments_behind tokens.now }
{
    let first = tokens.first()?;
    if closes(first.kind) {
        return Some(0);
    }
    match commas(tokens) {
        Some(count) => Some(count + 1),
        None => None,
    }
}

/// How many arguments a call has, by the tokens behind the function's name.
fn arguments_of(tokens: &[Token]) -> Option<usize>
    ensures { result ≡ arguments_of tokens.now }
{
    match tokens.split_first() {
        Some((_, behind)) => arguments_behind(behind),
        None => None,
    }
}

fn function_fault(function: Option<Function>, behind: &[Token]) -> Option<ExprRule>
    ensures { result ≡ function_fault function behind.now }
{
    match function {
        None => Some(ExprRule::UnknownFunction),
        Some(known) => match arguments_of(behind) {
            None => None,
            Some(count) => {
                if known.takes(count) {
                    None
                } else {
                    Some(ExprRule::WrongArity)
                }
            }
        },
    }
}

/// The function of that name, where there is one. There is no `current` in a pattern.
fn function_in(as_what: ReadAs, name: &str) -> Option<Function>
    ensures { result ≡ function_in as_what name.now }
{
    match as_what {
        ReadAs::Expression => function_named(name),
        ReadAs::Pattern => {
            if name == "current" {
                None
            } else {
                function_named(name)
            }
        }
    }
}

/// A name before `(`, with the tokens behind it.
fn callee_fault(as_what: ReadAs, name: &str, behind: &[Token]) -> Option<ExprRule>
    ensures { result ≡ callee_fault as_what name.now behind.now }
{
    if is_node_type(name) {
        None
    } else {
        function_fault(function_in(as_what, name), behind)
    }
}

/// A name whose prefix is not bound.
fn prefix_fault(spaces: &Spaces, name: &str) -> Option<ExprRule>
    ensures { result ≡ prefix_fault spaces.now name.now }
{
    match spaces.attribute_uri(WrittenName::parts(name).prefix) {
        Some(_) => None,
        None => Some(ExprRule::UnboundPrefix),
    }
}

/// The fault of a token of this kind that is written so, with the tokens behind it.
fn fault_at(
    as_what: ReadAs,
    spaces: &Spaces,
    kind: Kind,
    written: &str,
    behind: &[Token],
) -> Option<ExprRule>
    ensures { result ≡ fault_at as_what spaces.now kind written.now behind.now }
{
    match kind {
        Kind::Fraction => Some(ExprRule::Fraction),
        Kind::Within => prefix_fault(spaces, written),
        Kind::Name => prefix_fault(spaces, written),
        Kind::Variable => prefix_fault(spaces, without_dollar(written)),
        Kind::Callee => callee_fault(as_what, written, behind),
        _ => None,
    }
}

/// The first of the tokens that has a fault, with its place.
pub fn fault_among(
    as_what: ReadAs,
    spaces: &Spaces,
    text: &str,
    tokens: &[Token],
) -> Option<(ExprRule, usize)>
    requires { AllByRecursion (IsCut text.now) tokens.now }
    ensures { result ≡ fault_among as_what spaces.now text.now tokens.now }
{
    let mut rest = tokens;
    while let Some((token, behind)) = rest.split_first() {
        let written = written_at(text, *token);
        if let Some(rule) = fault_at(as_what, spaces, token.kind, written, behind) {
            return Some((rule, token.start));
        }
        rest = behind;
    }
    None
}
