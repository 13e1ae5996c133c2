//! The tokens of an expression (XPath 1.0, section 3.7).

ghost use Rattle.std.specs.Prelude.{◌≡◌, ◌≤◌, ◌<◌, ◌+◌, ◌==◌, true, not, suc, IfOk, length};
ghost use Rattle.serna_kinds.specs.Blanks.{is_space};
ghost use Rattle.serna_kinds.specs.Qualified.{is_digit, continues_name};
ghost use Rattle.xpath_tokens.specs.Tokens.{run, local_length, name_length, begins_any, ends_operand, literal, counted, begins_number, number, variable, operator_named, name_before, named, word, pair_at, single_at, single_or_wrong, mark, begins_digit, star, front, tokens_of, IsCut};
ghost use Rattle.std.specs.List.{AllByRecursion};

use serna_kinds::{Items, NoMemory, begins_name, continues_name, is_digit, is_space};
use std::alloc::Global;

/// The most digits that a number may have.
const MOST_DIGITS: usize = 15;

/// What a token is.
#[derive(Clone, Copy, Debug, PartialEq, Eq)]
pub enum Kind {
    /// `(`
    Open,
    /// `)`
    Close,
    /// `[`
    OpenBracket,
    /// `]`
    CloseBracket,
    /// `.`
    Dot,
    /// `..`
    DotDot,
    /// `@`
    At,
    /// `,`
    Comma,
    /// `::`
    Colons,
    /// `/`
    Slash,
    /// `//`
    DoubleSlash,
    /// `|`
    Bar,
    /// `+`
    Plus,
    /// `-`
    Minus,
    /// `=`
    Equal,
    /// `!=`
    NotEqual,
    /// `<`
    Less,
    /// `<=`
    LessOrEqual,
    /// `>`
    Greater,
    /// `>=`
    GreaterOrEqual,
    /// `*` as an operator.
    Multiply,
    /// `and`
    And,
    /// `or`
    Or,
    /// `mod`
    Mod,
    /// `*` as a name test.
    Star,
    /// `p:*`
    Within,
    /// A name as a name test.
    Name,
    /// A name before `(`: a function or a node type.
    Callee,
    /// A name before `::`.
    AxisName,
    /// A text between two quotes.
    Literal,
    /// One to fifteen digits.
    Number,
    /// A number with a point.
    Fraction,
    /// `$` and a name.
    Variable,
    /// A character that begins no token, a literal that is not closed, a number of too many digits, or a name that is no
    /// operator where an operator has to stand. Nothing behind it is looked at: it goes to the end of the text.
    Wrong,
}

/// A token: its kind, the place of its first byte in the text, and the place behind its last byte.
#[derive(Clone, Copy, Debug, PartialEq, Eq)]
pub struct Token {
    pub kind: Kind,
    pub start: usize,
    pub end: usize,
}

/// How many bytes from the front can stand in a local name.
fn name_run(text: &[u8]) -> usize
    ensures value { result ≡ run continues_name text.now }
    ensures within { result ≤ length text.now }
{
    text.iter()
        .position(|byte| !continues_name(*byte))
        .unwrap_or(text.len())
}

fn digit_run(text: &[u8]) -> usize
    ensures value { result ≡ run is_digit text.now }
    ensures within { result ≤ length text.now }
{
    text.iter()
        .position(|byte| !is_digit(*byte))
        .unwrap_or(text.len())
}

fn space_run(text: &[u8]) -> usize
    ensures value { result ≡ run is_space text.now }
    ensures within { result ≤ length text.now }
{
    text.iter()
        .position(|byte| !is_space(char::from(*byte)))
        .unwrap_or(text.len())
}

/// The length of the local name at the front, 0 where there is none.
fn local_length(text: &[u8]) -> usize
    ensures value { result ≡ local_length text.now }
    ensures within { result ≤ length text.now }
{
    match text.split_first() {
        Some((first, rest)) => {
            if begins_name(*first) {
                1 + name_run(rest)
            } else {
                0
            }
        }
        None => 0,
    }
}

/// The length of the name at the front, 0 where there is none.
fn name_length(text: &[u8]) -> usize
    ensures value { result ≡ name_length text.now }
    ensures some { 0 < local_length text.now → 0 < result }
    ensures within { result ≤ length text.now }
{
    let prefix = local_length(text);
    if prefix == 0 {
        return 0;
    }
    match text[prefix..].split_first() {
        Some((colon, rest)) => {
            let local = local_length(rest);
            if *colon == b':' && 0 < local {
                prefix + (1 + local)
            } else {
                prefix
            }
        }
        None => prefix,
    }
}

fn begins_any(text: &[u8]) -> bool
    ensures { result ≡ begins_any text.now }
{
    match text {
        [colon, star, ..] => *colon == b':' && *star == b'*',
        _ => false,
    }
}

fn begins_digit(text: &[u8]) -> bool
    ensures { result ≡ begins_digit text.now }
{
    match text.first() {
        Some(byte) => is_digit(*byte),
        None => false,
    }
}

/// Whether a `*` behind this token multiplies, and a name is an operator.
fn ends_operand(kind: Kind) -> bool
    ensures { result ≡ ends_operand kind }
{
    match kind {
        Kind::Close
        | Kind::CloseBracket
        | Kind::Dot
        | Kind::DotDot
        | Kind::Star
        | Kind::Within
        | Kind::Name
        | Kind::Callee
        | Kind::AxisName
        | Kind::Literal
        | Kind::Number
        | Kind::Fraction
        | Kind::Variable
        | Kind::Wrong => true,
        _ => false,
    }
}

/// A literal, behind its first quote.
fn literal(quote: u8, rest: &[u8]) -> (Kind, usize)
    ensures value { result ≡ literal quote rest.now }
    ensures some { 1 ≤ result.1 }
    ensures within { result.1 ≤ length rest.now + 1 }
{
    match rest.iter().position(|byte| *byte == quote) {
        Some(end) => (Kind::Literal, end + 2),
        None => (Kind::Wrong, 1 + rest.len()),
    }
}

/// A number of so many digits, which is this long.
fn counted(kind: Kind, digits: usize, size: usize, text: &[u8]) -> (Kind, usize)
    ensures { result ≡ counted kind digits size text.now }
{
    if digits > MOST_DIGITS {
        (Kind::Wrong, text.len())
    } else {
        (kind, size)
    }
}

fn begins_number(text: &[u8]) -> bool
    ensures { result ≡ begins_number text.now }
{
    match text.split_first() {
        Some((first, rest)) => is_digit(*first) || *first == b'.' && begins_digit(rest),
        None => false,
    }
}

/// A number.
fn number(text: &[u8]) -> (Kind, usize)
    requires { begins_number text.now ≡ true }
    ensures value { result ≡ number text.now }
    ensures some { 1 ≤ result.1 }
    ensures within { result.1 ≤ length text.now }
{
    let whole = digit_run(text);
    match text[whole..].split_first() {
        Some((point, rest)) => {
            if *point == b'.' {
                let part = digit_run(rest);
                counted(Kind::Fraction, whole + part, whole + (1 + part), text)
            } else {
                counted(Kind::Number, whole, whole, text)
            }
        }
        None => counted(Kind::Number, whole, whole, text),
    }
}

/// A variable, behind its `$`.
fn variable(rest: &[u8]) -> (Kind, usize)
    ensures value { result ≡ variable rest.now }
    ensures some { 1 ≤ result.1 }
    ensures within { result.1 ≤ length rest.now + 1 }
{
    let name = name_length(rest);
    if 0 < name {
        (Kind::Variable, 1 + name)
    } else {
        (Kind::Wrong, 1 + rest.len())
    }
}

/// The operator of that name. There is no `div`.
fn operator_named(name: &[u8]) -> Option<Kind>
    ensures { result ≡ operator_named name.now }
{
    if name == b"and".as_slice() {
        Some(Kind::And)
    } else if name == b"or".as_slice() {
        Some(Kind::Or)
    } else if name == b"mod".as_slice() {
        Some(Kind::Mod)
    } else {
        None
    }
}

/// What a name is by the text behind it, which begins with no white space.
fn name_before(text: &[u8]) -> Kind
    ensures { result ≡ name_before text.now }
{
    match text {
        [] => Kind::Name,
        [first] => {
            if *first == b'(' {
                Kind::Callee
            } else {
                Kind::Name
            }
        }
        [first, second, ..] => {
            if *first == b'(' {
                Kind::Callee
            } else if *first == b':' && *second == b':' {
                Kind::AxisName
            } else {
                Kind::Name
            }
        }
    }
}

/// A name of that length, by whether an operand stands before it.
fn named(behind: bool, size: usize, text: &[u8]) -> (Kind, usize)
    requires some { 1 ≤ size }
    requires within { size ≤ length text.now }
    ensures value { result ≡ named behind size text.now }
    ensures some { 1 ≤ result.1 }
    ensures within { result.1 ≤ length text.now }
{
    if behind {
        match operator_named(&text[..size]) {
            Some(operator) => (operator, size),
            None => (Kind::Wrong, text.len()),
        }
    } else {
        let rest = &text[size..];
        (name_before(&rest[space_run(rest)..]), size)
    }
}

/// A name or `p:*`, whose first byte begins a name.
fn word(behind: bool, text: &[u8]) -> (Kind, usize)
    requires { 0 < local_length text.now }
    ensures value { result ≡ word behind text.now }
    ensures some { 1 ≤ result.1 }
    ensures within { result.1 ≤ length text.now }
{
    let prefix = local_length(text);
    if begins_any(&text[prefix..]) {
        (Kind::Within, prefix + 2)
    } else {
        named(behind, name_length(text), text)
    }
}

fn pair_at(first: u8, second: u8) -> Option<Kind>
    ensures { result ≡ pair_at first second }
{
    if first == b':' && second == b':' {
        Some(Kind::Colons)
    } else if first == b'.' && second == b'.' {
        Some(Kind::DotDot)
    } else if first == b'/' && second == b'/' {
        Some(Kind::DoubleSlash)
    } else if first == b'!' && second == b'=' {
        Some(Kind::NotEqual)
    } else if first == b'<' && second == b'=' {
        Some(Kind::LessOrEqual)
    } else if first == b'>' && second == b'=' {
        Some(Kind::GreaterOrEqual)
    } else {
        None
    }
}

fn single_at(byte: u8) -> Option<Kind>
    ensures { result ≡ single_at byte }
{
    if byte == b'(' {
        Some(Kind::Open)
    } else if byte == b')' {
        Some(Kind::Close)
    } else if byte == b'[' {
        Some(Kind::OpenBracket)
    } else if byte == b']' {
        Some(Kind::CloseBracket)
    } else if byte == b'.' {
        Some(Kind::Dot)
    } else if byte == b'@' {
        Some(Kind::At)
    } else if byte == b',' {
        Some(Kind::Comma)
    } else if byte == b'/' {
        Some(Kind::Slash)
    } else if byte == b'|' {
        Some(Kind::Bar)
    } else if byte == b'+' {
        Some(Kind::Plus)
    } else if byte == b'-' {
        Some(Kind::Minus)
    } else if byte == b'=' {
        Some(Kind::Equal)
    } else if byte == b'<' {
        Some(Kind::Less)
    } else if byte == b'>' {
        Some(Kind::Greater)
    } else {
        None
    }
}

fn single(byte: u8, text: &[u8]) -> (Kind, usize)
    requires { 1 ≤ length text.now }
    ensures value { result ≡ single_or_wrong (single_at byte) text.now }
    ensures some { 1 ≤ result.1 }
    ensures within { result.1 ≤ length text.now }
{
    match single_at(byte) {
        Some(kind) => (kind, 1),
        None => (Kind::Wrong, text.len()),
    }
}

/// A mark, the longer one where two can stand.
fn mark(text: &[u8]) -> (Kind, usize)
    requires { 1 ≤ length text.now }
    ensures value { result ≡ mark text.now }
    ensures some { 1 ≤ result.1 }
    ensures within { result.1 ≤ length text.now }
{
    match text {
        [] => (Kind::Wrong, 0),
        [byte] => single(*byte, text),
        [first, second, ..] => match pair_at(*first, *second) {
            Some(kind) => (kind, 2),
            None => single(*first, text),
        },
    }
}

/// The token at the front of a text, which begins with no white space, and its length.
fn front(behind: bool, text: &[u8]) -> (Kind, usize)
    requires { 1 ≤ length text.now }
    ensures value { result ≡ front behind text.now }
    ensures some { 1 ≤ result.1 }
    ensures within { result.1 ≤ length text.now }
{
    let Some((first, rest)) = text.split_first() else {
        return (Kind::Wrong, 0);
    };
    let byte = *first;
    if byte == b'"' || byte == b'\'' {
        literal(byte, rest)
    } else if begins_number(text) {
        number(text)
    } else if byte == b'$' {
        variable(rest)
    } else if begins_name(byte) {
        word(behind, text)
    } else if byte == b'*' {
        (star(behind), 1)
    } else {
        mark(text)
    }
}

fn star(behind: bool) -> Kind
    ensures { result ≡ star behind }
{
    if behind { Kind::Multiply } else { Kind::Star }
}

/// The tokens of a text, in its order. Where no token can stand, the last one is `Wrong`.
pub fn tokens_of(alloc: Global, text: &str) -> Result<Items<Token>, NoMemory>
    ensures value { IfOk result (λ tokens. tokens ≡ tokens_of text.now) }
    ensures cut { IfOk result (AllByRecursion (IsCut text.now)) }
{
    let bytes = text.as_bytes();
    let mut tokens = Items::new(alloc);
    let mut behind = false;
    let mut at = 0;
    while at < bytes.len() {
        if is_space(char::from(bytes[at])) {
            at += 1;
        } else {
            let (kind, size) = front(behind, &bytes[at..]);
            tokens.push(Token {
                kind,
                start: at,
                end: at + size,
            })?;
            behind = ends_operand(kind);
            at += size;
        }
    }
    Ok(tokens)
}
