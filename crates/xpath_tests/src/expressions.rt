//! Expressions: their first faults, the limits, and their canonical texts.

use serna_kinds::{Chars, NameTable, Spaces};
use std::test::Fail;
use xpath_syntax::{ExprFault, ExprRule, read_expr};
use xpath_writer::write_expr;

/// The rule, from 20, and the place of the first fault; 0 and 0 where there is none.
fn fault_of(rt: &HostRuntime, text: &str) -> Result<(u8, usize), Fail> {
    let mut names = NameTable::new(rt.alloc());
    let mut spaces = Spaces::new(rt.alloc());
    spaces.declare(rt.alloc(), "p", "u")?;
    match read_expr(rt.alloc(), text, &spaces, &mut names) {
        Ok(_) => Ok((0, 0)),
        Err(ExprFault::Refused(rule, place)) => Ok((number_of(rule), place)),
        Err(ExprFault::NoMemory) => Ok((1, 0)),
    }
}

pub fn number_of(rule: ExprRule) -> u8 {
    match rule {
        ExprRule::Syntax => 20,
        ExprRule::UnknownFunction => 21,
        ExprRule::WrongArity => 22,
        ExprRule::Fraction => 23,
        ExprRule::UnboundPrefix => 24,
    }
}

/// Texts, each with the rule and the place of its first fault.
const FAULTY: &[(&str, u8, usize)] = &[
    ("1.5", 23, 0),
    (".5", 23, 0),
    ("a 1.5", 20, 2),
    ("1 div 2", 20, 2),
    ("a div b", 20, 2),
    ("id(1)", 21, 0),
    ("count()", 22, 0),
    ("count(a,b)", 22, 0),
    ("concat('a')", 22, 0),
    ("count(substring(a,1))", 0, 0),
    ("count(substring(a,1,2))", 0, 0),
    ("count(substring(a))", 22, 6),
    ("q:a", 24, 0),
    ("$q:x", 24, 0),
    ("'abc", 20, 0),
    ("a[", 20, 2),
    ("(a", 20, 2),
    ("a/foo()", 20, 2),
    ("processing-instruction('x')", 21, 0),
    ("a/processing-instruction('x')", 20, 2),
    ("namespace::a", 20, 0),
    ("//", 20, 2),
    ("", 20, 0),
    ("a|-b", 20, 2),
    (".[1]", 20, 1),
    ("..[1]", 20, 2),
    ("$ x", 20, 0),
    ("p : a", 20, 2),
    ("q:foo()", 21, 0),
    ("count(a) + count(a,b) + ]", 22, 11),
    ("count(a,", 20, 8),
    ("1234567890123456", 20, 0),
    ("1.234567890123456", 20, 0),
    ("1 mod-1", 20, 2),
];

/// Texts without fault.
const GOOD: &[&str] = &[
    "div",
    "* * *",
    "a//b[@c='d']/..",
    "-7 mod 2 = -1",
    "text()[1]",
    "/",
    "/a or b and c",
    "count(p:a) >= last() - 1",
    "(a|b)[1]/c",
    "concat('x', \"y\", é)",
    "ancestor-or-self :: node ( )",
    "true()",
    "and",
    "- - -1",
    "1mod 1",
    "@xml:lang",
    "xml:*",
];

#[test]
fn finds_the_first_fault(rt: HostRuntime) -> Result<(), Fail> {
    for (text, rule, place) in FAULTY {
        let found = fault_of(&rt, text)?;
        assert_eq!(rt; found.0, *rule, "{text}");
        assert_eq!(rt; found.1, *place, "{text}");
    }
    for text in GOOD {
        assert_eq!(rt; fault_of(&rt, text)?.0, 0, "{text}");
    }
    Ok(())
}

/// A text made of so many copies of a part.
pub fn repeated(rt: &HostRuntime, part: &str, times: usize) -> Result<String, Fail> {
    let mut text = String::new(rt.alloc());
    for _ in 0..times {
        text.push_str(part)?;
    }
    Ok(text)
}

#[test]
fn reads_long_chains_and_refuses_deep_brackets(rt: HostRuntime) -> Result<(), Fail> {
    let mut chain = repeated(&rt, "1+", 10_000)?;
    chain.push_str("1")?;
    assert_eq!(rt; fault_of(&rt, chain.as_str())?.0, 0);
    let deep = repeated(&rt, "(", 65)?;
    let found = fault_of(&rt, deep.as_str())?;
    assert_eq!(rt; found.0, 20);
    assert_eq!(rt; found.1, 64);
    Ok(())
}

#[test]
fn reads_and_writes_as_many_brackets_as_may_be(rt: HostRuntime) -> Result<(), Fail> {
    let mut deep = repeated(&rt, "a[", 64)?;
    deep.push_str("1")?;
    deep.push_str(repeated(&rt, "]", 64)?.as_str())?;
    assert_eq!(rt; fault_of(&rt, deep.as_str())?.0, 0);
    let once = written(&rt, deep.as_str())?;
    assert_eq!(rt; fault_of(&rt, once.as_text())?.0, 0);
    Ok(())
}

/// The text of an expression that is read from a text; empty where the text is none.
fn written(rt: &HostRuntime, text: &str) -> Result<Chars, Fail> {
    let mut names = NameTable::new(rt.alloc());
    let mut spaces = Spaces::new(rt.alloc());
    spaces.declare(rt.alloc(), "p", "u")?;
    match read_expr(rt.alloc(), text, &spaces, &mut names) {
        Ok(expr) => Ok(write_expr(rt.alloc(), &expr, &spaces, &names)?),
        Err(_) => Ok(Chars::new(rt.alloc())?),
    }
}

/// Expressions, each with its canonical text.
const WRITTEN: &[(&str, &str)] = &[
    ("-7 mod 2 = -1", "- 7 mod 2 = - 1 "),
    ("(a or b) and c", "( a or b ) and c "),
    ("a or (b and c)", "a or b and c "),
    ("a/descendant-or-self::node()/@b", "a // @ b "),
    (
        "//descendant-or-self::node()/..",
        "// descendant-or-self :: node ( ) / .. ",
    ),
    ("self::node()[p:x]", "self :: node ( ) [ p:x ] "),
    ("child::p:*/.", "p:* / . "),
    ("xml:*/@xml:lang", "xml:* / @ xml:lang "),
    ("(/) or / = (/)*1", "( / ) or / = ( / ) * 1 "),
    (
        "(a|b)[1]/c | ((d)[2])[3]",
        "( a | b ) [ 1 ] / c | ( ( d ) [ 2 ] ) [ 3 ] ",
    ),
    ("1 - (2 - 3) - - (- $p:v)", "1 - ( 2 - 3 ) - - ( - $p:v ) "),
    (
        "concat('\"',\"'\", count(text()))",
        "concat ( '\"' , \"'\" , count ( text ( ) ) ) ",
    ),
];

#[test]
fn writes_what_reads_back(rt: HostRuntime) -> Result<(), Fail> {
    for (text, wanted) in WRITTEN {
        let once = written(&rt, text)?;
        assert_eq!(rt; once.as_text(), *wanted, "{text}");
        let twice = written(&rt, once.as_text())?;
        assert_eq!(rt; twice.as_text(), *wanted, "{text}");
    }
    Ok(())
}
