//! Patterns: their first faults, and the steps that are read.

use crate::expressions::{number_of, repeated};
use serna_kinds::{Axis, NameTable, Spaces};
use std::test::Fail;
use xpath_syntax::{Alternative, ExprFault, Pattern, read_pattern};

/// Reads a pattern where the prefix `p` is declared.
fn read(rt: &HostRuntime, text: &str) -> Result<Result<Pattern, ExprFault>, Fail> {
    let mut names = NameTable::new(rt.alloc());
    let mut spaces = Spaces::new(rt.alloc());
    spaces.declare(rt.alloc(), "p", "u")?;
    Ok(read_pattern(rt.alloc(), text, &spaces, &mut names))
}

/// The rule, from 20, and the place of the first fault; 0 and 0 where there is none.
fn pattern_fault_of(rt: &HostRuntime, text: &str) -> Result<(u8, usize), Fail> {
    match read(rt, text)? {
        Ok(_) => Ok((0, 0)),
        Err(ExprFault::Refused(rule, place)) => Ok((number_of(rule), place)),
        Err(ExprFault::NoMemory) => Ok((1, 0)),
    }
}

const FAULTY: &[(&str, u8, usize)] = &[
    ("", 20, 0),
    (".", 20, 0),
    ("..", 20, 0),
    ("a/..", 20, 2),
    ("a/.", 20, 2),
    ("descendant::a", 20, 0),
    ("a/self::b", 20, 2),
    ("foo()", 20, 0),
    ("a/foo()", 20, 2),
    ("key('k','v')", 20, 0),
    ("id('a')", 20, 0),
    ("a[current()]", 21, 2),
    ("a[b[not(current())]]", 21, 8),
    ("a[foo()]", 21, 2),
    ("$x", 20, 0),
    ("'a'", 20, 0),
    ("1", 20, 0),
    ("-a", 20, 0),
    ("a|", 20, 2),
    ("|a", 20, 0),
    ("a||b", 20, 2),
    ("a//", 20, 3),
    ("/|//", 20, 4),
    ("a[", 20, 2),
    ("a[1", 20, 3),
    ("a[b]]", 20, 4),
    ("q:a", 24, 0),
    ("a=b", 20, 1),
    ("(a)", 20, 0),
    ("processing-instruction('x')", 20, 0),
    ("namespace::a", 20, 0),
    ("a[1.5]/.", 23, 2),
];

#[test]
fn finds_the_first_fault_of_a_pattern(rt: HostRuntime) -> Result<(), Fail> {
    for (text, rule, place) in FAULTY {
        let found = pattern_fault_of(&rt, text)?;
        assert_eq!(rt; found.0, *rule, "{text}");
        assert_eq!(rt; found.1, *place, "{text}");
    }
    Ok(())
}

const GOOD: &[&str] = &[
    "/",
    "a",
    "a|b",
    "/|a",
    "//a",
    "a//b[@c='d']/@e",
    "child::a",
    "attribute::*",
    "text()",
    "node()",
    "comment()",
    "@node()",
    "@p:x",
    "p:*",
    "a[current]",
    "a[$q or (b|.)][last()]/c",
    "a[../b[position() = 1]]|/c",
];

#[test]
fn reads_patterns(rt: HostRuntime) -> Result<(), Fail> {
    for text in GOOD {
        let found = pattern_fault_of(&rt, text)?;
        assert_eq!(rt; found.0, 0, "{text}");
    }
    Ok(())
}

/// Digits for an alternative's start and the axes of its steps: 1 from the root, 2 child, 3 attribute, 4 descendant-or-self.
fn shape_of(path: &Alternative) -> u32 {
    let mut shape = if path.from_root { 1 } else { 0 };
    for step in path.steps.as_slice() {
        let digit = match step.axis {
            Axis::Child => 2,
            Axis::Attribute => 3,
            Axis::DescendantOrSelf => 4,
            _ => 9,
        };
        shape = shape % 10_000 * 10 + digit;
    }
    shape
}

/// The shape of the only alternative; 0 where there is no pattern.
fn shape_of_text(rt: &HostRuntime, text: &str) -> Result<u32, Fail> {
    match read(rt, text)? {
        Ok(pattern) => match pattern.alternatives.as_slice() {
            [path] => Ok(shape_of(path)),
            _ => Ok(0),
        },
        Err(_) => Ok(0),
    }
}

const SHAPES: &[(&str, u32)] = &[
    ("/", 1),
    ("a", 2),
    ("/a", 12),
    ("//a", 142),
    ("a//b/@c", 2423),
    ("attribute::a", 3),
];

#[test]
fn builds_the_steps(rt: HostRuntime) -> Result<(), Fail> {
    for (text, shape) in SHAPES {
        assert_eq!(rt; shape_of_text(&rt, text)?, *shape, "{text}");
    }
    Ok(())
}

#[test]
fn reads_a_long_chain_and_refuses_deep_brackets(rt: HostRuntime) -> Result<(), Fail> {
    let mut chain = repeated(&rt, "a|", 10_000)?;
    chain.push_str("b")?;
    assert_eq!(rt; pattern_fault_of(&rt, chain.as_str())?.0, 0);
    let deep = repeated(&rt, "a[", 65)?;
    let found = pattern_fault_of(&rt, deep.as_str())?;
    assert_eq!(rt; found.0, 20);
    assert_eq!(rt; found.1, 129);
    Ok(())
}
