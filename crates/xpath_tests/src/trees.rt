//! The trees of expressions, and the names in them.

use serna_kinds::{Name, NameTable, NodeTest, Spaces};
use std::test::Fail;
use xpath_syntax::{Expr, PathStart, read_expr};

const XML: &str = "http://www.w3.org/XML/1998/namespace";

/// The kind of an expression.
fn kind_of(expr: &Expr) -> u8 {
    match expr {
        Expr::Or(_) => 1,
        Expr::And(_) => 2,
        Expr::Compare(_, _) => 3,
        Expr::Arith(_, _) => 4,
        Expr::Negate(_, _) => 5,
        Expr::Union(_) => 6,
        Expr::Path(_, _) => 7,
        Expr::Filter(_, _) => 8,
        Expr::Text(_) => 9,
        Expr::Number(_) => 10,
        Expr::Variable(_) => 11,
        Expr::Call(_, _) => 12,
    }
}

fn kind_at(exprs: &[Expr], place: usize) -> u8 {
    match exprs.get(place) {
        Some(expr) => kind_of(expr),
        None => 0,
    }
}

/// The kinds of the first two parts of an expression, 0 where there are none; of a path the number of its steps and that of the
/// last one's predicates.
fn parts_of(expr: &Expr) -> (u8, u8) {
    match expr {
        Expr::Or(all) | Expr::And(all) | Expr::Union(all) => {
            (kind_at(all.as_slice(), 0), kind_at(all.as_slice(), 1))
        }
        Expr::Arith(first, others) => match others.as_slice() {
            [(_, second)] => (kind_of(first.get()), kind_of(second)),
            _ => (0, 0),
        },
        Expr::Filter(filtered, predicates) => {
            (kind_of(filtered.get()), kind_at(predicates.as_slice(), 0))
        }
        Expr::Path(PathStart::Context, steps) => match steps.as_slice() {
            [_] => (1, 0),
            [_, _, last] => (3, if last.predicates.is_empty() { 0 } else { 1 }),
            _ => (0, 0),
        },
        _ => (0, 0),
    }
}

/// The tree of a text; None where the text has a fault.
fn tree_of(rt: &HostRuntime, text: &str, names: &mut NameTable) -> Result<Option<Expr>, Fail> {
    let mut spaces = Spaces::new(rt.alloc());
    spaces.declare(rt.alloc(), "xml", "u")?;
    match read_expr(rt.alloc(), text, &spaces, names) {
        Ok(expr) => Ok(Some(expr)),
        Err(_) => Ok(None),
    }
}

/// Texts, each with the kind of its tree and what its parts are.
const TREES: &[(&str, u8, u8, u8)] = &[
    ("a or b and c", 1, 7, 2),
    ("-a mod b", 4, 5, 7),
    ("a//b[1]", 7, 3, 1),
    ("(a)[1]", 8, 7, 10),
];

#[test]
fn builds_the_trees(rt: HostRuntime) -> Result<(), Fail> {
    for (text, kind, first, second) in TREES {
        let mut names = NameTable::new(rt.alloc());
        let found = match tree_of(&rt, text, &mut names)? {
            Some(expr) => {
                let copied = expr.copy(rt.alloc())?;
                (kind_of(&copied), parts_of(&copied))
            }
            None => (0, (0, 0)),
        };
        assert_eq!(rt; found.0, *kind, "{text}");
        assert_eq!(rt; found.1.0, *first, "{text}");
        assert_eq!(rt; found.1.1, *second, "{text}");
    }
    Ok(())
}

/// The name of the only step.
fn name_of<'a>(expr: &Expr, names: &'a NameTable) -> Option<Name<'a>> {
    let Expr::Path(_, steps) = expr else {
        return None;
    };
    match steps.get(0)?.test {
        NodeTest::Named(id) => names.name(id),
        _ => None,
    }
}

#[test]
fn binds_xml_whatever_is_declared(rt: HostRuntime) -> Result<(), Fail> {
    let mut names = NameTable::new(rt.alloc());
    let tree = tree_of(&rt, "@xml:lang", &mut names)?;
    let uri = match &tree {
        Some(expr) => match name_of(expr, &names) {
            Some(name) => name.uri,
            None => "",
        },
        None => "",
    };
    assert_eq!(rt; uri, XML);
    Ok(())
}
