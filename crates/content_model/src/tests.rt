use crate::{Model, ModelFault, Symbols};
use std::test::Fail;

/// Whether the model allows the children, which are separated by spaces. A text is `-`.
fn is_allowed(rt: &HostRuntime, model: &str, children: &str) -> Result<bool, Fail> {
    let mut symbols = Symbols::new(rt.alloc());
    let model = Model::read(rt.alloc(), model, &mut symbols)?;
    let mut word = Vec::new(rt.alloc());
    for child in children.split_whitespace() {
        if child == "-" {
            word.push(0)?;
        } else {
            word.push(symbols.intern(rt.alloc(), child)?)?;
        }
    }
    Ok(model.allows(rt.alloc(), word.as_slice())?)
}

/// A model, children, and whether the model allows them.
type Case = (&'static str, &'static str, bool);

/// From the language of content particles (XML 1.0, 3.2.1 and 3.2.2).
const ALLOWED: &[Case] = &[
    ("(a,b?)*", "a b a", true),
    ("(a,b?)*", "", true),
    ("(a,b?)*", "b", false),
    ("((a|b)+,c)", "a b c", true),
    ("((a|b)+,c)", "c", false),
    ("(a?,a?)", "a a", true),
    ("(a?,a?)", "a a a", false),
    ("(#PCDATA|a)*", "- a -", true),
    ("(#PCDATA|a)*", "b", false),
    ("(#PCDATA)", "-", true),
    ("(#PCDATA)*", "- -", true),
    ("(#PCDATA)*", "a", false),
    ("EMPTY", "", true),
    ("EMPTY", "a", false),
    ("ANY", "a -", true),
    ("(a*)*", "a a", true),
    ("(a*)*", "", true),
    ("( EMPTY , ANY ) +", "EMPTY ANY", true),
    ("(a)", "-", false),
    ("  (a)  ", "a", true),
    ("(p:a|b)", "p:a", true),
    ("(p:a|b)", "a", false),
    ("(größe,東)", "größe 東", true),
    ("(größe,東)", "grosse 東", false),
    (
        "((((((((((((((((((((((((((((((((((((((((((((((((((((((((((((((((a))))))))))))))))))))))))))))))))))))))))))))))))))))))))))))))))",
        "a",
        true,
    ),
];

#[test]
fn allows_by_the_table(rt: HostRuntime) -> Result<(), Fail> {
    for (model, children, want) in ALLOWED {
        assert_eq!(rt; is_allowed(&rt, model, children)?, *want, "{model}");
    }
    Ok(())
}

/// Texts that are no models, and the first byte at which none can go on.
const FAULTS: &[(&str, usize)] = &[
    ("(a,b|c)", 4),
    ("(a", 2),
    ("()", 1),
    ("(#PCDATA|a)", 11),
    ("(a,,b)", 3),
    ("a", 0),
    ("(a))", 3),
    (
        "((((((((((((((((((((((((((((((((((((((((((((((((((((((((((((((((((",
        64,
    ),
    ("", 0),
    ("EMPTYX", 5),
    ("(a:)", 3),
    ("(a\tb)", 2),
];

#[test]
fn finds_the_first_fault(rt: HostRuntime) -> Result<(), Fail> {
    let mut symbols = Symbols::new(rt.alloc());
    for (text, place) in FAULTS {
        match Model::read(rt.alloc(), text, &mut symbols) {
            Err(ModelFault::Syntax(at)) => assert_eq!(rt; at, *place, "{text}"),
            _ => assert!(rt; false, "{text} was read"),
        }
    }
    Ok(())
}

/// The names of `(b,(a|b)?,a)` by their first places: `b` is 1 and `a` is 2.
const NUMBERS: &[u64] = &[1, 2, 1, 2];

#[test]
fn names_stand_as_they_are_written(rt: HostRuntime) -> Result<(), Fail> {
    let mut symbols = Symbols::new(rt.alloc());
    let model = Model::read(rt.alloc(), "(b,(a|b)?,a)", &mut symbols)?;
    let names = model.names(rt.alloc())?;
    assert_eq!(rt; names.as_slice(), NUMBERS);
    Ok(())
}

#[test]
fn numbers_names(rt: HostRuntime) -> Result<(), Fail> {
    let mut symbols = Symbols::new(rt.alloc());
    assert_eq!(rt; symbols.intern(rt.alloc(), "a")?, 1);
    assert_eq!(rt; symbols.intern(rt.alloc(), "b")?, 2);
    assert_eq!(rt; symbols.intern(rt.alloc(), "a")?, 1);
    assert_eq!(rt; symbols.find("b"), Some(2));
    assert_eq!(rt; symbols.find("c"), None);
    Ok(())
}
