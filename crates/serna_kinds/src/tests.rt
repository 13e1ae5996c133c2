//! What no clause says: that calls succeed.
use super::*;
use std::test::Fail;

#[test]
fn numbers_names(rt: HostRuntime) -> Result<(), Fail> {
    let mut names = NameTable::new(rt.alloc());
    for (prefix, number) in [("", 0), ("p", 1), ("", 0)] {
        let id = names.intern(rt.alloc(), "u", "p", prefix)?;
        assert!(rt; id.0 == number);
    }
    assert!(rt; names.copy()?.same(NameId(0), NameId(1)));
    Ok(())
}

#[test]
fn finds_a_declared_space(rt: HostRuntime) -> Result<(), Fail> {
    let mut spaces = Spaces::new(rt.alloc());
    spaces.declare(rt.alloc(), "p", "u")?;
    assert!(rt; spaces.copy(rt.alloc())?.uri("p").is_some());
    Ok(())
}

// A source with the document node alone.
struct Alone;

impl SourceView for Alone {
    ghost use Rattle.std.specs.Prelude.{◌==◌, Some, None, if◌then◌else◌};
    ghost use Rattle.serna_kinds.specs.Content.{Up};

    ghost cells = { λ _ cell. if cell.node.0 == 0 then Some (Up None) else None };

    fn read(&self, cell: Cell) -> Option<CellValue<'_>> {
        if cell.node.0 == 0 {
            Some(CellValue::Up(None))
        } else {
            None
        }
    }
}

#[test]
fn notes_each_cell_once(rt: HostRuntime) -> Result<(), Fail> {
    let mut tape = Tape::new(rt.alloc());
    for (node, facet) in [(0, Facet::Up), (7, Facet::Kids), (0, Facet::Up)] {
        let node = NodeName(node);
        let found = tape.read(&Alone, Cell { node, facet })?;
        assert!(rt; found.is_some() == (node.0 == 0));
    }
    assert!(rt; tape.count() == 3 && tape.cells().len() == 2);
    Ok(())
}

#[test]
fn copies_a_test(rt: HostRuntime) -> Result<(), Fail> {
    let test = NodeTest::Within(Chars::from_text(rt.alloc(), "u")?);
    assert!(rt; matches!(test.copy()?, NodeTest::Within(_)));
    Ok(())
}

#[test]
fn holds_characters(rt: HostRuntime) -> Result<(), Fail> {
    let mut text = Chars::from_text(rt.alloc(), "ß")?;
    let piece = text.copy()?;
    text.insert(rt.alloc(), 0, &piece)?;
    assert!(rt; text.as_text() == "ßß");
    Ok(())
}

// Texts, and whether they are names.
const WRITTEN: [(&str, bool); 8] = [
    ("a", true),
    ("_a:b-1.", true),
    ("é:ü", true),
    ("", false),
    ("1a", false),
    ("a:", false),
    (":a", false),
    ("a:b:c", false),
];

#[test]
fn knows_names(rt: HostRuntime) -> Result<(), Fail> {
    for (text, wanted) in WRITTEN {
        assert!(rt; is_name(text) == wanted);
    }
    Ok(())
}
