//! What no clause says: that calls succeed, and the canonical text as it looks.
use crate::TreeWriter;
use serna_kinds::{Chars, NameTable, NoMemory, Spaces};
use std::alloc::Global;

// The beginning of an outermost element that declares one prefix.
fn declaring(alloc: Global, prefix: &str, uri: &str) -> Result<Chars, NoMemory> {
    let mut names = NameTable::new(alloc);
    let element = names.intern(alloc, uri, "e", prefix)?;
    let mut spaces = Spaces::new(alloc);
    spaces.declare(alloc, prefix, uri)?;
    let mut writer = TreeWriter::new(alloc);
    writer.begin_outermost(element, &[], &names, &spaces)?;
    writer.into_chars()
}

// A prefix, its URI, and what is written.
const DECLARATIONS: [(&str, &str, &str); 4] = [
    ("", "u", "(e\nAxmlns u\n"),
    ("", "", "(e\nAxmlns \n"),
    ("p", "u:1", "(p:e\nAxmlns:p u:1\n"),
    ("\u{e9}", "a\\b\tc", "(\u{e9}:e\nAxmlns:\u{e9} a\\\\b\\tc\n"),
];

#[test]
fn writes_declarations(rt: HostRuntime) {
    for (prefix, uri, want) in DECLARATIONS {
        let written = declaring(rt.alloc(), prefix, uri).expect(&rt, "memory");
        assert_eq!(rt; written.as_text(), want);
    }
}

// A text beside a comment.
fn texts(alloc: Global, text: &str) -> Result<Chars, NoMemory> {
    let text = Chars::from_text(alloc, text)?;
    let mut writer = TreeWriter::new(alloc);
    writer.text(&text)?;
    writer.comment(&text)?;
    writer.into_chars()
}

// A text, and what is written of it as a text and as a comment.
const TEXTS: [(&str, &str); 4] = [
    ("", "-\nC\n"),
    ("a b", "-a b\nCa b\n"),
    ("\n\t", "-\\n\\t\nC\\n\\t\n"),
    ("\\n\u{1f600}", "-\\\\n\u{1f600}\nC\\\\n\u{1f600}\n"),
];

#[test]
fn writes_texts(rt: HostRuntime) {
    for (text, want) in TEXTS {
        let written = texts(rt.alloc(), text).expect(&rt, "memory");
        assert_eq!(rt; written.as_text(), want);
    }
}
