use crate::{Line, LineFault, LineRule, Tree, TreeItem, TreeWriter, read_tree, write_tree};
use serna_kinds::{AttrPair, Chars, Items, NameTable, NoMemory};
use std::alloc::Global;

// The lines of a text, numbered from 7.
fn lines_of(alloc: Global, text: &str) -> Result<Vec<Line>, NoMemory> {
    let mut lines = Vec::new(alloc);
    let mut number = 7u32;
    for line in text.split('\n') {
        let bytes = Items::from_slice(alloc, line.as_bytes())?;
        lines.push(Line { number, bytes })?;
        number = number.saturating_add(1);
    }
    Ok(lines)
}

fn number_of(rule: LineRule) -> u32 {
    match rule {
        LineRule::BadLine => 1,
        LineRule::BadName => 2,
        LineRule::BadEscape => 3,
        LineRule::Unclosed => 4,
        LineRule::WrongClose => 5,
        LineRule::TwoRoots => 6,
        LineRule::DuplicateAttribute => 7,
        LineRule::TooDeep => 8,
        LineRule::TooManyNodes => 9,
        LineRule::TextTooLong => 10,
        LineRule::UnboundPrefix => 11,
        LineRule::InnerNamespace => 12,
        LineRule::NoElement => 13,
    }
}

// The number of the line of the first fault, and the rule from 1; zeros where the lines are read.
fn fault_in(alloc: Global, text: &str) -> Result<(u32, u32), NoMemory> {
    let lines = lines_of(alloc, text)?;
    fault_of(alloc, &lines)
}

fn fault_of(alloc: Global, lines: &[Line]) -> Result<(u32, u32), NoMemory> {
    let mut names = NameTable::new(alloc);
    match read_tree(alloc, lines, &mut names) {
        Ok(_) => Ok((0, 0)),
        Err(LineFault::Refused(number, rule)) => Ok((number, number_of(rule))),
        Err(LineFault::NoMemory) => Ok((1, 99)),
    }
}

// Lines, the number of the line of their first fault, and its rule.
const FAULTS: [(&str, u32, u32); 51] = [
    ("(a\n\u{1}\n)a", 8, 1),
    ("(a\n-\u{fffe}\n)a", 8, 1),
    ("(a\n+x\n)a", 8, 1),
    ("(a\n\n)a", 8, 1),
    ("-x\n(a\n)a", 7, 1),
    ("(a\n)a\n-x", 9, 1),
    ("(a\nAb\n)a", 8, 1),
    ("(a\n-x\nAb c\n)a", 9, 1),
    ("Ab c", 7, 1),
    ("(1a\n)1a", 7, 2),
    ("(a:\n)a:", 7, 2),
    ("(a\nAb:c:d e\n)a", 8, 2),
    ("(a\nA1 \\q\n)a", 8, 2),
    ("(a\n)a b", 8, 2),
    ("(a\n)a\n(1x", 9, 2),
    ("(a\n-\\q\n)a", 8, 3),
    ("(a\n-x\\\n)a", 8, 3),
    ("C\\x\n(a\n)a", 7, 3),
    ("(a\nAb c\\\n)a", 8, 3),
    ("(a\n(b\n)b\n(c", 10, 4),
    ("(a\n)b", 8, 5),
    ("(a\n(b\n)a\n)b", 9, 5),
    (")a", 7, 5),
    ("(a\n)a\n(b\n)b", 9, 6),
    ("(a\n)a\nCx\n(b", 10, 6),
    ("(a\nAx 1\nAx 2\n)a", 9, 7),
    ("(a\nAxmlns:p u\nAxmlns:q u\nAp:x 1\nAq:x 2\n)a", 11, 7),
    ("(a\nAxmlns:p u\nAxmlns:p v\n)a", 9, 7),
    ("(a\nAxmlns u\nAxmlns v\n)a", 9, 7),
    ("(p:a\n)p:a", 7, 11),
    ("(a\nAp:x 1\n)a", 8, 11),
    ("(a\nAxmlns:p \n)a", 8, 11),
    ("(a\n(b\nAp:x\n)b\n)a", 9, 1),
    ("(a\n(q:b\n)q:b\n)a", 8, 11),
    ("(a\n(b\nAxmlns:p u\n)b\n)a", 9, 12),
    ("(a\n(b\nAxmlns u\nAxmlns u\n)b\n)a", 9, 12),
    ("Cx", 0, 13),
    ("(a\nAxmlns:p \\q\nAxmlns:q \\\\q\nAp:x 1\nAq:x 2\n)a", 8, 3),
    ("(a\nAp:x 1\nAq:x 2\nAxmlns:p \\q\nAxmlns:q \\\\q\n)a", 9, 7),
    ("(a\nAxmlns u\nAxmlns:p u\nAx 1\nAp:x 2\n)a", 0, 0),
    ("(p:a\nAp:x\nAxmlns:p u\n)p:a", 8, 1),
    ("(p:a\nAxmlns:p\n)p:a", 8, 1),
    ("(a\nAxml:lang d\nAlang e\n)a", 0, 0),
    ("(a\nAxmlns u\n)a", 0, 0),
    ("(a\nAp:x 1\nAp:x 2\n)a", 8, 11),
    ("(a\nAx 1\nAp:x 2\n)a", 9, 11),
    ("(a\nAxmlns:xml u\nAxmlns:q u\nAxml:x 1\nAq:x 2\n)a", 0, 0),
    ("(a\nAxmlns:xml \n)a", 8, 11),
    ("(xmlns:a\nAxmlns:xmlns u\n)xmlns:a", 0, 0),
    ("(xmlns:a\n)xmlns:a", 7, 11),
    ("(a\nAxmlns:xmlns u\nAxmlns:xmlns v\n)a", 9, 7),
];

#[test]
fn names_the_first_fault(rt: HostRuntime) {
    for (text, number, rule) in FAULTS {
        let found = fault_in(rt.alloc(), text).expect(&rt, "memory");
        assert_eq!(rt; found.0, number, "the line in {text}");
        assert_eq!(rt; found.1, rule, "the rule in {text}");
    }
}

// Lines that are not UTF-8 (RFC 3629, section 3): a byte that no character has, one that only goes on with a character, and a
// character that is cut off.
const NOT_UTF8: [[u8; 3]; 4] = [
    [b'-', b'x', 0xff],
    [b'C', 0x80, b'x'],
    [b'-', b'x', 0xc3],
    [b'A', 0xe2, 0x82],
];

// A line within an element.
fn within_element(alloc: Global, line: &[u8]) -> Result<(u32, u32), NoMemory> {
    let mut lines = lines_of(alloc, "(a")?;
    let bytes = Items::from_slice(alloc, line)?;
    lines.push(Line { number: 8, bytes })?;
    fault_of(alloc, &lines)
}

#[test]
fn refuses_other_bytes(rt: HostRuntime) {
    for line in NOT_UTF8 {
        let found = within_element(rt.alloc(), &line).expect(&rt, "memory");
        assert_eq!(rt; found.0, 8);
        assert_eq!(rt; found.1, 1);
    }
}

// What is read: `(0:7` for an element by the number of its name and its line, and its attributes by the numbers of theirs.
fn shown(alloc: Global, tree: &Tree) -> Result<String, NoMemory> {
    let mut out = String::new(alloc);
    for item in tree.items() {
        match item {
            TreeItem::Begin(name, pairs, number) => {
                let begin = format!(in alloc; "({}:{number} ", name.0)?;
                out.push_str(begin.as_str())?;
                for pair in pairs.as_slice() {
                    let id = pair.name;
                    let text = pair.value.as_text();
                    let one = format!(in alloc; "{}={text} ", id.0)?;
                    out.push_str(one.as_str())?;
                }
            }
            TreeItem::Text(text) => {
                out.push_str("-")?;
                out.push_str(text.as_text())?;
                out.push_str(" ")?;
            }
            TreeItem::Comment(text) => {
                out.push_str("C")?;
                out.push_str(text.as_text())?;
                out.push_str(" ")?;
            }
            TreeItem::Finish => out.push_str(") ")?,
        }
    }
    Ok(out)
}

fn outcome(alloc: Global, text: &str) -> Result<String, NoMemory> {
    let lines = lines_of(alloc, text)?;
    let mut names = NameTable::new(alloc);
    match read_tree(alloc, &lines, &mut names) {
        Ok(tree) => shown(alloc, &tree),
        Err(_) => String::from_str(alloc, "refused"),
    }
}

// Documents, and what is read of them.
const DOCUMENTS: [(&str, &str); 8] = [
    ("(doc\n)doc", "(0:7 ) "),
    ("(doc\n-one\n-\n- two\n)doc", "(0:7 -one two ) "),
    (
        "(a\n-x\n(b\n)b\n-\n-y\n(a\n)a\n)a",
        "(0:7 -x (1:9 ) -y (0:13 ) ) ",
    ),
    ("Cbefore\n(a\nCin\n)a\nCafter", "Cbefore (0:8 Cin ) Cafter "),
    (
        "(p:d\nAid a\\n1\nAxmlns:p u\nAp:id 2\n)p:d",
        "(0:7 1=a\n1 2=2 ) ",
    ),
    ("(d\nAxmlns u\n(e\nAe \n)e\n)d", "(0:7 (1:9 2= ) ) "),
    ("(d\n-\\\\n\\t\\n\n)d", "(0:7 -\\n\t\n ) "),
    ("(\u{e9}\n-\u{1f600}\n)\u{e9}", "(0:7 -\u{1f600} ) "),
];

#[test]
fn reads_documents(rt: HostRuntime) {
    for (text, want) in DOCUMENTS {
        let found = outcome(rt.alloc(), text).expect(&rt, "memory");
        assert_eq!(rt; found.as_str(), want, "of {text}");
    }
}

// A line again and again, between a first and a last one.
fn repeated(
    alloc: Global,
    first: &str,
    line: &str,
    count: usize,
    last: &str,
) -> Result<String, NoMemory> {
    let mut text = String::from_str(alloc, first)?;
    for _ in 0..count {
        text.push_str(line)?;
    }
    text.push_str(last)?;
    Ok(text)
}

// A first line, one that is repeated, how often, the last one, and the line and the rule of the fault.
const LIMITS: [(&str, &str, usize, &str, u32, u32); 6] = [
    ("(a", "\n(a", 120, "\n)a", 127, 8),
    ("(a", "\n(a", 119, "\n)a", 125, 4),
    ("(a", "\n-0123456789abcdef", 1024, "\n)a", 0, 0),
    ("(a", "\n-0123456789abcdef", 1024, "\n-x\n)a", 1032, 10),
    ("(a\nAx ", "0123456789abcdef", 1024, "\n)a", 0, 0),
    ("(a\nAx ", "0123456789abcdef", 1024, "x\n)a", 8, 10),
];

#[test]
fn keeps_the_limits(rt: HostRuntime) {
    for (first, line, count, last, number, rule) in LIMITS {
        let text = repeated(rt.alloc(), first, line, count, last).expect(&rt, "memory");
        let found = fault_in(rt.alloc(), text.as_str()).expect(&rt, "memory");
        assert_eq!(rt; found.0, number, "the line with {line}");
        assert_eq!(rt; found.1, rule, "the rule with {line}");
    }
}

// The first fault of an element with so many comments that does not end.
fn fault_of_comments(alloc: Global, count: u32) -> Result<(u32, u32), NoMemory> {
    let mut lines = lines_of(alloc, "(a")?;
    for number in 0..count {
        let bytes = Items::from_slice(alloc, b"C")?;
        lines.push(Line { number, bytes })?;
    }
    fault_of(alloc, &lines)
}

#[test]
fn counts_the_nodes(rt: HostRuntime) {
    let found = fault_of_comments(rt.alloc(), 1_000_001).expect(&rt, "memory");
    assert_eq!(rt; found.0, 999_999);
    assert_eq!(rt; found.1, 9);
}

// What is written of the lines' tree; nothing where they are refused.
fn written_again(alloc: Global, text: &str, names: &mut NameTable) -> Result<Chars, LineFault> {
    let lines = lines_of(alloc, text)?;
    let tree = read_tree(alloc, &lines, names)?;
    let written = write_tree(alloc, &tree, names)?;
    Ok(written)
}

#[test]
fn writes_what_it_read(rt: HostRuntime) {
    let mut names = NameTable::new(rt.alloc());
    let text = "(d\nAp:b c\nAxmlns:p u\n-a\n-b\\\\\n(e\n)e\n)d";
    let written = written_again(rt.alloc(), text, &mut names).expect(&rt, "read");
    assert_eq!(rt;
        written.as_text(),
        "(d\nAxmlns:p u\nAp:b c\n-ab\\\\\n(e\n)e\n)d\n"
    );
}

// An element with an attribute, a text, a comment and an end, each with what is written otherwise.
fn full_form(alloc: Global) -> Result<Chars, NoMemory> {
    let mut names = NameTable::new(alloc);
    let element = names.intern(alloc, "u", "e", "p")?;
    let name = names.intern(alloc, "", "a", "")?;
    let text = Chars::from_text(alloc, "1\t2\\3\n\u{e9}")?;
    let mut attributes = Items::new(alloc);
    attributes.push(AttrPair {
        name,
        value: text.copy()?,
    })?;
    let mut writer = TreeWriter::new(alloc);
    writer.begin(element, attributes.as_slice(), &names)?;
    writer.text(&text)?;
    writer.comment(&text)?;
    writer.end(element, &names)?;
    writer.into_chars()
}

#[test]
fn writes_the_full_form(rt: HostRuntime) {
    let written = full_form(rt.alloc()).expect(&rt, "memory");
    let want = "(p:e\nAa 1\\t2\\\\3\\n\u{e9}\n-1\\t2\\\\3\\n\u{e9}\nC1\\t2\\\\3\\n\u{e9}\n)p:e\n";
    assert_eq!(rt; written.as_text(), want);
}
