//! What no clause says: that calls succeed, and which pages some results have.
use super::*;
use result_origin::{Fragment, Line, Origin};
use serna_kinds::{Chars, NameId, NameTable, NoMemory, NodeName};
use std::alloc::Global;
use std::test::Fail;

const FO_URI: &str = "http://www.w3.org/1999/XSL/Format";

const ROOT: NameId = NameId(0);

const OTHER: NameId = NameId(1);

/// A result, whether it begins with `fo:root`, and the lines of its page. In a result `<` begins `fo:root`, `[` another element,
/// `>` and `]` end one, `@` is an attribute, `?` a place for text, `_` a hole, and anything else a run. Each line begins with its
/// height on the page; a dot stands behind each part, and a bar behind each line.
const ROWS: [(&str, bool, &str); 10] = [
    ("", false, "0 |"),
    ("[a@ <b>]c", false, "0 a. .b.c.|"),
    ("<ab>", true, "0 a.b.|"),
    ("<a@b[c]d>", true, "0 a.|14400 b.|28800 c.|43200 d.|"),
    ("< [a] >", true, "0 a.|"),
    ("< ?[a]>", true, "0  ..|14400 a.|"),
    ("<[a]>b", true, "0 a.|"),
    ("a<b>", false, "0 a.b.|"),
    ("__<a_b>", true, "0 a.b.|"),
    ("_a", false, "0 a.|"),
];

fn letter(alloc: Global, character: char) -> Result<Chars, NoMemory> {
    let mut text = String::new(alloc);
    text.push(character)?;
    Chars::from_string(text)
}

fn add_attribute(alloc: Global, whole: &mut Fragment) -> Result<(), NoMemory> {
    whole.push_attr(OTHER)?;
    whole.push_run(letter(alloc, 'v')?, Origin::Fixed(0))?;
    whole.push_attr_end()
}

fn add(alloc: Global, whole: &mut Fragment, mark: char) -> Result<(), NoMemory> {
    match mark {
        '<' => whole.push_begin(ROOT, 0),
        '[' => whole.push_begin(OTHER, 0),
        '>' | ']' => whole.push_finish(),
        '@' => add_attribute(alloc, whole),
        '_' => whole.push_hole(7),
        '?' => whole.push_run(Chars::new(alloc)?, Origin::Into(NodeName(1))),
        _ => whole.push_run(letter(alloc, mark)?, Origin::Fixed(0)),
    }
}

fn built(alloc: Global, marks: &str) -> Result<Fragment, NoMemory> {
    let mut whole = Fragment::new(alloc);
    for mark in marks.chars() {
        add(alloc, &mut whole, mark)?;
    }
    Ok(whole)
}

fn push_line(alloc: Global, out: &mut String, line: &Line) -> Result<(), NoMemory> {
    let down = line.down;
    out.push_str(format!(in alloc; "{down} ")?.as_str())?;
    for part in line.parts.as_slice() {
        out.push_str(part.text())?;
        out.push_str(".")?;
    }
    out.push_str("|")?;
    Ok(())
}

fn shown(alloc: Global, laid: &Laid) -> Result<String, NoMemory> {
    let mut out = String::new(alloc);
    for page in laid.pages.as_slice() {
        for line in page.lines.as_slice() {
            push_line(alloc, &mut out, line)?;
        }
    }
    Ok(out)
}

// The prefix does not tell `fo:root`, but its URI.
fn names(alloc: Global) -> Result<NameTable, NoMemory> {
    let mut names = NameTable::new(alloc);
    names.intern(alloc, FO_URI, "root", "p")?;
    names.intern(alloc, "u", "root", "fo")?;
    Ok(names)
}

#[test]
fn lays_out(rt: HostRuntime) -> Result<(), Fail> {
    let names = names(rt.alloc())?;
    for (marks, rooted, lines) in ROWS {
        let laid = lay_out(rt.alloc(), &built(rt.alloc(), marks)?, &names)?;
        assert!(rt; laid.rooted == rooted);
        assert!(rt; shown(rt.alloc(), &laid)?.as_str() == lines);
    }
    Ok(())
}
