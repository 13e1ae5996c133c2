//! What no clause says: that calls succeed, and worked stylesheets.
use crate::*;
use serna_kinds::{AttrPair, Chars, Items, NameId, NameTable, NoMemory};
use std::alloc::Global;
use std::test::Fail;
use tree_lines::{Line, read_tree};

// What stands before the templates of a stylesheet, and behind them.
const HEAD: &str =
    "(xsl:stylesheet\nAversion 1.0\nAxmlns:xsl http://www.w3.org/1999/XSL/Transform\nAxmlns:p u\n";

const FOOT: &str = "\n)xsl:stylesheet";

fn lines_of(alloc: Global, text: &str) -> Result<Vec<Line>, NoMemory> {
    let mut lines = Vec::new(alloc);
    for line in text.split('\n') {
        let bytes = Items::from_slice(alloc, line.as_bytes())?;
        lines.push(Line { number: 1, bytes })?;
    }
    Ok(lines)
}

// The stylesheet of these lines. Lines that are no document count as want of memory.
fn style_of(alloc: Global, text: &str, names: &mut NameTable) -> Result<Style, StyleFault> {
    let lines = lines_of(alloc, text)?;
    let Ok(tree) = read_tree(alloc, &lines, names) else {
        return Err(StyleFault::NoMemory);
    };
    let name = Chars::new(alloc)?;
    compile(alloc, &[Module { name, tree }], names)
}

fn local(names: &NameTable, id: NameId) -> &str {
    match names.name(id) {
        Some(name) => name.local,
        None => "?",
    }
}

fn push_parts(out: &mut String, parts: &[&str]) -> Result<(), NoMemory> {
    for part in parts {
        out.push_str(part)?;
    }
    Ok(())
}

// Adds attributes in short, each as `@NAME=VALUE`.
fn push_attributes(
    out: &mut String,
    attributes: &[AttrPair],
    names: &NameTable,
) -> Result<(), NoMemory> {
    for pair in attributes {
        push_parts(
            out,
            &["@", local(names, pair.name), "=", pair.value.as_text()],
        )?;
    }
    Ok(())
}

// Adds an instruction in short: `'TEXT`, `(NAME`, its attributes, its content and `)`, or `*` where templates are applied.
#[cycle(shown)]
fn push_short(
    out: &mut String,
    instruction: &Instruction,
    names: &NameTable,
) -> Result<(), NoMemory> {
    match instruction {
        Instruction::Text(text) => push_parts(out, &["'", text.as_text()]),
        Instruction::Element(name, attributes, content) => {
            push_parts(out, &["(", local(names, *name)])?;
            push_attributes(out, attributes.as_slice(), names)?;
            push_body(out, content, names)?;
            push_parts(out, &[")"])
        }
        Instruction::ApplyTemplates => push_parts(out, &["*"]),
    }
}

#[cycle(shown)]
fn push_body(out: &mut String, body: &Body, names: &NameTable) -> Result<(), NoMemory> {
    for instruction in body.instructions() {
        push_short(out, instruction, names)?;
    }
    Ok(())
}

// A rule in short, by its pattern, its priority, its place and its body.
fn push_rule(
    alloc: Global,
    out: &mut String,
    rule: &Rule,
    bodies: &[Body],
    names: &NameTable,
) -> Result<(), NoMemory> {
    let pattern = match rule.pattern {
        Some(Pattern::Root) => "/",
        Some(Pattern::Named(id)) => local(names, id),
        None => "?",
    };
    let head = format!(in alloc; "{pattern} {} {} ", rule.priority, rule.place)?;
    out.push_str(head.as_str())?;
    if let Some(body) = bodies.get(rule.body as usize) {
        push_body(out, body, names)?;
    }
    out.push_str(";")?;
    Ok(())
}

// The rules of a stylesheet in short, and their numbers, the greatest first.
fn short(alloc: Global, style: &Style, names: &NameTable) -> Result<String, NoMemory> {
    let mut out = String::new(alloc);
    for rule in style.rules() {
        push_rule(alloc, &mut out, rule, style.bodies(), names)?;
    }
    for number in style.greatest_first() {
        let shown = format!(in alloc; " {number}")?;
        out.push_str(shown.as_str())?;
    }
    Ok(out)
}

// A stylesheet in short, or why it was not compiled.
fn outcome(alloc: Global, text: &str) -> Result<String, NoMemory> {
    let mut names = NameTable::new(alloc);
    match style_of(alloc, text, &mut names) {
        Ok(style) => short(alloc, &style, &names),
        Err(StyleFault::NotBuilt) => String::from_str(alloc, "not built"),
        Err(StyleFault::NoMemory) => String::from_str(alloc, "no memory"),
    }
}

// Templates, and their stylesheet in short.
const TEMPLATES: [(&str, &str); 8] = [
    ("Cc\n-\\n\\t ", ""),
    (
        "(xsl:template\nAmatch /\n(xsl:apply-templates\nCc\n- \n)xsl:apply-templates\n)xsl:template\n(xsl:template\nAmatch p:a\n-x\n)xsl:template\n- \n(xsl:template\nAmatch p:a\n)xsl:template",
        "/ 50 0 *;a 0 1 'x;a 0 2 ; 0 2 1",
    ),
    (
        "(xsl:template\nAmatch a\n(b\nAx 1\nAp:y 2\n(c\n-t\n)c\n-u\n)b\n)xsl:template",
        "a 0 0 (b@x=1@y=2(c't)'u); 0",
    ),
    (
        "(xsl:template\nAmatch a\n- \nCc\n- x\nCd\n- \n(b\n- \n)b\n-\\t\n)xsl:template",
        "a 0 0 ' x(b); 0",
    ),
    (
        "(xsl:template\nAmatch a\n(b\nAxml:space preserve\n- \n(c\n- \n(d\nAxml:space default\n- \n)d\n- \n)c\n)b\n- \n)xsl:template",
        "a 0 0 (b@space=preserve' (c' (d@space=default)' )); 0",
    ),
    (
        "(xsl:template\nAmatch a\n(b\nAxml:space keep\n- \n)b\n)xsl:template",
        "a 0 0 (b@space=keep); 0",
    ),
    (
        "(xsl:template\nAmatch a\n(xsl:text\n- \nCc\n-y\n)xsl:text\n- \n(xsl:text\n)xsl:text\n)xsl:template",
        "a 0 0 ' 'y; 0",
    ),
    (
        "(xsl:template\nAmatch xml:a\n(text\n- \n)text\n)xsl:template",
        "a 0 0 (text); 0",
    ),
];

// Templates that are not of the built form.
const NOT_BUILT: [&str; 16] = [
    "-x",
    "(b\n)b",
    "(xsl:param\nAname a\n)xsl:param",
    "(xsl:template\n)xsl:template",
    "(xsl:template\nAname a\n)xsl:template",
    "(xsl:template\nAmatch a\nApriority 1\n)xsl:template",
    "(xsl:template\nAxsl:match a\n)xsl:template",
    "(xsl:template\nAmatch *\n)xsl:template",
    "(xsl:template\nAmatch q:a\n)xsl:template",
    "(xsl:template\nAmatch a/b\n)xsl:template",
    "(xsl:template\nAmatch a\n(xsl:apply-templates\nAmode m\n)xsl:apply-templates\n)xsl:template",
    "(xsl:template\nAmatch a\n(xsl:apply-templates\n-x\n)xsl:apply-templates\n)xsl:template",
    "(xsl:template\nAmatch a\n(xsl:value-of\nAselect .\n)xsl:value-of\n)xsl:template",
    "(xsl:template\nAmatch a\n(xsl:text\n(b\n)b\n)xsl:text\n)xsl:template",
    "(xsl:template\nAmatch a\n(b\nAx {.}\n)b\n)xsl:template",
    "(xsl:template\nAmatch a\n(b\n(c\nAxsl:x 1\n)c\n)b\n)xsl:template",
];

// Whole stylesheets: several prefixes of one namespace, and what is no outermost element.
const SHEETS: [(&str, &str); 5] = [
    (
        "(t:transform\nAversion 1.0\nAxmlns:t http://www.w3.org/1999/XSL/Transform\nAxmlns:u http://www.w3.org/1999/XSL/Transform\nAxmlns:xsl v\nAxmlns w\n(u:template\nAmatch a\n(t:text\n- \n)t:text\n(xsl:text\n- \n)xsl:text\n)u:template\n)t:transform\nCc",
        "a 0 0 ' (text); 0",
    ),
    (
        "(xsl:stylesheet\nAversion 1.0\nAxmlns:xsl v\n)xsl:stylesheet",
        "not built",
    ),
    (
        "(xsl:stylesheet\nAxmlns:xsl http://www.w3.org/1999/XSL/Transform\n)xsl:stylesheet",
        "not built",
    ),
    (
        "(xsl:stylesheet\nAversion 1.0\nAid a\nAxmlns:xsl http://www.w3.org/1999/XSL/Transform\n)xsl:stylesheet",
        "not built",
    ),
    (
        "(xsl:template\nAversion 1.0\nAxmlns:xsl http://www.w3.org/1999/XSL/Transform\n)xsl:template",
        "not built",
    ),
];

#[test]
fn reads_templates(rt: HostRuntime) -> Result<(), Fail> {
    for (templates, wanted) in TEMPLATES {
        let text = format!(in rt.alloc(); "{HEAD}{templates}{FOOT}")?;
        let found = outcome(rt.alloc(), text.as_str())?;
        assert_eq!(rt; found.as_str(), wanted);
    }
    Ok(())
}

#[test]
fn refuses_templates(rt: HostRuntime) -> Result<(), Fail> {
    for templates in NOT_BUILT {
        let text = format!(in rt.alloc(); "{HEAD}{templates}{FOOT}")?;
        let found = outcome(rt.alloc(), text.as_str())?;
        assert_eq!(rt; found.as_str(), "not built", "{templates}");
    }
    Ok(())
}

#[test]
fn reads_stylesheets(rt: HostRuntime) -> Result<(), Fail> {
    for (text, wanted) in SHEETS {
        let found = outcome(rt.alloc(), text)?;
        assert_eq!(rt; found.as_str(), wanted);
    }
    Ok(())
}

#[test]
fn has_no_rules_without_a_module(rt: HostRuntime) -> Result<(), Fail> {
    let mut names = NameTable::new(rt.alloc());
    let style = compile(rt.alloc(), &[], &mut names);
    assert!(rt; matches!(style, Ok(_)));
    Ok(())
}
