//! What no clause says: how many rules are asked for, and that a choice succeeds.
use super::*;
use instance_store::{Call, Request};
use serna_kinds::{Chars, Items, NameId, NameTable, NoMemory, NodeName, NodeRef};
use std::alloc::{AllocError, Global};
use std::test::Fail;
use style_sheet::{Choice, Module, Style, compile};
use tree_lines::{Line, read_tree};

// A matcher under which the rules below a number match, and which counts the calls.
#[derive(Drop)]
struct Below {
    number: u32,
    asked: u32,
}

impl Matcher for Below {
    ghost use Rattle.std.specs.Prelude.{◌≡◌, ℕ, Bool, nat_lt};
    ghost use Rattle.serna_kinds.specs.declared.cells.NodeRef.{NodeRef};

    ghost Part = { Unit {0} };

    ghost part = { λ _. tt };

    ghost asks = { λ _ _ _. Unit {0} };

    ghost agrees = { λ self relation. (rule : ℕ) (node : NodeRef) → nat_lt rule self.number ≡ relation rule node };

    fn matches(&mut self, rule: u32, _node: NodeRef) -> Result<bool, NoMemory> {
        self.asked = self.asked.saturating_add(1);
        Ok(rule < self.number)
    }
}

// Four rules, of which the third is the greatest, then the fourth, the second and the first.
const SHEET: [&str; 16] = [
    "(xsl:stylesheet",
    "Aversion 1.0",
    "Axmlns:xsl http://www.w3.org/1999/XSL/Transform",
    "(xsl:template",
    "Amatch a",
    ")xsl:template",
    "(xsl:template",
    "Amatch a",
    ")xsl:template",
    "(xsl:template",
    "Amatch /",
    ")xsl:template",
    "(xsl:template",
    "Amatch a",
    ")xsl:template",
    ")xsl:stylesheet",
];

fn sheet_lines(alloc: Global) -> Result<Vec<Line>, NoMemory> {
    let mut lines = Vec::new(alloc);
    for line in SHEET {
        let bytes = Items::from_slice(alloc, line.as_bytes())?;
        lines.push(Line { number: 1, bytes })?;
    }
    Ok(lines)
}

// The stylesheet. One that is not read counts as want of memory.
fn sheet(alloc: Global) -> Result<Style, NoMemory> {
    let mut names = NameTable::new(alloc);
    let lines = sheet_lines(alloc)?;
    let Ok(tree) = read_tree(alloc, &lines, &mut names) else {
        return Err(AllocError);
    };
    let name = Chars::new(alloc)?;
    compile(alloc, &[Module { name, tree }], &mut names).map_err(|_| AllocError)
}

// A mode and a call, below which number the rules match, how many are asked for, and the rule that is chosen.
const CHOICES: [(Option<NameId>, Call, u32, u32, Option<u32>); 8] = [
    (None, Call::Apply, 4, 1, Some(2)),
    (None, Call::Apply, 3, 1, Some(2)),
    (None, Call::Apply, 2, 3, Some(1)),
    (None, Call::Apply, 1, 4, Some(0)),
    (None, Call::Apply, 0, 4, None),
    (Some(NameId(0)), Call::Apply, 4, 0, None),
    (None, Call::Named(3), 4, 0, Some(3)),
    (None, Call::Imports, 4, 0, None),
];

#[test]
fn asks_for_no_more_than_it_needs(rt: HostRuntime) -> Result<(), Fail> {
    let style = sheet(rt.alloc())?;
    for (mode, call, number, asked, wanted) in CHOICES {
        let mut request = Request::apply(rt.alloc(), NodeRef::Node(NodeName(1)), mode);
        request.call = call;
        let mut matcher = Below { number, asked: 0 };
        let rule = match choose(&style, &request, &mut matcher)? {
            Choice::Rule(rule) => Some(rule),
            Choice::BuiltIn => None,
        };
        assert_eq!(rt; matcher.asked, asked);
        assert_eq!(rt; rule, wanted);
    }
    Ok(())
}
