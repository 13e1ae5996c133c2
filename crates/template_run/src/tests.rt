//! What no clause says: that runs succeed, and worked results.
use super::*;
use crate::batch::Transformation;
use instance_store::{Place, Request};
use result_origin::Fragment;
use serna_kinds::{
    AttrPair, Cell, CellValue, Chars, Facet, Items, Kind, NameId, NameTable, NoMemory, NodeName,
    NodeRef, SourceView, Tape,
};
use std::alloc::{AllocError, Global};
use std::test::Fail;
use style_sheet::{Choice, Module, Style, compile};
use tree_lines::{Line, read_tree};

// A node: what it is, an element's name, its children, and its characters.
#[derive(Clone, Copy)]
struct Node {
    kind: Kind,
    name: Option<NameId>,
    kids: &'static [NodeName],
    text: &'static str,
}

// A source without attributes whose nodes have their places as numbers.
#[derive(Clone, Copy)]
struct Nodes(&'static [Node]);

impl SourceView for Nodes {
    ghost use Rattle.std.specs.Prelude.{Option, Some, None, slice_get};
    ghost use Rattle.std.specs.Option.{option_and_then};
    ghost use Rattle.std.specs.Str.{chars};
    ghost use Rattle.serna_kinds.specs.declared.cells.Facet.TheVariants as facet;
    ghost use Rattle.serna_kinds.specs.Content.{Content};
    ghost use Rattle.serna_kinds.specs.Content as content;

    ghost cells = { λ s cell. option_and_then
        (λ node. elim cell.facet as (λ _. Option Content) [
          | facet.Label ↦ Some (content.Label node.kind node.name)
          | facet.Kids ↦ Some (content.Kids node.kids.now)
          | facet.Up ↦ None
          | facet.Attrs ↦ None
          | facet.Text ↦ Some (content.Text (chars node.text.now))
        ])
        (slice_get s.0.now cell.node.0) };

    fn read(&self, cell: Cell) -> Option<CellValue<'_>> {
        let node = self.0.get(cell.node.0 as usize)?;
        match cell.facet {
            Facet::Label => Some(CellValue::Label(node.kind, node.name)),
            Facet::Kids => Some(CellValue::Kids(node.kids)),
            Facet::Text => Some(CellValue::Text(node.text)),
            Facet::Up | Facet::Attrs => None,
        }
    }
}

const ROOT: Node = Node {
    kind: Kind::Root,
    name: None,
    kids: &[NodeName(1)],
    text: "",
};

// An element with a text and a comment.
const FULL: [Node; 4] = [
    ROOT,
    Node {
        kind: Kind::Element,
        name: Some(NameId(0)),
        kids: &[NodeName(2), NodeName(3)],
        text: "",
    },
    Node {
        kind: Kind::Text,
        name: None,
        kids: &[],
        text: "t",
    },
    Node {
        kind: Kind::Comment,
        name: None,
        kids: &[],
        text: "c",
    },
];

// An empty element.
const EMPTY: [Node; 2] = [
    ROOT,
    Node {
        kind: Kind::Element,
        name: Some(NameId(0)),
        kids: &[],
        text: "",
    },
];

// A source that has these attributes at each node, and nothing else.
#[derive(Drop)]
struct Attributes(Items<AttrPair>);

impl SourceView for Attributes {
    ghost use Rattle.std.specs.Prelude.{Option, Some, None};
    ghost use Rattle.serna_kinds.specs.declared.cells.Facet.TheVariants as facet;
    ghost use Rattle.serna_kinds.specs.Content.{Content};
    ghost use Rattle.serna_kinds.specs.Content as content;

    ghost cells = { λ s cell. elim cell.facet as (λ _. Option Content) [
      | facet.Label ↦ None
      | facet.Kids ↦ None
      | facet.Up ↦ None
      | facet.Attrs ↦ Some (content.Attrs s.0)
      | facet.Text ↦ None
    ] };

    fn read(&self, cell: Cell) -> Option<CellValue<'_>> {
        match cell.facet {
            Facet::Attrs => Some(CellValue::Attrs(self.0.as_slice())),
            Facet::Label | Facet::Kids | Facet::Up | Facet::Text => None,
        }
    }
}

// A rule for `/`, whose element has an attribute, and two rules for `p`, of which the later one has an element.
const SHEET: [&str; 23] = [
    "(xsl:stylesheet",
    "Aversion 1.0",
    "Axmlns:xsl http://www.w3.org/1999/XSL/Transform",
    "(xsl:template",
    "Amatch /",
    "(b",
    "Ak 1",
    "(xsl:apply-templates",
    ")xsl:apply-templates",
    ")b",
    ")xsl:template",
    "(xsl:template",
    "Amatch p",
    "-x",
    ")xsl:template",
    "(xsl:template",
    "Amatch p",
    "(b",
    "(xsl:apply-templates",
    ")xsl:apply-templates",
    ")b",
    ")xsl:template",
    ")xsl:stylesheet",
];

fn sheet_lines(alloc: Global) -> Result<Vec<Line>, NoMemory> {
    let mut lines = Vec::new(alloc);
    for line in SHEET {
        let bytes = Items::from_slice(alloc, line.as_bytes())?;
        lines.push(Line { number: 1, bytes })?;
    }
    Ok(lines)
}

// A table in which `p` has the number 0, `b` 1 and `k` 2.
fn table(alloc: Global) -> Result<NameTable, NoMemory> {
    let mut names = NameTable::new(alloc);
    names.intern(alloc, "", "p", "")?;
    names.intern(alloc, "", "b", "")?;
    names.intern(alloc, "", "k", "")?;
    Ok(names)
}

// The stylesheet. One that is not read counts as want of memory.
fn sheet(alloc: Global, names: &mut NameTable) -> Result<Style, NoMemory> {
    let lines = sheet_lines(alloc)?;
    let Ok(tree) = read_tree(alloc, &lines, names) else {
        return Err(AllocError);
    };
    let name = Chars::new(alloc)?;
    compile(alloc, &[Module { name, tree }], names).map_err(|_| AllocError)
}

const FIRST: Place = Place {
    position: 1,
    size: 1,
};

// Levels, a source, and its result.
const RUNS: [(u32, &[Node], &str); 3] = [
    (
        200,
        &FULL,
        "Fragment { items: [Begin(NameId(1), 0), Attr(NameId(2)), Run(Chars { text: \"1\" }, Fixed(0)), AttrEnd, Begin(NameId(1), 2), Run(Chars { text: \"t\" }, Text(NodeName(2), 0)), Finish, Finish] }",
    ),
    (
        200,
        &EMPTY,
        "Fragment { items: [Begin(NameId(1), 0), Attr(NameId(2)), Run(Chars { text: \"1\" }, Fixed(0)), AttrEnd, Begin(NameId(1), 2), Run(Chars { text: \"\" }, Into(NodeName(1))), Finish, Finish] }",
    ),
    (
        1,
        &FULL,
        "Fragment { items: [Begin(NameId(1), 0), Attr(NameId(2)), Run(Chars { text: \"1\" }, Fixed(0)), AttrEnd, Run(Chars { text: \"[deep]\" }, Fixed(0)), Finish] }",
    ),
];

#[test]
fn runs_rules(rt: HostRuntime) -> Result<(), Fail> {
    let mut names = table(rt.alloc())?;
    let style = sheet(rt.alloc(), &mut names)?;
    let root = Request::apply(rt.alloc(), NodeRef::Node(NodeName(0)), None);
    for (left, nodes, wanted) in RUNS {
        let mut tape = Tape::new(rt.alloc());
        let mut out = Fragment::new(rt.alloc());
        let transformation = Transformation {
            alloc: rt.alloc(),
            style: &style,
            names: &names,
            view: &Nodes(nodes),
        };
        transformation.add_instance(left, &root, FIRST, &mut tape, &mut out)?;
        assert!(rt; format!(in rt.alloc(); "{out:?}")?.as_str() == wanted);
    }
    Ok(())
}

// What the built-in rules make of the full source.
const BUILT_IN: &str = "Fragment { items: [Run(Chars { text: \"t\" }, Text(NodeName(2), 0))] }";

#[test]
fn runs_no_rules(rt: HostRuntime) -> Result<(), Fail> {
    let style = Style::new(rt.alloc());
    let names = NameTable::new(rt.alloc());
    let mut tape = Tape::new(rt.alloc());
    let result = transform(rt.alloc(), &style, &Nodes(&FULL), &names, &mut tape)?;
    assert!(rt; format!(in rt.alloc(); "{result:?}")?.as_str() == BUILT_IN);
    Ok(())
}

// What the built-in rules give for a node of a source, in the mode of the number 5.
fn built_in<V: SourceView>(alloc: Global, view: &V, node: NodeRef) -> Result<RunResult, NoMemory> {
    let style = Style::new(alloc);
    let names = NameTable::new(alloc);
    let mut tape = Tape::new(alloc);
    let request = Request::apply(alloc, node, Some(NameId(5)));
    run_body(
        alloc,
        &style,
        Choice::BuiltIn,
        &request,
        FIRST,
        view,
        &names,
        &mut tape,
    )
}

// An attribute of the number 7.
fn attribute(alloc: Global) -> Result<Attributes, NoMemory> {
    let mut pairs = Items::new(alloc);
    let value = Chars::from_text(alloc, "v")?;
    pairs.push(AttrPair {
        name: NameId(7),
        value,
    })?;
    Ok(Attributes(pairs))
}

const VALUE: &str =
    "Fragment { items: [Run(Chars { text: \"v\" }, Attr(NodeName(1), NameId(7), 0))] }";

#[test]
fn shows_an_attribute(rt: HostRuntime) -> Result<(), Fail> {
    let view = attribute(rt.alloc())?;
    let result = built_in(rt.alloc(), &view, NodeRef::Attr(NodeName(1), NameId(7)))?;
    assert!(rt; format!(in rt.alloc(); "{:?}", result.fragment())?.as_str() == VALUE);
    Ok(())
}

// The holes of an element with two children: what they ask for, each in the mode of the element.
const HOLES: &str = "Fragment { items: [Hole(0), Hole(1)] }";

const ASKED: &str =
    "[Asked { request: Request { node: Node(NodeName(2)), mode: Some(NameId(5)), call: Apply, rule: None, passed: Items { items: [] } }, place: Place { position: 1, size: 2 } }, Asked { request: Request { node: Node(NodeName(3)), mode: Some(NameId(5)), call: Apply, rule: None, passed: Items { items: [] } }, place: Place { position: 2, size: 2 } }]";

#[test]
fn asks_for_the_children(rt: HostRuntime) -> Result<(), Fail> {
    let result = built_in(rt.alloc(), &Nodes(&FULL), NodeRef::Node(NodeName(1)))?;
    assert!(rt; format!(in rt.alloc(); "{:?}", result.fragment())?.as_str() == HOLES);
    assert!(rt; format!(in rt.alloc(); "{:?}", result.asked())?.as_str() == ASKED);
    Ok(())
}
