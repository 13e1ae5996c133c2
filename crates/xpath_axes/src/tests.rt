//! What no clause says: that calls succeed, and worked results. The expected nodes are those that the recommendation's sections 2.2, 2.3
//! and 5 give for this document, in the order of the axis: `<a><b x="1" y="2">t<!--k--></b>u<c x="1" y="2">v<p:d/></c><!--l--></a>`,
//! where the URI of `p` is "p".
//! The nodes' numbers do not stand in document order.
use super::*;
use serna_kinds::{
    AttrPair, Axis, Cell, CellValue, Chars, Facet, Items, Kind, NameId, NameTable, NoMemory,
    NodeName, NodeRef, NodeTest, SourceView, Tape,
};
use std::alloc::Global;
use std::test::Fail;

// A node: what it is, an element's name, its parent, its children, its characters, and whether it has the document's attributes.
#[derive(Clone, Copy)]
struct Node {
    kind: Kind,
    name: Option<NameId>,
    parent: Option<NodeName>,
    kids: &'static [NodeName],
    text: &'static str,
    has_attributes: bool,
}

// A document whose nodes have their places as numbers, and the attributes of two of its elements.
#[derive(Drop)]
struct Document {
    nodes: &'static [Node],
    attributes: Items<AttrPair>,
}

impl SourceView for Document {
    ghost use Rattle.std.specs.Prelude.{Option, Some, None, slice_get, if◌then◌else◌};
    ghost use Rattle.std.specs.Option.{option_and_then};
    ghost use Rattle.std.specs.Str.{chars};
    ghost use Rattle.serna_kinds.specs.declared.cells.Facet.TheVariants as facet;
    ghost use Rattle.serna_kinds.specs.Content.{Content};
    ghost use Rattle.serna_kinds.specs.Content as content;

    ghost cells = { λ s cell. option_and_then
        (λ node. elim cell.facet as (λ _. Option Content) [
          | facet.Label ↦ Some (content.Label node.kind node.name)
          | facet.Kids ↦ Some (content.Kids node.kids.now)
          | facet.Up ↦ Some (content.Up node.parent)
          | facet.Attrs ↦ if node.has_attributes then Some (content.Attrs s.attributes) else None
          | facet.Text ↦ Some (content.Text (chars node.text.now))
        ])
        (slice_get s.nodes.now cell.node.0) };

    fn read(&self, cell: Cell) -> Option<CellValue<'_>> {
        let node = self.nodes.get(cell.node.0 as usize)?;
        match cell.facet {
            Facet::Label => Some(CellValue::Label(node.kind, node.name)),
            Facet::Kids => Some(CellValue::Kids(node.kids)),
            Facet::Up => Some(CellValue::Up(node.parent)),
            Facet::Attrs => {
                if node.has_attributes {
                    Some(CellValue::Attrs(self.attributes.as_slice()))
                } else {
                    None
                }
            }
            Facet::Text => Some(CellValue::Text(node.text)),
        }
    }
}

const NODES: [Node; 10] = [
    Node {
        kind: Kind::Root,
        name: None,
        parent: None,
        kids: &[NodeName(1)],
        text: "",
        has_attributes: false,
    },
    Node {
        kind: Kind::Element,
        name: Some(NameId(0)),
        parent: Some(NodeName(0)),
        kids: &[NodeName(5), NodeName(2), NodeName(7), NodeName(6)],
        text: "",
        has_attributes: false,
    },
    Node {
        kind: Kind::Text,
        name: None,
        parent: Some(NodeName(1)),
        kids: &[],
        text: "u",
        has_attributes: false,
    },
    Node {
        kind: Kind::Text,
        name: None,
        parent: Some(NodeName(5)),
        kids: &[],
        text: "t",
        has_attributes: false,
    },
    Node {
        kind: Kind::Element,
        name: Some(NameId(3)),
        parent: Some(NodeName(7)),
        kids: &[],
        text: "",
        has_attributes: false,
    },
    Node {
        kind: Kind::Element,
        name: Some(NameId(1)),
        parent: Some(NodeName(1)),
        kids: &[NodeName(3), NodeName(8)],
        text: "",
        has_attributes: true,
    },
    Node {
        kind: Kind::Comment,
        name: None,
        parent: Some(NodeName(1)),
        kids: &[],
        text: "l",
        has_attributes: false,
    },
    Node {
        kind: Kind::Element,
        name: Some(NameId(2)),
        parent: Some(NodeName(1)),
        kids: &[NodeName(9), NodeName(4)],
        text: "",
        has_attributes: true,
    },
    Node {
        kind: Kind::Comment,
        name: None,
        parent: Some(NodeName(5)),
        kids: &[],
        text: "k",
        has_attributes: false,
    },
    Node {
        kind: Kind::Text,
        name: None,
        parent: Some(NodeName(7)),
        kids: &[],
        text: "v",
        has_attributes: false,
    },
];

const ROOT: NodeRef = NodeRef::Node(NodeName(0));

const A: NodeRef = NodeRef::Node(NodeName(1));

const B: NodeRef = NodeRef::Node(NodeName(5));

const BX: NodeRef = NodeRef::Attr(NodeName(5), NameId(4));

const BY: NodeRef = NodeRef::Attr(NodeName(5), NameId(5));

const T: NodeRef = NodeRef::Node(NodeName(3));

const K: NodeRef = NodeRef::Node(NodeName(8));

const U: NodeRef = NodeRef::Node(NodeName(2));

const C: NodeRef = NodeRef::Node(NodeName(7));

const CX: NodeRef = NodeRef::Attr(NodeName(7), NameId(4));

const CY: NodeRef = NodeRef::Attr(NodeName(7), NameId(5));

const V: NodeRef = NodeRef::Node(NodeName(9));

const D: NodeRef = NodeRef::Node(NodeName(4));

const L: NodeRef = NodeRef::Node(NodeName(6));

// What is not in the document.
const NO_NODE: NodeRef = NodeRef::Node(NodeName(10));

const NO_ATTRIBUTE: NodeRef = NodeRef::Attr(NodeName(1), NameId(4));

fn read_document(alloc: Global) -> Result<Document, NoMemory> {
    let mut attributes = Items::new(alloc);
    let value = Chars::from_text(alloc, "1")?;
    attributes.push(AttrPair {
        name: NameId(4),
        value,
    })?;
    let value = Chars::from_text(alloc, "2")?;
    attributes.push(AttrPair {
        name: NameId(5),
        value,
    })?;
    Ok(Document {
        nodes: &NODES,
        attributes,
    })
}

// The axes from an element, a text, an attribute, the document node, and what is not there.
const AXES: [(NodeRef, Axis, &[NodeRef]); 52] = [
    (C, Axis::Child, &[V, D]),
    (C, Axis::Descendant, &[V, D]),
    (C, Axis::DescendantOrSelf, &[C, V, D]),
    (C, Axis::Itself, &[C]),
    (C, Axis::Parent, &[A]),
    (C, Axis::Ancestor, &[A, ROOT]),
    (C, Axis::AncestorOrSelf, &[C, A, ROOT]),
    (C, Axis::FollowingSibling, &[L]),
    (C, Axis::PrecedingSibling, &[U, B]),
    (C, Axis::Following, &[L]),
    (C, Axis::Preceding, &[U, K, T, B]),
    (C, Axis::Attribute, &[CX, CY]),
    (U, Axis::Child, &[]),
    (U, Axis::Descendant, &[]),
    (U, Axis::DescendantOrSelf, &[U]),
    (U, Axis::Itself, &[U]),
    (U, Axis::Parent, &[A]),
    (U, Axis::Ancestor, &[A, ROOT]),
    (U, Axis::AncestorOrSelf, &[U, A, ROOT]),
    (U, Axis::FollowingSibling, &[C, L]),
    (U, Axis::PrecedingSibling, &[B]),
    (U, Axis::Following, &[C, V, D, L]),
    (U, Axis::Preceding, &[K, T, B]),
    (U, Axis::Attribute, &[]),
    (CY, Axis::Child, &[]),
    (CY, Axis::Descendant, &[]),
    (CY, Axis::DescendantOrSelf, &[CY]),
    (CY, Axis::Itself, &[CY]),
    (CY, Axis::Parent, &[C]),
    (CY, Axis::Ancestor, &[C, A, ROOT]),
    (CY, Axis::AncestorOrSelf, &[CY, C, A, ROOT]),
    (CY, Axis::FollowingSibling, &[]),
    (CY, Axis::PrecedingSibling, &[]),
    (CY, Axis::Following, &[V, D, L]),
    (CY, Axis::Preceding, &[U, K, T, B]),
    (CY, Axis::Attribute, &[]),
    (ROOT, Axis::Child, &[A]),
    (ROOT, Axis::Descendant, &[A, B, T, K, U, C, V, D, L]),
    (
        ROOT,
        Axis::DescendantOrSelf,
        &[ROOT, A, B, T, K, U, C, V, D, L],
    ),
    (ROOT, Axis::Itself, &[ROOT]),
    (ROOT, Axis::Parent, &[]),
    (ROOT, Axis::Ancestor, &[]),
    (ROOT, Axis::AncestorOrSelf, &[ROOT]),
    (ROOT, Axis::FollowingSibling, &[]),
    (ROOT, Axis::PrecedingSibling, &[]),
    (ROOT, Axis::Following, &[]),
    (ROOT, Axis::Preceding, &[]),
    (ROOT, Axis::Attribute, &[]),
    (NO_NODE, Axis::Itself, &[]),
    (NO_NODE, Axis::AncestorOrSelf, &[]),
    (NO_ATTRIBUTE, Axis::Itself, &[]),
    (NO_ATTRIBUTE, Axis::Parent, &[]),
];

#[test]
fn goes_along_each_axis(rt: HostRuntime) -> Result<(), Fail> {
    let document = read_document(rt.alloc())?;
    let names = NameTable::new(rt.alloc());
    for (from, along, wanted) in AXES {
        let mut tape = Tape::new(rt.alloc());
        let test = NodeTest::AnyNode;
        let found = axis(rt.alloc(), &document, from, along, &test, &names, &mut tape)?;
        assert!(rt; found.as_slice() == wanted);
    }
    Ok(())
}

// The node tests but `node()`: `p:*` for the namespace `p` of the element d, and the name c or x.
fn some_tests(alloc: Global) -> Result<[NodeTest; 6], NoMemory> {
    Ok([
        NodeTest::AnyText,
        NodeTest::AnyComment,
        NodeTest::AnyName,
        NodeTest::Within(Chars::from_text(alloc, "p")?),
        NodeTest::Named(NameId(2)),
        NodeTest::Named(NameId(4)),
    ])
}

// What each of those tests takes of the descendants of the document node.
const DESCENDANTS: [&[NodeRef]; 6] = [&[T, U, V], &[K, L], &[A, B, C, D], &[D], &[C], &[]];

// And of the attributes of b.
const ATTRIBUTES: [&[NodeRef]; 6] = [&[], &[], &[BX, BY], &[], &[], &[BX]];

fn table(alloc: Global) -> Result<NameTable, NoMemory> {
    let mut names = NameTable::new(alloc);
    for (uri, local) in [
        ("", "a"),
        ("", "b"),
        ("", "c"),
        ("p", "d"),
        ("", "x"),
        ("", "y"),
    ] {
        names.intern(alloc, uri, local, uri)?;
    }
    Ok(names)
}

#[test]
fn takes_what_the_test_asks_for(rt: HostRuntime) -> Result<(), Fail> {
    let document = read_document(rt.alloc())?;
    let names = table(rt.alloc())?;
    let tests = some_tests(rt.alloc())?;
    for (place, test) in tests.iter().enumerate() {
        let mut tape = Tape::new(rt.alloc());
        let below = axis(
            rt.alloc(),
            &document,
            ROOT,
            Axis::Descendant,
            test,
            &names,
            &mut tape,
        )?;
        assert!(rt; below.as_slice() == DESCENDANTS[place]);
        let own = axis(
            rt.alloc(),
            &document,
            B,
            Axis::Attribute,
            test,
            &names,
            &mut tape,
        )?;
        assert!(rt; own.as_slice() == ATTRIBUTES[place]);
    }
    Ok(())
}

// String-values: of the document node and an element, of a text, a comment and an attribute, and of what is not there.
const TEXTS: [(NodeRef, &str); 7] = [
    (ROOT, "tuv"),
    (C, "v"),
    (U, "u"),
    (K, "k"),
    (CY, "2"),
    (NO_NODE, ""),
    (NO_ATTRIBUTE, ""),
];

#[test]
fn joins_texts(rt: HostRuntime) -> Result<(), Fail> {
    let document = read_document(rt.alloc())?;
    for (node, wanted) in TEXTS {
        let mut tape = Tape::new(rt.alloc());
        let text = string_value(rt.alloc(), &document, node, &mut tape)?;
        assert!(rt; text.as_text() == wanted);
    }
    Ok(())
}

// Lists, and those of their nodes and attributes that are in the document, each once, in document order (section 5: an element's
// attributes stand behind it and before its children).
const ORDERED: [(&[NodeRef], &[NodeRef]); 5] = [
    (&[], &[]),
    (&[A, B, K, U], &[A, B, K, U]),
    (&[L, V, U, K, A], &[A, K, U, V, L]),
    (
        &[D, CY, T, C, CX, BX, ROOT, B],
        &[ROOT, B, BX, T, C, CX, CY, D],
    ),
    (&[U, NO_NODE, B, U, NO_ATTRIBUTE, BY, B, BY], &[B, BY, U]),
];

#[test]
fn sorts_by_document_order(rt: HostRuntime) -> Result<(), Fail> {
    let document = read_document(rt.alloc())?;
    for (refs, wanted) in ORDERED {
        let mut tape = Tape::new(rt.alloc());
        let refs = Items::from_slice(rt.alloc(), refs)?;
        let found = document_order(rt.alloc(), &document, refs, &mut tape)?;
        assert!(rt; found.as_slice() == wanted);
    }
    Ok(())
}
