//! Which nodes and attributes a step of a location path takes (XPath 1.0, section 2.3).
ghost use Rattle.std.specs.Prelude.{◌≡◌};
ghost use Rattle.source_model.specs.Axes.{is_in_namespace, is_named, has_principal_kind, takes};

use serna_kinds::{Axis, Chars, Kind, NameId, NameTable, NodeTest};

fn has_principal_kind(along: Axis, kind: Option<Kind>) -> bool
    ensures { result ≡ has_principal_kind along kind }
{
    match along {
        Axis::Attribute => kind.is_none(),
        Axis::Child
        | Axis::Parent
        | Axis::Descendant
        | Axis::Ancestor
        | Axis::Itself
        | Axis::DescendantOrSelf
        | Axis::AncestorOrSelf
        | Axis::FollowingSibling
        | Axis::PrecedingSibling
        | Axis::Following
        | Axis::Preceding => matches!(kind, Some(Kind::Element)),
    }
}

fn is_in_namespace(names: &NameTable, uri: &Chars, name: Option<NameId>) -> bool
    ensures { result ≡ is_in_namespace names.now uri.now name }
{
    match name {
        Some(id) => match names.name(id) {
            Some(parts) => parts.uri == uri.as_text(),
            None => false,
        },
        None => false,
    }
}

fn is_named(names: &NameTable, wanted: NameId, name: Option<NameId>) -> bool
    ensures { result ≡ is_named names.now wanted name }
{
    match name {
        Some(id) => names.same(wanted, id),
        None => false,
    }
}

/// Whether a test along an axis takes what has this kind and name; an attribute has no kind.
pub fn takes(
    names: &NameTable,
    along: Axis,
    test: &NodeTest,
    kind: Option<Kind>,
    name: Option<NameId>,
) -> bool
    ensures { result ≡ takes names.now along test.now kind name }
{
    match test {
        NodeTest::AnyNode => true,
        NodeTest::AnyText => matches!(kind, Some(Kind::Text)),
        NodeTest::AnyComment => matches!(kind, Some(Kind::Comment)),
        NodeTest::AnyName => has_principal_kind(along, kind),
        NodeTest::Within(uri) => {
            has_principal_kind(along, kind) && is_in_namespace(names, uri, name)
        }
        NodeTest::Named(wanted) => {
            has_principal_kind(along, kind) && is_named(names, *wanted, name)
        }
    }
}
