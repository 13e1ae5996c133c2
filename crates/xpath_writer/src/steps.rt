//! Steps without their predicates.

ghost use Rattle.std.specs.Prelude.{◌≡◌, ◌++◌, ◌∷◌, [], if◌then◌else◌, codes, encode_utf8_all, OnOk};
ghost use Rattle.std.specs.String.{string_bytes};
ghost use Rattle.xpath_tokens.specs.declared.tokens.Kind.TheVariants as kind;
ghost use Rattle.xpath_writer.specs.Writing.{spelled, is_any_node, is_bare, is_descendant_or_self, axis_words, short_kind, short_for, type_words, slash_words, is_slash, root_words, prefix_for, test_words, shown_step};

use crate::NoMemory;
use crate::names::{prefix_for, push_name};
use crate::words::{axis_text, push_mark, push_word};
use serna_kinds::{Axis, Chars, NameTable, NodeTest, Spaces};
use xpath_tokens::Kind;
use xpath_trees::{Expr, Step};

pub fn push_axis(out: &mut String, axis: Axis) -> Result<(), NoMemory>
    ensures { OnOk result (string_bytes out.new ≡ string_bytes out.old ++ spelled (axis_words axis)) }
{
    match axis {
        Axis::Child => Ok(()),
        Axis::Attribute => push_mark(out, Kind::At),
        _ => {
            push_word(out, axis_text(axis))?;
            push_mark(out, Kind::Colons)
        }
    }
}

pub fn push_type(out: &mut String, name: &str) -> Result<(), NoMemory>
    ensures { OnOk result (string_bytes out.new ≡ string_bytes out.old ++ spelled (type_words name.now)) }
{
    push_word(out, name)?;
    push_mark(out, Kind::Open)?;
    push_mark(out, Kind::Close)
}

pub fn push_within(out: &mut String, uri: &Chars, spaces: &Spaces) -> Result<(), NoMemory>
    ensures { OnOk result (string_bytes out.new ≡ string_bytes out.old ++ spelled ((kind.Within, prefix_for spaces.now (encode_utf8_all uri.now) ++ codes ":*") ∷ [])) }
{
    out.push_str(prefix_for(spaces, uri.as_text()))?;
    push_word(out, ":*")
}

pub fn push_test(
    out: &mut String,
    test: &NodeTest,
    spaces: &Spaces,
    names: &NameTable,
) -> Result<(), NoMemory>
    ensures { OnOk result (string_bytes out.new ≡ string_bytes out.old ++ spelled (test_words spaces.now names.now test.now)) }
{
    match test {
        NodeTest::AnyNode => push_type(out, "node"),
        NodeTest::AnyText => push_type(out, "text"),
        NodeTest::AnyComment => push_type(out, "comment"),
        NodeTest::AnyName => push_mark(out, Kind::Star),
        NodeTest::Within(uri) => push_within(out, uri, spaces),
        NodeTest::Named(name) => push_name(out, *name, names),
    }
}

pub fn is_any_node(test: &NodeTest) -> bool
    ensures { result ≡ is_any_node test.now }
{
    match test {
        NodeTest::AnyNode => true,
        _ => false,
    }
}

pub fn is_descendant_or_self(axis: Axis) -> bool
    ensures { result ≡ is_descendant_or_self axis }
{
    match axis {
        Axis::DescendantOrSelf => true,
        _ => false,
    }
}

/// The slash that a step stands behind, where there is one.
pub fn push_slash(out: &mut String, behind: Option<Kind>) -> Result<(), NoMemory>
    ensures { OnOk result (string_bytes out.new ≡ string_bytes out.old ++ spelled (slash_words behind)) }
{
    match behind {
        Some(kind) => push_mark(out, kind),
        None => Ok(()),
    }
}

pub fn is_slash(behind: Option<Kind>) -> bool
    ensures { result ≡ is_slash behind }
{
    match behind {
        Some(Kind::Slash) => true,
        _ => false,
    }
}

/// What stands for a step to any node on this axis without predicates.
pub fn short_kind(axis: Axis) -> Option<Kind>
    ensures { result ≡ short_kind axis }
{
    match axis {
        Axis::Itself => Some(Kind::Dot),
        Axis::Parent => Some(Kind::DotDot),
        _ => None,
    }
}

/// Whether a step with this test and these predicates takes each node of its axis.
pub fn is_bare(test: &NodeTest, predicates: &[Expr]) -> bool
    ensures { result ≡ is_bare test.now predicates.now }
{
    is_any_node(test) && predicates.is_empty()
}

/// What stands for a step on this axis, where something does.
pub fn short_for(axis: Axis, bare: bool) -> Option<Kind>
    ensures { result ≡ short_for axis bare }
{
    if bare { short_kind(axis) } else { None }
}

/// Whether the step is one that `//` stands for.
pub fn is_wide(step: &Step, spaces: &Spaces, names: &NameTable) -> bool
    ensures { result ≡ (shown_step spaces.now names.now step.now).is_wide }
{
    let bare = is_bare(&step.test, step.predicates.as_slice());
    is_descendant_or_self(step.axis) && bare
}

/// Adds `/` where no step follows, in parentheses before an operator that would be read as a name there.
pub fn push_root(out: &mut String, alone: bool, before: bool) -> Result<(), NoMemory>
    ensures { OnOk result (string_bytes out.new ≡ string_bytes out.old ++ spelled (if alone then root_words before else [])) }
{
    if !alone {
        Ok(())
    } else if before {
        push_mark(out, Kind::Open)?;
        push_mark(out, Kind::Slash)?;
        push_mark(out, Kind::Close)
    } else {
        push_mark(out, Kind::Slash)
    }
}
