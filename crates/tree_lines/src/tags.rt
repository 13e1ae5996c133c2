//! What a line says, by its first character.
ghost use Rattle.std.specs.Prelude.{◌≡◌, map, IsTrue, ◌↔◌};
ghost use Rattle.std.specs.Option.{option_map};
ghost use Rattle.tree_lines.specs.Tags.{tag_of, attribute_tag, is_declaration, declared_prefix};
ghost use Rattle.tree_lines.specs.Kinds.{said};

use serna_kinds::{WrittenName, parted};

// What a line says: `(NAME` begins an element, `ANAME VALUE` is its attribute, `-TEXT` a text, `CTEXT` a comment, and `)NAME`
// ends an element.
#[derive(Clone, Copy)]
pub(crate) enum LineTag<'a> {
    Begin(&'a str),
    Attribute(&'a str, &'a str),
    Text(&'a str),
    Comment(&'a str),
    Finish(&'a str),
}

// What an attribute's line says, behind its first character: its name and its value stand on both sides of the first space.
fn attribute_tag(rest: &str) -> Option<LineTag<'_>>
    ensures { option_map said result ≡ attribute_tag rest.now }
{
    match parted(' ', rest) {
        Some((name, value)) => Some(LineTag::Attribute(name, value)),
        None => None,
    }
}

// What a line says; None for one with another first character, and for an attribute without its space.
pub(crate) fn tag_of(line: &str) -> Option<LineTag<'_>>
    ensures { option_map said result ≡ tag_of line.now }
{
    let (mark, rest) = line.split_at_checked(1)?;
    match mark {
        "(" => Some(LineTag::Begin(rest)),
        "A" => attribute_tag(rest),
        "-" => Some(LineTag::Text(rest)),
        "C" => Some(LineTag::Comment(rest)),
        ")" => Some(LineTag::Finish(rest)),
        _ => None,
    }
}

// The name of the attributes that declare namespaces, alone or as a prefix (Namespaces in XML 1.0, section 3).
const XMLNS: &str = "xmlns";

// Whether an attribute's name declares a namespace.
pub(crate) fn is_declaration(name: &str) -> bool
    ensures { result ≡ is_declaration name.now }
{
    name == XMLNS || WrittenName::parts(name).prefix == XMLNS
}

// The prefix that such an attribute declares; the empty one is that of the default namespace.
pub(crate) fn declared_prefix(name: &str) -> &str
    ensures { result.now ≡ declared_prefix name.now }
{
    if name == XMLNS {
        return "";
    }
    WrittenName::parts(name).local
}
