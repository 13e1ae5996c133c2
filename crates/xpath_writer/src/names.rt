//! Names and prefixes as they are written.

ghost use Rattle.std.specs.Prelude.{◌≡◌, ◌++◌, ◌∷◌, [], slice_get, OnOk};
ghost use Rattle.std.specs.String.{string_bytes};
ghost use Rattle.std.specs.Option.{option_map};
ghost use Rattle.xpath_tokens.specs.declared.tokens.Kind.TheVariants as kind;
ghost use Rattle.serna_kinds.specs.Qualified.{is_local_name};
ghost use Rattle.xpath_writer.specs.Writing.{spelled, qualified_text, name_text, stands_for, declared_prefix, prefix_among, prefix_for};

use crate::NoMemory;
use crate::words::push_word;
use serna_kinds::{NameId, NameTable, Spaces, XML_URI, is_name, parted};
use xpath_tokens::uri_in;

// The prefix of `XML_URI` (Namespaces in XML 1.0, section 3).
const XML_PREFIX: &str = "xml";

/// Adds a name as it is written, and nothing for a number that the table does not have.
pub fn push_name(out: &mut String, id: NameId, names: &NameTable) -> Result<(), NoMemory>
    ensures { OnOk result (string_bytes out.new ≡ string_bytes out.old ++ (name_text names.now id ++ 32 ∷ [])) }
{
    match names.name(id) {
        Some(name) => push_qualified(out, name.prefix, name.local),
        None => push_word(out, ""),
    }
}

pub fn push_qualified(out: &mut String, prefix: &str, local: &str) -> Result<(), NoMemory>
    ensures { OnOk result (string_bytes out.new ≡ string_bytes out.old ++ (qualified_text prefix.now local.now ++ 32 ∷ [])) }
{
    if !prefix.is_empty() {
        out.push_str(prefix)?;
        out.push_str(":")?;
    }
    push_word(out, local)
}

pub fn push_variable(out: &mut String, name: NameId, names: &NameTable) -> Result<(), NoMemory>
    ensures { OnOk result (string_bytes out.new ≡ string_bytes out.old ++ spelled ((kind.Variable, 36 ∷ name_text names.now name) ∷ [])) }
{
    out.push_str("$")?;
    push_name(out, name, names)
}

/// Whether the text is a name without a colon (Namespaces in XML 1.0, NCName).
pub fn is_local_name(text: &str) -> bool
    ensures { result ≡ is_local_name text.now }
{
    match parted(':', text) {
        Some(_) => false,
        None => is_name(text),
    }
}

/// Whether the prefix is a name and stands for the URI.
pub fn stands_for(spaces: &Spaces, uri: &str, prefix: &str) -> bool
    ensures { result ≡ stands_for spaces.now uri.now prefix.now }
{
    is_local_name(prefix) && uri_in(spaces, prefix) == uri
}

/// The prefix of the declaration at a place, from 0, where it is of the URI, and the prefix is a name and stands for it.
pub fn declared_prefix<'a>(spaces: &'a Spaces, uri: &str, place: usize) -> Option<&'a str>
    ensures { option_map (λ p. p.now) result ≡ declared_prefix spaces.now uri.now (slice_get spaces.now place) }
{
    let (prefix, declared) = spaces.declaration(place)?;
    if declared == uri && stands_for(spaces, uri, prefix) {
        Some(prefix)
    } else {
        None
    }
}

/// The first declared prefix that stands for the URI, empty where none does.
pub fn declared_for<'a>(spaces: &'a Spaces, uri: &str) -> &'a str
    ensures { result.now ≡ prefix_among spaces.now uri.now spaces.now }
{
    for place in 0..spaces.len() {
        if let Some(prefix) = declared_prefix(spaces, uri, place) {
            return prefix;
        }
    }
    ""
}

/// A prefix that stands for the URI: `xml` for its own, and else the first declared one; empty where none does.
pub fn prefix_for<'a>(spaces: &'a Spaces, uri: &str) -> &'a str
    ensures { result.now ≡ prefix_for spaces.now uri.now }
{
    if uri == XML_URI {
        XML_PREFIX
    } else {
        declared_for(spaces, uri)
    }
}
