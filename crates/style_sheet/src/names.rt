//! What the names of elements and attributes say, and the names that templates match.
ghost use Rattle.std.specs.Prelude.{◌≡◌, not, ◌&&◌, true, false, List, IsSome, is_some, IfSome, IfOk, OnOk, Err, codes, slice_get};
ghost use Rattle.std.specs.List.{list_all};
ghost use Rattle.serna_kinds.specs.Names.{NameParts, Grows};
ghost use Rattle.serna_kinds.specs.Apart.{AreApart};
ghost use Rattle.tree_lines.specs.Tokens.{with_names};
ghost use Rattle.style_sheet.specs.Styles.{xslt_uri, is_within, is_named, is_instruction, space_of, keeps, pattern_of, matched_name, match_of};
ghost use Rattle.style_sheet.specs.Built.{is_plain_attribute, is_pattern, has_alone, is_template, is_sheet};

use crate::texts::{has_brace, is_word};
use crate::{Pattern, StyleFault};
use serna_kinds::{AttrPair, Chars, NameId, NameTable, Spaces, WrittenName, XML_URI, is_name};
use std::alloc::Global;

// The namespace of instructions (XSLT 1.0, section 2.1).
const XSLT_URI: &str = "http://www.w3.org/1999/XSL/Transform";

const ROOT: &str = "/";

// Whether a name of the table is in a namespace.
fn is_within(names: &NameTable, id: NameId, uri: &str) -> bool
    requires { IsSome (slice_get names.now id.0) }
    ensures { (table : List NameParts) → Grows names.now table → is_within table uri.now id ≡ result }
{
    match names.name(id) {
        Some(name) => name.uri == uri,
        None => false,
    }
}

// Whether a name of the table is the one of this URI and this local name.
fn is_named(names: &NameTable, id: NameId, uri: &str, local: &str) -> bool
    requires { IsSome (slice_get names.now id.0) }
    ensures { (table : List NameParts) → Grows names.now table → is_named table uri.now local.now id ≡ result }
{
    match names.name(id) {
        Some(name) => name.uri == uri && name.local == local,
        None => false,
    }
}

// Whether an element is the instruction of this local name.
pub(crate) fn is_instruction(names: &NameTable, id: NameId, local: &str) -> bool
    requires { IsSome (slice_get names.now id.0) }
    ensures { (table : List NameParts) → Grows names.now table → is_instruction table local.now id ≡ result }
{
    is_named(names, id, XSLT_URI, local)
}

// Whether an attribute of a result's element is built: none of the instructions' namespace, and no value template.
fn is_plain_attribute(names: &NameTable, pair: &AttrPair) -> bool
    requires { IsSome (slice_get names.now pair.now.name.0) }
    ensures { (table : List NameParts) → Grows names.now table → is_plain_attribute table pair.now ≡ result }
{
    !is_within(names, pair.name, XSLT_URI) && !has_brace(&pair.value)
}

fn are_plain_attributes(names: &NameTable, attributes: &[AttrPair]) -> bool
    requires { AreApart names.now attributes.now }
    ensures { (table : List NameParts) → Grows names.now table → list_all (is_plain_attribute table) attributes.now ≡ result }
{
    for pair in attributes {
        if !is_plain_attribute(names, pair) {
            return false;
        }
    }
    true
}

// Whether an element is one of the result whose attributes are built.
pub(crate) fn is_literal(names: &NameTable, name: NameId, attributes: &[AttrPair]) -> bool
    requires name { IsSome (slice_get names.now name.0) }
    requires attributes { AreApart names.now attributes.now }
    ensures { (table : List NameParts) → Grows names.now table → (not (is_within table xslt_uri name) && list_all (is_plain_attribute table) attributes.now) ≡ result }
{
    !is_within(names, name, XSLT_URI) && are_plain_attributes(names, attributes)
}

// What `xml:space` says of white space, if the attribute is one: None where it is another, or has another value.
fn space_of(names: &NameTable, pair: &AttrPair) -> Option<bool>
    requires { IsSome (slice_get names.now pair.now.name.0) }
    ensures { (table : List NameParts) → Grows names.now table → space_of table pair.now ≡ result }
{
    if !is_named(names, pair.name, XML_URI, "space") {
        None
    } else if is_word(&pair.value, "preserve") {
        Some(true)
    } else if is_word(&pair.value, "default") {
        Some(false)
    } else {
        None
    }
}

// Whether white space is kept in an element with these attributes, by whether it is around it (XSLT 1.0, section 3.4).
pub(crate) fn keeps(names: &NameTable, around: bool, attributes: &[AttrPair]) -> bool
    requires { AreApart names.now attributes.now }
    ensures { (table : List NameParts) → Grows names.now table → keeps table around attributes.now ≡ result }
{
    for pair in attributes {
        if let Some(kept) = space_of(names, pair) {
            return kept;
        }
    }
    around
}

// The value of the one attribute, where it is this one.
fn only_value<'a>(names: &NameTable, attributes: &'a [AttrPair], local: &str) -> Option<&'a Chars>
    requires { AreApart names.now attributes.now }
    ensures alone { (table : List NameParts) → Grows names.now table → has_alone table local.now attributes.now ≡ is_some result }
    ensures value { IfSome result (λ value. value.now ≡ match_of attributes.now) }
{
    let [pair] = attributes else {
        return None;
    };
    if is_named(names, pair.name, "", local) {
        Some(&pair.value)
    } else {
        None
    }
}

// Whether an element is the outermost one of a stylesheet.
pub(crate) fn is_sheet(names: &NameTable, name: NameId, attributes: &[AttrPair]) -> bool
    requires name { IsSome (slice_get names.now name.0) }
    requires attributes { AreApart names.now attributes.now }
    ensures { (table : List NameParts) → Grows names.now table → is_sheet table name attributes.now ≡ result }
{
    (is_instruction(names, name, "stylesheet") || is_instruction(names, name, "transform"))
        && only_value(names, attributes, "version").is_some()
}

// The value of `match` of an element that is a template with `match` alone.
fn match_value<'a>(names: &NameTable, name: NameId, attributes: &'a [AttrPair]) -> Option<&'a Chars>
    requires name { IsSome (slice_get names.now name.0) }
    requires attributes { AreApart names.now attributes.now }
    ensures found { (table : List NameParts) → Grows names.now table → (is_instruction table (codes "template") name && has_alone table (codes "match") attributes.now) ≡ is_some result }
    ensures value { IfSome result (λ value. value.now ≡ match_of attributes.now) }
{
    if is_instruction(names, name, "template") {
        only_value(names, attributes, "match")
    } else {
        None
    }
}

// What the rule of a template is for, whose name is interned.
pub(crate) fn template_pattern(
    alloc: Global,
    name: NameId,
    attributes: &[AttrPair],
    spaces: &Spaces,
    names: &mut NameTable,
) -> Result<Pattern, StyleFault>
    requires name { IsSome (slice_get names.old name.0) }
    requires attributes { AreApart names.old attributes.now }
    ensures found { IfOk result (λ pattern. (table : List NameParts) → Grows names.new table → pattern_of table spaces.now (match_of attributes.now) ≡ pattern) }
    ensures built { OnOk result ((table : List NameParts) → Grows names.old table → is_template table spaces.now name attributes.now ≡ true) }
    ensures refused { result ≡ Err StyleFault.NotBuilt → (table : List NameParts) → Grows names.old table → is_template table spaces.now name attributes.now ≡ false }
    ensures known { OnOk result (names.new ≡ with_names names.old (matched_name spaces.now (match_of attributes.now))) }
    ensures grows { Grows names.old names.new }
{
    let Some(text) = match_value(names, name, attributes) else {
        return Err(StyleFault::NotBuilt);
    };
    intern_pattern(alloc, text, spaces, names)
}

// What a rule is for, by the text of `match`; a name is interned.
fn intern_pattern(
    alloc: Global,
    text: &Chars,
    spaces: &Spaces,
    names: &mut NameTable,
) -> Result<Pattern, StyleFault>
    ensures found { IfOk result (λ pattern. (table : List NameParts) → Grows names.new table → pattern_of table spaces.now text.now ≡ pattern) }
    ensures built { OnOk result (is_pattern spaces.now text.now ≡ true) }
    ensures refused { result ≡ Err StyleFault.NotBuilt → is_pattern spaces.now text.now ≡ false }
    ensures known { OnOk result (names.new ≡ with_names names.old (matched_name spaces.now text.now)) }
    ensures grows { Grows names.old names.new }
{
    if is_word(text, ROOT) {
        return Ok(Pattern::Root);
    }
    let text = text.as_text();
    if !is_name(text) {
        return Err(StyleFault::NotBuilt);
    }
    let WrittenName { prefix, local } = WrittenName::parts(text);
    let Some(uri) = spaces.attribute_uri(prefix) else {
        return Err(StyleFault::NotBuilt);
    };
    Ok(Pattern::Named(names.intern(alloc, uri, local, prefix)?))
}
