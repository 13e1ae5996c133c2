//! A reader of lines, one after another: the first rule that a line breaks, and what the reader holds behind the line.
ghost use Rattle.std.specs.Prelude.{◌≡◌, false, ℕ, List, [], ◌∷◌, ◌++◌, ◌<◌, Some, None, not, nat_le, nat_lt, ◌&&◌, ◌+◌, length, is_some, map, IfOk, IfErr, OnOk};
ghost use Rattle.std.specs.Option.{option_map};
ghost use Rattle.serna_kinds.specs.Limits.{text_limit, node_limit};
ghost use Rattle.serna_kinds.specs.Names.{NameParts, Grows, id_of, with_name};
ghost use Rattle.serna_kinds.specs.Qualified.{prefix_of, attribute_uri, element_name, attribute_name};
ghost use Rattle.tree_lines.specs.declared.rules.LineRule.{LineRule};
ghost use Rattle.tree_lines.specs.declared.reader.Stop.TheVariants as stop;
ghost use Rattle.tree_lines.specs.declared.tree.TreeItem.{TreeItem};
ghost use Rattle.tree_lines.specs.Texts.{has_escapes, meant, size_of};
ghost use Rattle.tree_lines.specs.Tags.{tag_of};
ghost use Rattle.tree_lines.specs.Tags as tag;
ghost use Rattle.tree_lines.specs.Faults.{is_nothing, begin_fault, declaration_fault, inner_declaration_fault, pair_fault, attribute_fault, text_fault, comment_fault, finish_fault, tag_fault, line_fault, end_fault};
ghost use Rattle.tree_lines.specs.Given.{pair_for};
ghost use Rattle.tree_lines.specs.Tokens.{names_by, with_names};
ghost use Rattle.tree_lines.specs.Keys.{declaration_key, pair_key, key_of};
ghost use Rattle.tree_lines.specs.Kinds.{said};
ghost use Rattle.tree_lines.specs.Reading.{Reading, no_reading, has_key, held, ended_begun, ended_text, ended, after_begin, after_attribute, after_text, after_comment, after_finish, after, shown, begins, text_nodes, with_text};

use crate::draft::Draft;
use crate::keys::AttributeKey;
use crate::tags::{LineTag, declared_prefix, is_declaration, tag_of};
use crate::texts::{Decoded, decode, line_text};
use crate::{Line, LineRule, TreeItem};
use indexmap::IndexSet;
use serna_kinds::{
    AttrPair, Chars, Items, NameId, NameTable, NoMemory, Spaces, WrittenName, is_name,
};
use std::alloc::Global;
use std::marker::Model;
use std::mem;

// The limits of a section: elements in one another, nodes, and the bytes of a text or of an attribute's value.
const MAX_DEPTH: usize = 120;

const MAX_NODES: usize = 1_000_000;

const MAX_TEXT_BYTES: usize = 16_384;

// Why a line was not read: the first rule that it breaks, or want of memory.
#[derive(Clone, Copy)]
pub(crate) enum Stop {
    Broken(LineRule),
    NoMemory,
}

impl From<NoMemory> for Stop {
    ghost use Rattle.tree_lines.specs.declared.reader.Stop.TheVariants.{NoMemory};

    ghost from_gives = { λ _ e. e ≡ NoMemory };

    fn from(_e: NoMemory) -> Stop {
        Stop::NoMemory
    }
}

// An element that has not ended: the place of its line, from 0, and its name as it is written.
#[derive(Clone, Copy)]
pub(crate) struct OpenElement<'a> {
    place: usize,
    name: &'a str,
}

// What is read so far, between two lines: what the document declares, the open elements, the outermost first, whether an
// element has begun, and the items. An element that has just begun, with the attributes so far, and a text that goes on are
// not among the items yet. `keys` are those of its attributes and declarations.
#[derive(Drop)]
pub(crate) struct Reader<'a> {
    spaces: &'a Spaces,
    opened: Items<OpenElement<'a>>,
    has_begun: bool,
    items: Items<TreeItem>,
    begun: Option<(NameId, u32)>,
    pairs: Items<AttrPair>,
    keys: IndexSet<AttributeKey>,
    text: Draft,
    nodes: usize,
}

impl<'a> Model for Reader<'a> {
    ghost use Rattle.std.specs.Prelude.{map, reverse, ◌≤◌};
    ghost use Rattle.tree_lines.specs.Texts.{size_of};
    ghost use Rattle.serna_kinds.specs.Limits.{text_limit, node_limit};
    ghost use Rattle.tree_lines.specs.Before.{open_element};
    ghost use Rattle.tree_lines.specs.Reading.{Reading};

    ghost Value = { Reading };

    ghost view = { λ r. record { spaces = r.spaces.now; opened = reverse (map (λ o. open_element o.place o.name.now) r.opened); has_begun = r.has_begun; items = r.items; begun = r.begun; pairs = r.pairs; keys = r.keys.keys; text = r.text; nodes = r.nodes } };

    ghost invariant = { λ r. (r.nodes ≤ node_limit) × (size_of r.text ≤ text_limit) };
}

// The number of an element's name as it is written. A prefix that is not declared stands for no URI here.
fn intern_element(
    alloc: Global,
    name: &str,
    spaces: &Spaces,
    names: &mut NameTable,
) -> Result<NameId, NoMemory>
    ensures number { IfOk result (λ id. (table : List NameParts) → Grows names.new table → id ≡ id_of table (element_name spaces.now name.now)) }
    ensures names { OnOk result (names.new ≡ with_name names.old (element_name spaces.now name.now)) }
    ensures grows { Grows names.old names.new }
{
    let WrittenName { prefix, local } = WrittenName::parts(name);
    let uri = spaces.element_uri(prefix).unwrap_or("");
    names.intern(alloc, uri, local, prefix)
}

// The number of an attribute's name as it is written. A prefix that is not declared stands for no URI here.
fn intern_attribute(
    alloc: Global,
    name: &str,
    spaces: &Spaces,
    names: &mut NameTable,
) -> Result<NameId, NoMemory>
    ensures number { IfOk result (λ id. (table : List NameParts) → Grows names.new table → id ≡ id_of table (attribute_name spaces.now name.now)) }
    ensures names { OnOk result (names.new ≡ with_name names.old (attribute_name spaces.now name.now)) }
    ensures grows { Grows names.old names.new }
{
    let WrittenName { prefix, local } = WrittenName::parts(name);
    let uri = spaces.attribute_uri(prefix).unwrap_or("");
    names.intern(alloc, uri, local, prefix)
}

impl<'a> Reader<'a> {
    // Nothing is read yet. Takes no memory.
    pub(crate) fn new(alloc: Global, spaces: &'a Spaces) -> Reader<'a>
        ensures { result ≡ no_reading spaces.now }
    {
        Reader {
            spaces,
            opened: Items::new(alloc),
            has_begun: false,
            items: Items::new(alloc),
            begun: None,
            pairs: Items::new(alloc),
            keys: IndexSet::new(alloc),
            text: Draft::new(alloc),
            nodes: 0,
        }
    }

    fn spaces(&self) -> &'a Spaces
        ensures { result.now ≡ self.now.spaces }
    {
        self.spaces
    }

    // Whether no element is open.
    fn is_outside(&self) -> bool
        ensures { result ≡ is_nothing self.now.opened }
    {
        self.opened.is_empty()
    }

    // The rule that a line `(NAME` breaks.
    fn begin_rule(&self, name: &str) -> Option<LineRule>
        ensures { result ≡ begin_fault (held self.now) name.now }
    {
        if !is_name(name) {
            return Some(LineRule::BadName);
        }
        if self.has_begun && self.is_outside() {
            return Some(LineRule::TwoRoots);
        }
        if self.opened.len() >= MAX_DEPTH {
            return Some(LineRule::TooDeep);
        }
        if self.nodes >= MAX_NODES {
            return Some(LineRule::TooManyNodes);
        }
        let prefix = WrittenName::parts(name).prefix;
        if self.spaces.element_uri(prefix).is_none() {
            return Some(LineRule::UnboundPrefix);
        }
        None
    }

    // The rule that a line `ANAME VALUE` breaks which declares a namespace, on the outermost element.
    fn declaration_rule(
        &self,
        name: &str,
        value: &str,
        is_right: bool,
        key: &AttributeKey,
    ) -> Option<LineRule>
        requires right { is_right ≡ has_escapes value.now }
        requires key { key.now ≡ declaration_key name.now }
        ensures { result ≡ declaration_fault (held self.now) name.now value.now }
    {
        if self.begun.is_none() {
            return Some(LineRule::BadLine);
        }
        if !is_name(name) {
            return Some(LineRule::BadName);
        }
        if !is_right {
            return Some(LineRule::BadEscape);
        }
        if self.keys.contains(key) {
            return Some(LineRule::DuplicateAttribute);
        }
        if !declared_prefix(name).is_empty() && value.is_empty() {
            return Some(LineRule::UnboundPrefix);
        }
        None
    }

    // And on another element.
    fn inner_declaration_rule(&self, name: &str, value: &str, is_right: bool) -> Option<LineRule>
        requires { is_right ≡ has_escapes value.now }
        ensures { result ≡ inner_declaration_fault (held self.now) name.now value.now }
    {
        if self.begun.is_none() {
            return Some(LineRule::BadLine);
        }
        if !is_name(name) {
            return Some(LineRule::BadName);
        }
        if !is_right {
            return Some(LineRule::BadEscape);
        }
        Some(LineRule::InnerNamespace)
    }

    // The rule that any other line `ANAME VALUE` breaks.
    fn pair_rule(
        &self,
        name: &str,
        value: &str,
        decoded: &Decoded,
        key: &AttributeKey,
    ) -> Option<LineRule>
        requires text { decoded.now.meant ≡ meant value.now }
        requires right { decoded.now.is_right ≡ has_escapes value.now }
        requires key { key.now ≡ pair_key name.now (attribute_uri self.now.spaces (prefix_of name.now)) }
        ensures { result ≡ pair_fault (held self.now) name.now value.now }
    {
        if self.begun.is_none() {
            return Some(LineRule::BadLine);
        }
        if !is_name(name) {
            return Some(LineRule::BadName);
        }
        if !decoded.is_right {
            return Some(LineRule::BadEscape);
        }
        if self.keys.contains(key) {
            return Some(LineRule::DuplicateAttribute);
        }
        if decoded.meant.as_text().len() > MAX_TEXT_BYTES {
            return Some(LineRule::TextTooLong);
        }
        let prefix = WrittenName::parts(name).prefix;
        if self.spaces.attribute_uri(prefix).is_none() {
            return Some(LineRule::UnboundPrefix);
        }
        None
    }

    // The rule that a line `ANAME VALUE` breaks.
    fn attribute_rule(
        &self,
        name: &str,
        value: &str,
        decoded: &Decoded,
        key: &AttributeKey,
    ) -> Option<LineRule>
        requires text { decoded.now.meant ≡ meant value.now }
        requires right { decoded.now.is_right ≡ has_escapes value.now }
        requires key { key.now ≡ key_of self.now.spaces name.now }
        ensures { result ≡ attribute_fault (held self.now) name.now value.now }
    {
        if !is_declaration(name) {
            return self.pair_rule(name, value, decoded, key);
        }
        if self.opened.len() == 1 {
            return self.declaration_rule(name, value, decoded.is_right, key);
        }
        self.inner_declaration_rule(name, value, decoded.is_right)
    }

    // The rule that a line `-TEXT` breaks.
    fn text_rule(&self, text: &str, decoded: &Decoded) -> Option<LineRule>
        requires text { decoded.now.meant ≡ meant text.now }
        requires right { decoded.now.is_right ≡ has_escapes text.now }
        ensures { result ≡ text_fault (held self.now) text.now }
    {
        if self.is_outside() {
            return Some(LineRule::BadLine);
        }
        if !decoded.is_right {
            return Some(LineRule::BadEscape);
        }
        let bytes = decoded.meant.as_text().len();
        if self.text.len() == 0 && bytes > 0 && self.nodes >= MAX_NODES {
            return Some(LineRule::TooManyNodes);
        }
        if bytes > MAX_TEXT_BYTES - self.text.len() {
            return Some(LineRule::TextTooLong);
        }
        None
    }

    // The rule that a line `CTEXT` breaks.
    fn comment_rule(&self, text: &str, is_right: bool) -> Option<LineRule>
        requires { is_right ≡ has_escapes text.now }
        ensures { result ≡ comment_fault (held self.now) text.now }
    {
        if !is_right {
            return Some(LineRule::BadEscape);
        }
        if self.nodes >= MAX_NODES {
            return Some(LineRule::TooManyNodes);
        }
        None
    }

    // The rule that a line `)NAME` breaks.
    fn finish_rule(&self, name: &str) -> Option<LineRule>
        ensures { result ≡ finish_fault (held self.now) name.now }
    {
        if !is_name(name) {
            return Some(LineRule::BadName);
        }
        match self.opened.as_slice().last() {
            Some(innermost) if innermost.name == name => None,
            _ => Some(LineRule::WrongClose),
        }
    }

    // Puts the element that has begun among the items: no attribute of it follows.
    fn end_begun(&mut self, alloc: Global) -> Result<(), NoMemory>
        ensures { OnOk result (self.new ≡ ended_begun self.old) }
    {
        let pairs = mem::replace(&mut self.pairs, Items::new(alloc));
        self.keys = IndexSet::new(alloc);
        if let Some((name, number)) = self.begun.take() {
            self.items.push(TreeItem::Begin(name, pairs, number))?;
        }
        Ok(())
    }

    // Puts the text that was waiting among the items.
    fn end_text(&mut self, alloc: Global) -> Result<(), NoMemory>
        ensures { OnOk result (self.new ≡ ended_text self.old) }
    {
        if self.text.len() == 0 {
            return Ok(());
        }
        let text = mem::replace(&mut self.text, Draft::new(alloc)).into_chars()?;
        self.items.push(TreeItem::Text(text))?;
        Ok(())
    }

    fn end_waiting(&mut self, alloc: Global) -> Result<(), NoMemory>
        ensures { OnOk result (self.new ≡ ended self.old) }
    {
        self.end_begun(alloc)?;
        self.end_text(alloc)?;
        Ok(())
    }

    // Begins an element at the line of a place and a number.
    fn add_begin(
        &mut self,
        alloc: Global,
        place: usize,
        number: u32,
        name: &'a str,
        id: NameId,
    ) -> Result<(), NoMemory>
        requires { begin_fault (held self.old) name.now ≡ None }
        ensures { OnOk result (self.new ≡ after_begin self.old place number name.now id) }
    {
        self.end_waiting(alloc)?;
        self.opened.push(OpenElement { place, name })?;
        self.has_begun = true;
        self.begun = Some((id, number));
        self.nodes += 1;
        Ok(())
    }

    // Reads a line `(NAME`.
    fn begin(
        &mut self,
        alloc: Global,
        place: usize,
        number: u32,
        name: &'a str,
        names: &mut NameTable,
    ) -> Result<(), Stop>
        ensures none { OnOk result (begin_fault (held self.old) name.now ≡ None) }
        ensures read { OnOk result ((table : List NameParts) → Grows names.new table → self.new ≡ after_begin self.old place number name.now (id_of table (element_name self.old.spaces name.now))) }
        ensures names { OnOk result (names.new ≡ with_name names.old (element_name self.old.spaces name.now)) }
        ensures broken { IfErr result (λ s. (rule : LineRule) → s ≡ stop.Broken rule → begin_fault (held self.old) name.now ≡ Some rule) }
        ensures grows { Grows names.old names.new }
    {
        if let Some(rule) = self.begin_rule(name) {
            return Err(Stop::Broken(rule));
        }
        let id = intern_element(alloc, name, self.spaces(), names)?;
        self.add_begin(alloc, place, number, name, id)?;
        Ok(())
    }

    // Adds the key of an attribute.
    fn add_key(&mut self, key: AttributeKey) -> Result<(), NoMemory>
        requires { has_key self.old key ≡ false }
        ensures { OnOk result (self.new ≡ record self.old { keys = self.old.keys ++ key ∷ [] }) }
    {
        self.keys.insert(key).map_err(NoMemory::from)?;
        Ok(())
    }

    // Adds an attribute, if it is one that declares no namespace, to those of the element that has begun.
    fn add_pair(
        &mut self,
        alloc: Global,
        name: &str,
        value: Chars,
        names: &mut NameTable,
    ) -> Result<(), NoMemory>
        ensures read { OnOk result ((table : List NameParts) → Grows names.new table → (written : List ℕ) → value ≡ meant written → self.new ≡ record self.old { pairs = self.old.pairs ++ pair_for table self.old.spaces name.now written }) }
        ensures names { OnOk result ((written : List ℕ) → names.new ≡ with_names names.old (names_by self.old.spaces (Some (tag.Attribute name.now written)))) }
        ensures grows { Grows names.old names.new }
    {
        if is_declaration(name) {
            return Ok(());
        }
        let name = intern_attribute(alloc, name, self.spaces(), names)?;
        self.pairs.push(AttrPair { name, value })?;
        Ok(())
    }

    // Reads a line `ANAME VALUE`.
    fn attribute(
        &mut self,
        alloc: Global,
        name: &str,
        value: &str,
        names: &mut NameTable,
    ) -> Result<(), Stop>
        ensures none { OnOk result (attribute_fault (held self.old) name.now value.now ≡ None) }
        ensures read { OnOk result ((table : List NameParts) → Grows names.new table → self.new ≡ after_attribute table self.old name.now value.now) }
        ensures names { OnOk result (names.new ≡ with_names names.old (names_by self.old.spaces (Some (tag.Attribute name.now value.now)))) }
        ensures broken { IfErr result (λ s. (rule : LineRule) → s ≡ stop.Broken rule → attribute_fault (held self.old) name.now value.now ≡ Some rule) }
        ensures grows { Grows names.old names.new }
    {
        let decoded = decode(alloc, value)?;
        let key = AttributeKey::from_name(alloc, name, self.spaces())?;
        if let Some(rule) = self.attribute_rule(name, value, &decoded, &key) {
            return Err(Stop::Broken(rule));
        }
        self.add_key(key)?;
        self.add_pair(alloc, name, decoded.meant, names)?;
        Ok(())
    }

    // How many nodes a text adds that goes on with the one that is waiting.
    fn text_nodes(&self, more: &Chars) -> usize
        ensures { result ≡ text_nodes self.now.text more.now }
    {
        if self.text.len() == 0 && !more.as_text().is_empty() {
            return 1;
        }
        0
    }

    // Adds a text to the one that is waiting.
    fn add_text(&mut self, alloc: Global, more: &Chars) -> Result<(), NoMemory>
        requires few { (begins self.old.text more.now && nat_le node_limit self.old.nodes) ≡ false }
        requires short { nat_lt text_limit (size_of self.old.text + size_of more.now) ≡ false }
        ensures { OnOk result (self.new ≡ with_text self.old more.now) }
    {
        let nodes = self.text_nodes(more);
        self.end_begun(alloc)?;
        self.text.push_text(more)?;
        self.nodes += nodes;
        Ok(())
    }

    // Reads a line `-TEXT`.
    fn text(&mut self, alloc: Global, text: &str) -> Result<(), Stop>
        ensures none { OnOk result (text_fault (held self.old) text.now ≡ None) }
        ensures read { OnOk result (self.new ≡ after_text self.old text.now) }
        ensures broken { IfErr result (λ s. (rule : LineRule) → s ≡ stop.Broken rule → text_fault (held self.old) text.now ≡ Some rule) }
    {
        let decoded = decode(alloc, text)?;
        if let Some(rule) = self.text_rule(text, &decoded) {
            return Err(Stop::Broken(rule));
        }
        self.add_text(alloc, &decoded.meant)?;
        Ok(())
    }

    // Adds a comment, behind all that was waiting.
    fn add_comment(&mut self, alloc: Global, comment: Chars) -> Result<(), NoMemory>
        requires { self.old.nodes < node_limit }
        ensures { OnOk result ((text : List ℕ) → comment ≡ meant text → self.new ≡ after_comment self.old text) }
    {
        self.end_waiting(alloc)?;
        self.items.push(TreeItem::Comment(comment))?;
        self.nodes += 1;
        Ok(())
    }

    // Reads a line `CTEXT`.
    fn comment(&mut self, alloc: Global, text: &str) -> Result<(), Stop>
        ensures none { OnOk result (comment_fault (held self.old) text.now ≡ None) }
        ensures read { OnOk result (self.new ≡ after_comment self.old text.now) }
        ensures broken { IfErr result (λ s. (rule : LineRule) → s ≡ stop.Broken rule → comment_fault (held self.old) text.now ≡ Some rule) }
    {
        let decoded = decode(alloc, text)?;
        if let Some(rule) = self.comment_rule(text, decoded.is_right) {
            return Err(Stop::Broken(rule));
        }
        self.add_comment(alloc, decoded.meant)?;
        Ok(())
    }

    // Reads a line `)NAME`.
    fn finish(&mut self, alloc: Global, name: &str) -> Result<(), Stop>
        ensures none { OnOk result (finish_fault (held self.old) name.now ≡ None) }
        ensures read { OnOk result (self.new ≡ after_finish self.old) }
        ensures broken { IfErr result (λ s. (rule : LineRule) → s ≡ stop.Broken rule → finish_fault (held self.old) name.now ≡ Some rule) }
    {
        if let Some(rule) = self.finish_rule(name) {
            return Err(Stop::Broken(rule));
        }
        self.end_waiting(alloc)?;
        self.opened.pop();
        self.items.push(TreeItem::Finish)?;
        Ok(())
    }

    // Reads what a line says.
    fn read(
        &mut self,
        alloc: Global,
        place: usize,
        number: u32,
        tag: LineTag<'a>,
        names: &mut NameTable,
    ) -> Result<(), Stop>
        ensures none { OnOk result (tag_fault (held self.old) (said tag.entry) ≡ None) }
        ensures read { OnOk result ((table : List NameParts) → Grows names.new table → self.new ≡ after table place number self.old (Some (said tag.entry))) }
        ensures names { OnOk result (names.new ≡ with_names names.old (names_by self.old.spaces (Some (said tag.entry)))) }
        ensures broken { IfErr result (λ s. (rule : LineRule) → s ≡ stop.Broken rule → tag_fault (held self.old) (said tag.entry) ≡ Some rule) }
        ensures grows { Grows names.old names.new }
    {
        match tag {
            LineTag::Begin(name) => {
                self.begin(alloc, place, number, name, names)?;
                Ok(())
            }
            LineTag::Attribute(name, value) => {
                self.attribute(alloc, name, value, names)?;
                Ok(())
            }
            LineTag::Text(text) => {
                self.text(alloc, text)?;
                Ok(())
            }
            LineTag::Comment(text) => {
                self.comment(alloc, text)?;
                Ok(())
            }
            LineTag::Finish(name) => {
                self.finish(alloc, name)?;
                Ok(())
            }
        }
    }

    // Reads the line of a place, from 0.
    pub(crate) fn next_line(
        &mut self,
        alloc: Global,
        place: usize,
        line: &'a Line,
        names: &mut NameTable,
    ) -> Result<(), Stop>
        ensures none { OnOk result (line_fault (held self.old) line.now.bytes ≡ None) }
        ensures read { OnOk result ((table : List NameParts) → Grows names.new table → self.new ≡ after table place line.now.number self.old (tag_of line.now.bytes)) }
        ensures names { OnOk result (names.new ≡ with_names names.old (names_by self.old.spaces (tag_of line.now.bytes))) }
        ensures broken { IfErr result (λ s. (rule : LineRule) → s ≡ stop.Broken rule → line_fault (held self.old) line.now.bytes ≡ Some rule) }
        ensures grows { Grows names.old names.new }
    {
        let Some(text) = line_text(line.bytes.as_slice()) else {
            return Err(Stop::Broken(LineRule::BadLine));
        };
        let Some(tag) = tag_of(text) else {
            return Err(Stop::Broken(LineRule::BadLine));
        };
        self.read(alloc, place, line.number, tag, names)?;
        Ok(())
    }

    // The place of the line and the rule that the lines break by ending here, behind `count` lines.
    pub(crate) fn end_fault(&self, count: usize) -> Option<(usize, LineRule)>
        ensures { result ≡ end_fault (held self.now) count }
    {
        match self.opened.as_slice().last() {
            Some(innermost) => Some((innermost.place, LineRule::Unclosed)),
            None if self.has_begun => None,
            None => Some((count, LineRule::NoElement)),
        }
    }

    // The items of all lines.
    pub(crate) fn into_items(mut self, alloc: Global) -> Result<Items<TreeItem>, NoMemory>
        ensures { IfOk result (λ items. items ≡ shown self.entry [] []) }
    {
        self.end_waiting(alloc)?;
        let Reader { items, .. } = self;
        Ok(items)
    }
}
