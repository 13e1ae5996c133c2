ghost use Rattle.std.specs.Prelude.{◌≡◌, ℕ, ◌++◌, ◌∷◌, [], List, map, IfOk, OnOk, encode_utf8_all};
ghost use Rattle.std.specs.Str.{chars};
ghost use Rattle.std.specs.String.{string_bytes};
ghost use Rattle.serna_kinds.specs.Names.{space};
ghost use Rattle.tree_lines.specs.declared.tree.TreeItem.{TreeItem};
ghost use Rattle.tree_lines.specs.Given.{Given, items_of};
ghost use Rattle.tree_lines.specs.Canonical.{qualified, spelling_of, escape_of, escaped, text_line, comment_line, attribute_line, declaration_line, begin_lines, outermost_lines, end_line, line_text, text_of_lines, canonical_text};
ghost use Rattle.tree_lines.specs.Writing.{Writing, written_with};

use crate::{Tree, TreeItem};
use serna_kinds::{AttrPair, Chars, Items, NameId, NameTable, NoMemory, Spaces};
use std::alloc::Global;
use std::marker::Model;

const LINE_END: &str = "\n";

// Adds a character as it is written: a backslash, LF and a tab by their escapes.
fn push_escape(out: &mut String, c: char) -> Result<(), NoMemory>
    ensures { OnOk result (string_bytes out.new ≡ string_bytes out.old ++ encode_utf8_all (escape_of c)) }
{
    match c {
        '\\' => out.push_str("\\\\")?,
        '\n' => out.push_str("\\n")?,
        '\t' => out.push_str("\\t")?,
        _ => out.push(c)?,
    }
    Ok(())
}

fn push_escaped(out: &mut String, text: &str) -> Result<(), NoMemory>
    ensures { OnOk result (string_bytes out.new ≡ string_bytes out.old ++ encode_utf8_all (escaped (chars text.now))) }
{
    for c in text.chars() {
        push_escape(out, c)?;
    }
    Ok(())
}

// Adds a name as it is written, and nothing for a number that the table does not have.
fn push_name(out: &mut String, id: NameId, names: &NameTable) -> Result<(), NoMemory>
    ensures { OnOk result (string_bytes out.new ≡ string_bytes out.old ++ spelling_of names.now id) }
{
    let Some(name) = names.name(id) else {
        return Ok(());
    };
    push_qualified(out, name.prefix, name.local)
}

fn push_qualified(out: &mut String, prefix: &str, local: &str) -> Result<(), NoMemory>
    ensures { OnOk result (string_bytes out.new ≡ string_bytes out.old ++ qualified prefix.now local.now) }
{
    if !prefix.is_empty() {
        out.push_str(prefix)?;
        out.push_str(":")?;
    }
    out.push_str(local)?;
    Ok(())
}

// Adds a line of a mark and a name.
fn push_name_line(
    out: &mut String,
    mark: &str,
    id: NameId,
    names: &NameTable,
) -> Result<(), NoMemory>
    ensures { OnOk result (string_bytes out.new ≡ string_bytes out.old ++ line_text (mark.now ++ spelling_of names.now id)) }
{
    out.push_str(mark)?;
    push_name(out, id, names)?;
    out.push_str(LINE_END)?;
    Ok(())
}

// Adds a line of a mark and a text.
fn push_text_line(out: &mut String, mark: &str, text: &Chars) -> Result<(), NoMemory>
    ensures { OnOk result (string_bytes out.new ≡ string_bytes out.old ++ line_text (mark.now ++ encode_utf8_all (escaped text.now))) }
{
    out.push_str(mark)?;
    push_escaped(out, text.as_text())?;
    out.push_str(LINE_END)?;
    Ok(())
}

// Adds the lines of declarations, in their order.
fn push_declarations(out: &mut String, spaces: &Spaces) -> Result<(), NoMemory>
    ensures { OnOk result (string_bytes out.new ≡ string_bytes out.old ++ text_of_lines (map declaration_line spaces.now)) }
{
    for place in 0..spaces.len() {
        if let Some((prefix, uri)) = spaces.declaration(place) {
            push_declaration(out, prefix, uri)?;
        }
    }
    Ok(())
}

fn push_declaration(out: &mut String, prefix: &str, uri: &str) -> Result<(), NoMemory>
    ensures { OnOk result (string_bytes out.new ≡ string_bytes out.old ++ line_text (declaration_line (space prefix.now uri.now))) }
{
    out.push_str("Axmlns")?;
    if !prefix.is_empty() {
        out.push_str(":")?;
        out.push_str(prefix)?;
    }
    out.push_str(" ")?;
    push_escaped(out, uri)?;
    out.push_str(LINE_END)?;
    Ok(())
}

fn push_attribute(out: &mut String, pair: &AttrPair, names: &NameTable) -> Result<(), NoMemory>
    ensures { OnOk result (string_bytes out.new ≡ string_bytes out.old ++ line_text (attribute_line names.now pair.now)) }
{
    out.push_str("A")?;
    push_name(out, pair.name, names)?;
    push_text_line(out, " ", &pair.value)?;
    Ok(())
}

fn push_attributes(
    out: &mut String,
    attributes: &[AttrPair],
    names: &NameTable,
) -> Result<(), NoMemory>
    ensures { OnOk result (string_bytes out.new ≡ string_bytes out.old ++ text_of_lines (map (attribute_line names.now) attributes.now)) }
{
    for pair in attributes {
        push_attribute(out, pair, names)?;
    }
    Ok(())
}

/// Writes the canonical text of a tree, line by line, as its parts are given in document order.
///
/// Contracts see the bytes of the text so far. After an error the text may end within a line.
#[derive(Debug, Drop)]
pub struct TreeWriter {
    text: String,
}

impl Model for TreeWriter {
    ghost use Rattle.std.specs.Prelude.{ℕ, List};
    ghost use Rattle.std.specs.String.{string_bytes};

    ghost Value = { List ℕ };

    ghost view = { λ w. string_bytes w.text };
}

impl TreeWriter {
    /// A writer that has written nothing. Takes no memory.
    pub fn new(alloc: Global) -> TreeWriter
        ensures { result ≡ [] }
    {
        TreeWriter {
            text: String::new(alloc),
        }
    }

    /// Begins an element: writes its name and its attributes.
    pub fn begin(
        &mut self,
        name: NameId,
        attributes: &[AttrPair],
        names: &NameTable,
    ) -> Result<(), NoMemory>
        ensures { OnOk result (self.new ≡ self.old ++ text_of_lines (begin_lines names.now name attributes.now)) }
    {
        push_name_line(&mut self.text, "(", name, names)?;
        push_attributes(&mut self.text, attributes, names)?;
        Ok(())
    }

    /// Begins the outermost element: writes its name, what the document declares, and its attributes.
    pub fn begin_outermost(
        &mut self,
        name: NameId,
        attributes: &[AttrPair],
        names: &NameTable,
        spaces: &Spaces,
    ) -> Result<(), NoMemory>
        ensures { OnOk result (self.new ≡ self.old ++ text_of_lines (outermost_lines names.now spaces.now name attributes.now)) }
    {
        push_name_line(&mut self.text, "(", name, names)?;
        push_declarations(&mut self.text, spaces)?;
        push_attributes(&mut self.text, attributes, names)?;
        Ok(())
    }

    /// Writes a text.
    pub fn text(&mut self, text: &Chars) -> Result<(), NoMemory>
        ensures { OnOk result (self.new ≡ self.old ++ line_text (text_line text.now)) }
    {
        push_text_line(&mut self.text, "-", text)?;
        Ok(())
    }

    /// Writes a comment.
    pub fn comment(&mut self, text: &Chars) -> Result<(), NoMemory>
        ensures { OnOk result (self.new ≡ self.old ++ line_text (comment_line text.now)) }
    {
        push_text_line(&mut self.text, "C", text)?;
        Ok(())
    }

    /// Ends an element of this name.
    pub fn end(&mut self, name: NameId, names: &NameTable) -> Result<(), NoMemory>
        ensures { OnOk result (self.new ≡ self.old ++ line_text (end_line names.now name)) }
    {
        push_name_line(&mut self.text, ")", name, names)?;
        Ok(())
    }

    /// The text that was written, by its characters. Takes no memory for the text itself.
    pub fn into_chars(self) -> Result<Chars, NoMemory>
        // Its UTF-8 is what was written.
        ensures bytes { IfOk result (λ text. encode_utf8_all text ≡ self) }
        ensures characters { IfOk result (λ text. text ≡ chars self) }
    {
        Chars::from_string(self.text)
    }
}

// A tree that is being written: the writer, what the next element is to declare, and the names of the open elements, the
// outermost first.
#[derive(Drop)]
struct TreeWalk<'a> {
    writer: TreeWriter,
    undeclared: Option<&'a Spaces>,
    outer: Items<NameId>,
}

impl<'a> Model for TreeWalk<'a> {
    ghost use Rattle.std.specs.Prelude.{reverse, Some, None, []};
    ghost use Rattle.tree_lines.specs.Writing.{Writing};

    ghost Value = { Writing };

    ghost view = { λ w. record { text = w.writer; spaces = elim w.undeclared [ None ↦ [] | Some spaces ↦ spaces.now ]; open_names = reverse w.outer } };
}

impl<'a> TreeWalk<'a> {
    fn new(alloc: Global, spaces: &'a Spaces) -> TreeWalk<'a>
        ensures { result ≡ record { text = []; spaces = spaces.now; open_names = [] } }
    {
        TreeWalk {
            writer: TreeWriter::new(alloc),
            undeclared: Some(spaces),
            outer: Items::new(alloc),
        }
    }

    // Writes an element's beginning; the first one declares the namespaces.
    fn begin(
        &mut self,
        name: NameId,
        attributes: &[AttrPair],
        names: &NameTable,
    ) -> Result<(), NoMemory>
        ensures { OnOk result ((rest : List TreeItem) (line : ℕ) → written_with names.now self.new rest ≡ written_with names.now self.old (TreeItem.Begin name attributes.now line ∷ rest)) }
    {
        match self.undeclared.take() {
            Some(spaces) => self
                .writer
                .begin_outermost(name, attributes, names, spaces)?,
            None => self.writer.begin(name, attributes, names)?,
        }
        self.outer.push(name)?;
        Ok(())
    }

    // Writes an item.
    fn step(&mut self, item: &TreeItem, names: &NameTable) -> Result<(), NoMemory>
        ensures { OnOk result ((rest : List TreeItem) → written_with names.now self.new rest ≡ written_with names.now self.old (item.now ∷ rest)) }
    {
        match item {
            TreeItem::Begin(name, attributes, _) => {
                self.begin(*name, attributes.as_slice(), names)?;
                Ok(())
            }
            TreeItem::Text(text) => {
                self.writer.text(text)?;
                Ok(())
            }
            TreeItem::Comment(text) => {
                self.writer.comment(text)?;
                Ok(())
            }
            TreeItem::Finish => {
                if let Some(name) = self.outer.pop() {
                    self.writer.end(name, names)?;
                }
                Ok(())
            }
        }
    }

    fn into_chars(self) -> Result<Chars, NoMemory>
        ensures { IfOk result (λ text. encode_utf8_all text ≡ self.entry.text) }
    {
        let TreeWalk { writer, .. } = self;
        writer.into_chars()
    }
}

/// Writes the canonical text of a tree that was read, whose elements and attributes have their names in the table.
pub fn write_tree(alloc: Global, tree: &Tree, names: &NameTable) -> Result<Chars, NoMemory>
    // In UTF-8 it is the canonical text of the tree that the items are, with what it declares.
    ensures text { IfOk result (λ text. (given : Given) → tree.now.items ≡ items_of given → encode_utf8_all text ≡ canonical_text names.now tree.now.spaces given) }
{
    let mut walk = TreeWalk::new(alloc, tree.spaces());
    for item in tree.items() {
        walk.step(item, names)?;
    }
    walk.into_chars()
}
