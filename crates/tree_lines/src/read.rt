ghost use Rattle.std.specs.Prelude.{◌≡◌, ℕ, List, Some, None, map, length, IfOk, IfErr, OnOk, MatchResult};
ghost use Rattle.serna_kinds.specs.Names.{NameParts, Space, Grows};
ghost use Rattle.tree_lines.specs.declared.rules.LineRule.{LineRule};
ghost use Rattle.tree_lines.specs.declared.rules.LineFault.TheVariants as line_fault;
ghost use Rattle.tree_lines.specs.declared.tree.TreeItem.{TreeItem};
ghost use Rattle.tree_lines.specs.Written.{Written, written_lines};
ghost use Rattle.tree_lines.specs.Documents.{IsDocument};
ghost use Rattle.tree_lines.specs.Declarations.{spaces_in};
ghost use Rattle.tree_lines.specs.Tags.{tag_of};
ghost use Rattle.tree_lines.specs.Given.{items_of, given_of, numbers_of};
ghost use Rattle.tree_lines.specs.Faults.{line_fault, number_at, bytes_of, first_fault};
ghost use Rattle.tree_lines.specs.Reading.{held, after, IsReading};
ghost use Rattle.tree_lines.specs.Tokens.{names_by, with_names, items_in, names_with, AreNamed};

use crate::declarations::read_spaces;
use crate::reader::{Reader, Stop};
use crate::{Line, LineFault, Tree, TreeItem};
use serna_kinds::{Items, NameTable, Spaces};
use std::alloc::Global;

// The number of the line at a place; 0 past the last one.
fn number_at(lines: &[Line], place: usize) -> u32
    ensures { result ≡ number_at lines.now place }
{
    match lines.get(place) {
        Some(line) => line.number,
        None => 0,
    }
}

// Reads the line of a place, from 0. A refusal names its number.
fn read_line<'a>(
    alloc: Global,
    place: usize,
    line: &'a Line,
    reader: &mut Reader<'a>,
    names: &mut NameTable,
) -> Result<(), LineFault>
    ensures none { OnOk result (line_fault (held reader.old) line.now.bytes ≡ None) }
    ensures read { OnOk result ((table : List NameParts) → Grows names.new table → reader.new ≡ after table place line.now.number reader.old (tag_of line.now.bytes)) }
    ensures names { OnOk result (names.new ≡ with_names names.old (names_by reader.old.spaces (tag_of line.now.bytes))) }
    ensures refused { IfErr result (λ fault. (number : ℕ) (rule : LineRule) → fault ≡ line_fault.Refused number rule → (line.now.number ≡ number) × (line_fault (held reader.old) line.now.bytes ≡ Some rule)) }
    ensures grows { Grows names.old names.new }
{
    match reader.next_line(alloc, place, line, names) {
        Ok(()) => Ok(()),
        Err(Stop::Broken(rule)) => Err(LineFault::Refused(line.number, rule)),
        Err(Stop::NoMemory) => Err(LineFault::NoMemory),
    }
}

// Reads the lines up to their end, or to the first fault.
fn read_lines<'a>(
    alloc: Global,
    lines: &'a [Line],
    spaces: &'a Spaces,
    names: &mut NameTable,
) -> Result<Reader<'a>, LineFault>
    requires { spaces.now ≡ spaces_in (bytes_of lines.now) }
    ensures read { IfOk result (λ reader. IsReading spaces.now lines.now (length lines.now) reader names.old names.new) }
    ensures refused { IfErr result (λ fault. (number : ℕ) (rule : LineRule) → fault ≡ line_fault.Refused number rule → first_fault lines.now ≡ Some (number, rule)) }
    ensures grows { Grows names.old names.new }
{
    let mut reader = Reader::new(alloc, spaces);
    for (place, line) in lines.iter().enumerate() {
        read_line(alloc, place, line, &mut reader, names)?;
    }
    Ok(reader)
}

// The items of lines that declare these namespaces.
fn read_items(
    alloc: Global,
    lines: &[Line],
    spaces: &Spaces,
    names: &mut NameTable,
) -> Result<Items<TreeItem>, LineFault>
    requires { spaces.now ≡ spaces_in (bytes_of lines.now) }
    ensures faultless { OnOk result (first_fault lines.now ≡ None) }
    ensures items { IfOk result (λ items. (table : List NameParts) → Grows names.new table → items ≡ items_in table spaces.now lines.now) }
    ensures refused { IfErr result (λ fault. (number : ℕ) (rule : LineRule) → fault ≡ line_fault.Refused number rule → first_fault lines.now ≡ Some (number, rule)) }
    ensures table { OnOk result (names.new ≡ names_with names.old (bytes_of lines.now)) }
    ensures grows { Grows names.old names.new }
{
    let reader = read_lines(alloc, lines, spaces, names)?;
    if let Some((place, rule)) = reader.end_fault(lines.len()) {
        return Err(LineFault::Refused(number_at(lines, place), rule));
    }
    let items = reader.into_items(alloc)?;
    Ok(items)
}

/// Reads a document from its lines, interning the names of its elements and attributes.
///
/// `Err(Refused)` names the first rule that the lines break and the number of the line that breaks it; `Err(NoMemory)` comes
/// where memory runs out. After an error the table may have got names of these lines, and has lost none.
pub fn read_tree(alloc: Global, lines: &[Line], names: &mut NameTable) -> Result<Tree, LineFault>
    // What is read has no fault, and is a document.
    ensures faultless { OnOk result (first_fault lines.now ≡ None) }
    ensures document { OnOk result ((document : Written) × IsDocument document × (bytes_of lines.now ≡ written_lines document)) }

    // The items are those that the lines say one by one, with neighbouring texts joined, in this table and in each that grows from it.
    ensures items { IfOk result (λ tree. (table : List NameParts) → Grows names.new table → tree.items ≡ items_in table (spaces_in (bytes_of lines.now)) lines.now) }

    // They are the items of the document's tree, with the numbers of its lines.
    ensures given { IfOk result (λ tree. (table : List NameParts) → Grows names.new table → (document : Written) → IsDocument document → bytes_of lines.now ≡ written_lines document → tree.items ≡ items_of (given_of table (numbers_of lines.now) document)) }

    // The namespaces are those that the outermost element declares.
    ensures spaces { IfOk result (λ tree. tree.spaces ≡ spaces_in (bytes_of lines.now)) }

    // The names of elements and attributes are the table's, and those of an element's attributes are apart.
    ensures named { IfOk result (λ tree. (table : List NameParts) → Grows names.new table → AreNamed table tree.items) }

    // A refusal names the first fault.
    ensures refused { IfErr result (λ fault. (number : ℕ) (rule : LineRule) → fault ≡ line_fault.Refused number rule → first_fault lines.now ≡ Some (number, rule)) }

    // No document is refused, unless memory runs out.
    ensures only { (document : Written) → IsDocument document → bytes_of lines.now ≡ written_lines document → MatchResult result (λ _. Unit {0}) (λ fault. fault ≡ line_fault.NoMemory) }

    // The table gets the names of the lines, in their order: one that is there adds nothing, another goes last.
    ensures table { OnOk result (names.new ≡ names_with names.old (bytes_of lines.now)) }

    // The table grows at most, also where nothing is read.
    ensures grows { Grows names.old names.new }
{
    let spaces = read_spaces(alloc, lines)?;
    let items = read_items(alloc, lines, &spaces, names)?;
    Ok(Tree::from_parts(items, spaces))
}
