//! The namespaces that a document declares, read before its other lines.
ghost use Rattle.std.specs.Prelude.{◌≡◌, ◌++◌, true, IfOk, OnOk};
ghost use Rattle.std.specs.List.{take_while};
ghost use Rattle.tree_lines.specs.Declarations.{begins_with, outermost_attributes, declared, declared_behind, declared_by, spaces_in};
ghost use Rattle.tree_lines.specs.Faults.{bytes_of};

use crate::Line;
use crate::tags::{declared_prefix, is_declaration};
use crate::texts::decode;
use serna_kinds::{NoMemory, Spaces, parted};
use std::alloc::Global;
use std::str;

fn begins_with(mark: u8, line: &Line) -> bool
    ensures { result ≡ begins_with mark line.now.bytes }
{
    match line.bytes.as_slice().first() {
        Some(first) => *first == mark,
        None => false,
    }
}

// The lines behind the first one that begins an element.
fn behind_begin(lines: &[Line]) -> &[Line]
    ensures { outermost_attributes (bytes_of lines.now) ≡ take_while (begins_with 65) (bytes_of result.now) }
{
    let mut rest = lines;
    while let Some((line, behind)) = rest.split_first() {
        if begins_with(b'(', line) {
            return behind;
        }
        rest = behind;
    }
    rest
}

// Adds what an attribute declares, if it declares a namespace.
fn declare(alloc: Global, name: &str, value: &str, spaces: &mut Spaces) -> Result<(), NoMemory>
    ensures { OnOk result (spaces.new ≡ spaces.old ++ declared name.now value.now) }
{
    if !is_declaration(name) {
        return Ok(());
    }
    let uri = decode(alloc, value)?.meant;
    spaces.declare(alloc, declared_prefix(name), uri.as_text())?;
    Ok(())
}

// Adds what an attribute's line declares, behind its first character; without a space it is a name alone.
fn declare_behind(alloc: Global, rest: &str, spaces: &mut Spaces) -> Result<(), NoMemory>
    ensures { OnOk result (spaces.new ≡ spaces.old ++ declared_behind rest.now) }
{
    match parted(' ', rest) {
        Some((name, value)) => declare(alloc, name, value, spaces),
        None => declare(alloc, rest, "", spaces),
    }
}

// Adds what an attribute's line declares: nothing where it is not UTF-8.
fn declare_line(alloc: Global, line: &Line, spaces: &mut Spaces) -> Result<(), NoMemory>
    requires { begins_with 65 line.now.bytes ≡ true }
    ensures { OnOk result (spaces.new ≡ spaces.old ++ declared_by line.now.bytes) }
{
    let Ok(text) = str::from_utf8(line.bytes.as_slice()) else {
        return Ok(());
    };
    match text.split_at_checked(1) {
        Some((_, rest)) => declare_behind(alloc, rest, spaces),
        None => Ok(()),
    }
}

// What the lines of a document declare, in their order.
pub(crate) fn read_spaces(alloc: Global, lines: &[Line]) -> Result<Spaces, NoMemory>
    ensures { IfOk result (λ spaces. spaces ≡ spaces_in (bytes_of lines.now)) }
{
    let mut spaces = Spaces::new(alloc);
    for line in behind_begin(lines) {
        if !begins_with(b'A', line) {
            return Ok(spaces);
        }
        declare_line(alloc, line, &mut spaces)?;
    }
    Ok(spaces)
}
