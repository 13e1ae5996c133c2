//! Stylesheets, compiled from the trees of their modules.
ghost use Rattle.std.specs.Prelude.{◌≡◌, ◌<◌, ◌^◌, true, List, length, IfOk, OnOk, Err, Some, None};
ghost use Rattle.std.specs.Option.{option_map};
ghost use Rattle.tree_lines.specs.Given.{Given, items_of};
ghost use Rattle.tree_lines.specs.Tokens.{AreNamed, with_names};
ghost use Rattle.style_sheet.specs.Styles.{style_of, matched_names};
ghost use Rattle.style_sheet.specs.Built.{is_built};
ghost use Rattle.style_sheet.specs.Sheet.{IsNamedBy};
ghost use Rattle.style_sheet.specs.Steps.{no_reading, progress, outcome, run};
ghost use Rattle.serna_kinds.specs.Names.{NameParts, Grows};
ghost use Rattle.style_sheet.specs.Modules.{AreNamedModules, AreBuilt, IsStyle, HasMatched};

use crate::reader::Reader;
use crate::{Body, Rule, Style};
use serna_kinds::{Chars, Items, NameTable, NoMemory, Spaces};
use std::alloc::Global;
use tree_lines::{Tree, TreeItem};

/// A stylesheet module by its name, with the tree that was read of it.
#[derive(Debug, Drop)]
pub struct Module {
    pub name: Chars,
    pub tree: Tree,
}

/// Why modules were not compiled: they are not of the built form, or memory ran out.
#[derive(Clone, Copy, Debug, PartialEq, Eq)]
pub enum StyleFault {
    NotBuilt,
    NoMemory,
}

impl From<NoMemory> for StyleFault {
    ghost use Rattle.style_sheet.specs.declared.reading.StyleFault.TheVariants.{NoMemory};

    ghost from_gives = { λ _ e. e ≡ NoMemory };

    fn from(_e: NoMemory) -> StyleFault {
        StyleFault::NoMemory
    }
}

/// A stylesheet, from its modules, whose names are the table's; it gets the names that rules are for. Without a
/// module there are no rules.
///
/// The built form (XSLT 1.0): one module, whose outermost element is `xsl:stylesheet` or `xsl:transform` with `version` alone;
/// in it `xsl:template` with `match` alone, which is `/` or an element's name; in their bodies text, `xsl:text`,
/// `xsl:apply-templates` without attributes, and elements of the result whose attributes have no brace. `Err(NotBuilt)` comes
/// for any other, and `Err(NoMemory)` where memory runs out.
pub fn compile(
    alloc: Global,
    modules: &[Module],
    names: &mut NameTable,
) -> Result<Style, StyleFault>
    requires named { AreNamedModules names.old modules.now }
    // What is compiled is of the built form, and it is what the tree says, in this table and in each that grows from it.
    ensures built { OnOk result (AreBuilt names.old modules.now) }
    ensures style { IfOk result (λ style. (table : List NameParts) → Grows names.new table → IsStyle table modules.now style) }

    // The names that its rules are for are the table's.
    ensures names { IfOk result (λ style. IsNamedBy names.new style) }

    // Nothing that is of the built form is refused, unless memory runs out.
    ensures refused { result ≡ Err StyleFault.NotBuilt → AreBuilt names.old modules.now → ⊥ }

    // The table gets the names that rules are for, in the order of the rules.
    ensures table { OnOk result (HasMatched names.old modules.now names.new) }

    // The table grows at most, also where nothing is compiled.
    ensures grows { Grows names.old names.new }
{
    match modules {
        [] => Ok(Style::new(alloc)),
        [module] => style_of(alloc, &module.tree, names),
        _ => Err(StyleFault::NotBuilt),
    }
}

// The rules of the one module.
fn style_of(alloc: Global, tree: &Tree, names: &mut NameTable) -> Result<Style, StyleFault>
    requires named { AreNamed names.old tree.now.items }
    ensures built { OnOk result ((given : Given) → tree.now.items ≡ items_of given → is_built names.old tree.now.spaces given ≡ true) }
    ensures style { IfOk result (λ style. (table : List NameParts) → Grows names.new table → (given : Given) → tree.now.items ≡ items_of given → style ≡ style_of table tree.now.spaces given) }
    ensures names { IfOk result (λ style. IsNamedBy names.new style) }
    ensures refused { result ≡ Err StyleFault.NotBuilt → ((given : Given) → tree.now.items ≡ items_of given → is_built names.old tree.now.spaces given ≡ true) → ⊥ }
    ensures table { OnOk result ((given : Given) → tree.now.items ≡ items_of given → names.new ≡ with_names names.old (matched_names tree.now.spaces given)) }
    ensures grows { Grows names.old names.new }
{
    let (rules, bodies) = read_items(alloc, tree.items(), tree.spaces(), names)?;
    Ok(Style::from_parts(alloc, rules, bodies)?)
}

// The rules that items say, and their bodies, one after another.
fn read_items(
    alloc: Global,
    items: &[TreeItem],
    spaces: &Spaces,
    names: &mut NameTable,
) -> Result<(Items<Rule>, Items<Body>), StyleFault>
    requires named { AreNamed names.old items.now }
    requires few { length items.now < 2 ^ 32 }
    ensures done { IfOk result (λ parts. (table : List NameParts) → Grows names.new table → option_map outcome (run table spaces.now (progress no_reading names.old) items.now) ≡ Some (record { rules = parts.0; bodies = parts.1 }, names.new)) }
    ensures refused { result ≡ Err StyleFault.NotBuilt → (table : List NameParts) → Grows names.new table → run table spaces.now (progress no_reading names.old) items.now ≡ None }
    ensures grows { Grows names.old names.new }
{
    let mut reader = Reader::new(alloc);
    for item in items {
        reader.read(alloc, item, spaces, names)?;
    }
    Ok(reader.into_parts())
}
