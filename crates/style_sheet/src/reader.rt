//! A stylesheet read item by item.
ghost use Rattle.std.specs.Prelude.{◌≡◌, ◌^◌, ◌<◌, List, Some, None, Err, IsSome, IfOk, OnOk, true, false, length, map, slice_get, pos, [], ◌∷◌, if◌then◌else◌};
ghost use Rattle.serna_kinds.specs.Names.{NameParts, Grows};
ghost use Rattle.serna_kinds.specs.Apart.{AreApart};
ghost use Rattle.serna_kinds.specs.Blanks.{is_blank};
ghost use Rattle.tree_lines.specs.Tokens.{IsNamed};
ghost use Rattle.style_sheet.specs.Styles.{text_in, priority_of, rule_at};
ghost use Rattle.style_sheet.specs.Built.{has_none, is_sheet};
ghost use Rattle.style_sheet.specs.Bodies.{body_of};
ghost use Rattle.style_sheet.specs.Instructions as instruction;
ghost use Rattle.style_sheet.specs.Steps.{no_reading, saying, opening, closing, within, out, at_place, with_rule, after_text, after_literal, after_inner, after_template, begin_at, finish_at, after, progress};

use crate::names::{is_instruction, is_literal, is_sheet, keeps, template_pattern};
use crate::texts::is_blank;
use crate::{Body, Instruction, Pattern, Rule, StyleFault};
use serna_kinds::{AttrPair, Chars, Items, NameId, NameTable, NoMemory, Spaces};
use std::alloc::Global;
use std::marker::Model;
use std::mem;
use tree_lines::TreeItem;

// Where in a stylesheet an item stands: before the outermost element, directly in it, in a template, in an element of the
// result (by whether white space is kept there), in `xsl:text`, in `xsl:apply-templates`, or behind the outermost element.
#[derive(Clone, Copy)]
pub(crate) enum Place {
    Before,
    Sheet,
    Template(Pattern),
    Literal(bool),
    Verbatim,
    Apply,
    Behind,
}

// An element of the result that has not ended: its name, its attributes, and the body in which it stands, up to it.
#[derive(Drop)]
pub(crate) struct Opened {
    name: NameId,
    attributes: Items<AttrPair>,
    before: Body,
}

// What is read so far. `around` has the places around the present one, the outermost first, and `opened` the elements of the
// result among them; an item of a template adds to `body`, and the template's end makes a rule of it.
#[derive(Drop)]
pub(crate) struct Reader {
    here: Place,
    around: Items<Place>,
    opened: Items<Opened>,
    body: Body,
    rules: Items<Rule>,
    bodies: Items<Body>,
}

impl Model for Reader {
    ghost use Rattle.std.specs.Prelude.{map, reverse};
    ghost use Rattle.std.specs.Coded.{codes};
    ghost use Rattle.style_sheet.specs.Codes.{body_code};
    ghost use Rattle.style_sheet.specs.Openings.{opened_by};
    ghost use Rattle.style_sheet.specs.Steps.{Reading};

    ghost Value = { Reading };

    ghost coded = { Prim.hlevel (codes, body_code (Prim.hlevel codes)) };

    ghost view = { λ r. record { here = r.here; around = reverse r.around; opened = map opened_by (reverse r.opened); body = r.body; rules = r.rules; bodies = r.bodies } };
}

// The priority of a pattern in hundredths (XSLT 1.0, section 5.5).
fn priority(pattern: Pattern) -> i32
    ensures { result ≡ pos (priority_of pattern) }
{
    match pattern {
        Pattern::Root => 50,
        Pattern::Named(_) => 0,
    }
}

// Reads a text where only white space may stand, which says nothing.
fn only_blank(text: &Chars) -> Result<(), StyleFault>
    ensures done { OnOk result (is_blank text.now ≡ true) }
    ensures refused { result ≡ Err StyleFault.NotBuilt → is_blank text.now ≡ false }
{
    if is_blank(text) {
        Ok(())
    } else {
        Err(StyleFault::NotBuilt)
    }
}

// Attributes in memory of their own.
fn copy_attributes(alloc: Global, attributes: &[AttrPair]) -> Result<Items<AttrPair>, NoMemory>
    ensures { IfOk result (λ same. same ≡ attributes.now) }
{
    let mut same = Items::new(alloc);
    for pair in attributes {
        let value = pair.value.copy()?;
        same.push(AttrPair {
            name: pair.name,
            value,
        })?;
    }
    Ok(same)
}

impl Reader {
    // Nothing is read yet. Takes no memory.
    pub(crate) fn new(alloc: Global) -> Reader
        ensures { result ≡ no_reading }
    {
        Reader {
            here: Place::Before,
            around: Items::new(alloc),
            opened: Items::new(alloc),
            body: Body::new(alloc),
            rules: Items::new(alloc),
            bodies: Items::new(alloc),
        }
    }

    // The rules that were read, and their bodies.
    pub(crate) fn into_parts(self) -> (Items<Rule>, Items<Body>)
        ensures { result ≡ (self.rules, self.bodies) }
    {
        let Reader { rules, bodies, .. } = self;
        (rules, bodies)
    }

    fn here(&self) -> Place
        ensures { result ≡ self.now.here }
    {
        self.here
    }

    fn say(&mut self, instruction: Instruction) -> Result<(), NoMemory>
        ensures { OnOk result (self.new ≡ saying (body_of (instruction ∷ [])) self.old) }
    {
        self.body.push(instruction)
    }

    // Goes to another place beside the present one.
    fn go(&mut self, here: Place)
        ensures { self.new ≡ at_place here self.old }
    {
        self.here = here;
    }

    // Goes into an element.
    fn enter(&mut self, inner: Place) -> Result<(), NoMemory>
        ensures { OnOk result (self.new ≡ within inner self.old) }
    {
        self.around.push(self.here)?;
        self.here = inner;
        Ok(())
    }

    // Leaves an element.
    fn leave(&mut self)
        ensures { self.new ≡ out self.old }
    {
        self.here = match self.around.pop() {
            Some(outer) => outer,
            None => Place::Behind,
        };
    }

    // Goes into an element of the result.
    fn open(
        &mut self,
        alloc: Global,
        name: NameId,
        attributes: Items<AttrPair>,
    ) -> Result<(), NoMemory>
        ensures { OnOk result (self.new ≡ opening name attributes self.old) }
    {
        let before = mem::replace(&mut self.body, Body::new(alloc));
        self.opened.push(Opened {
            name,
            attributes,
            before,
        })?;
        Ok(())
    }

    // Leaves the innermost element of the result.
    fn close(&mut self) -> Result<(), NoMemory>
        ensures { OnOk result (self.new ≡ closing self.old) }
    {
        let Some(
            Opened {
                name,
                attributes,
                before,
            },
        ) = self.opened.pop()
        else {
            return Ok(());
        };
        let content = mem::replace(&mut self.body, before);
        self.body
            .push(Instruction::Element(name, attributes, content))
    }

    // Ends a template: its body is the next rule's.
    fn end_template(&mut self, alloc: Global, pattern: Pattern) -> Result<(), NoMemory>
        requires { length self.old.rules < 2 ^ 32 }
        ensures { OnOk result (self.new ≡ out (with_rule (rule_at (length self.old.rules) pattern) self.old)) }
    {
        let body = mem::replace(&mut self.body, Body::new(alloc));
        let place = self.rules.len() as u32;
        self.bodies.push(body)?;
        self.rules.push(Rule {
            pattern: Some(pattern),
            name: None,
            mode: None,
            precedence: 0,
            priority: priority(pattern),
            place,
            lowest: 0,
            body: place,
        })?;
        self.leave();
        Ok(())
    }

    fn say_text(&mut self, text: &Chars) -> Result<(), NoMemory>
        ensures { OnOk result (self.new ≡ saying (instruction.text text.now instruction.nothing) self.old) }
    {
        let text = text.copy()?;
        self.say(Instruction::Text(text))
    }

    // Reads a text of a body, where white space is kept or not.
    fn body_text(&mut self, kept: bool, text: &Chars) -> Result<(), NoMemory>
        ensures { OnOk result (self.new ≡ saying (text_in kept text.now instruction.nothing) self.old) }
    {
        if is_blank(text) && !kept {
            return Ok(());
        }
        self.say_text(text)
    }

    fn text(&mut self, text: &Chars) -> Result<(), StyleFault>
        ensures done { OnOk result (after_text self.old text.now ≡ Some self.new) }
        ensures refused { result ≡ Err StyleFault.NotBuilt → after_text self.old text.now ≡ None }
    {
        match self.here() {
            Place::Before => Ok(()),
            Place::Sheet => only_blank(text),
            Place::Template(_) => Ok(self.body_text(false, text)?),
            Place::Literal(kept) => Ok(self.body_text(kept, text)?),
            Place::Verbatim => Ok(self.say_text(text)?),
            Place::Apply => only_blank(text),
            Place::Behind => Ok(()),
        }
    }

    // Reads the beginning of an element of the result.
    fn begin_literal(
        &mut self,
        alloc: Global,
        kept: bool,
        name: NameId,
        attributes: &[AttrPair],
        names: &NameTable,
    ) -> Result<(), StyleFault>
        requires name { IsSome (slice_get names.now name.0) }
        requires attributes { AreApart names.now attributes.now }
        ensures done { OnOk result ((table : List NameParts) → Grows names.now table → after_literal table kept self.old name attributes.now ≡ Some self.new) }
        ensures refused { result ≡ Err StyleFault.NotBuilt → (table : List NameParts) → Grows names.now table → after_literal table kept self.old name attributes.now ≡ None }
    {
        if !is_literal(names, name, attributes) {
            return Err(StyleFault::NotBuilt);
        }
        self.open(alloc, name, copy_attributes(alloc, attributes)?)?;
        self.enter(Place::Literal(keeps(names, kept, attributes)))?;
        Ok(())
    }

    // Reads the beginning of `xsl:text`.
    fn begin_verbatim(&mut self, attributes: &[AttrPair]) -> Result<(), StyleFault>
        ensures done { OnOk result ((if has_none attributes.now then Some (within Place.Verbatim self.old) else None) ≡ Some self.new) }
        ensures refused { result ≡ Err StyleFault.NotBuilt → has_none attributes.now ≡ false }
    {
        if !attributes.is_empty() {
            return Err(StyleFault::NotBuilt);
        }
        self.enter(Place::Verbatim)?;
        Ok(())
    }

    // Reads the beginning of `xsl:apply-templates`.
    fn begin_apply(&mut self, attributes: &[AttrPair]) -> Result<(), StyleFault>
        ensures done { OnOk result ((if has_none attributes.now then Some (within Place.Apply (saying (instruction.apply_templates instruction.nothing) self.old)) else None) ≡ Some self.new) }
        ensures refused { result ≡ Err StyleFault.NotBuilt → has_none attributes.now ≡ false }
    {
        if !attributes.is_empty() {
            return Err(StyleFault::NotBuilt);
        }
        self.say(Instruction::ApplyTemplates)?;
        self.enter(Place::Apply)?;
        Ok(())
    }

    // Reads the beginning of an element of a body.
    fn begin_inner(
        &mut self,
        alloc: Global,
        kept: bool,
        name: NameId,
        attributes: &[AttrPair],
        names: &NameTable,
    ) -> Result<(), StyleFault>
        requires name { IsSome (slice_get names.now name.0) }
        requires attributes { AreApart names.now attributes.now }
        ensures done { OnOk result ((table : List NameParts) → Grows names.now table → after_inner table kept self.old name attributes.now ≡ Some self.new) }
        ensures refused { result ≡ Err StyleFault.NotBuilt → (table : List NameParts) → Grows names.now table → after_inner table kept self.old name attributes.now ≡ None }
    {
        if is_instruction(names, name, "text") {
            return self.begin_verbatim(attributes);
        }
        if is_instruction(names, name, "apply-templates") {
            return self.begin_apply(attributes);
        }
        self.begin_literal(alloc, kept, name, attributes, names)
    }

    // Reads the beginning of a template.
    fn begin_template(
        &mut self,
        alloc: Global,
        name: NameId,
        attributes: &[AttrPair],
        spaces: &Spaces,
        names: &mut NameTable,
    ) -> Result<(), StyleFault>
        requires name { IsSome (slice_get names.old name.0) }
        requires attributes { AreApart names.old attributes.now }
        ensures done { OnOk result ((table : List NameParts) → Grows names.new table → after_template table spaces.now (progress self.old names.old) name attributes.now ≡ Some (progress self.new names.new)) }
        ensures refused { result ≡ Err StyleFault.NotBuilt → (table : List NameParts) → Grows names.new table → after_template table spaces.now (progress self.old names.old) name attributes.now ≡ None }
        ensures grows { Grows names.old names.new }
    {
        let pattern = template_pattern(alloc, name, attributes, spaces, names)?;
        self.enter(Place::Template(pattern))?;
        Ok(())
    }

    // Reads the beginning of the outermost element.
    fn begin_sheet(
        &mut self,
        name: NameId,
        attributes: &[AttrPair],
        names: &NameTable,
    ) -> Result<(), StyleFault>
        requires name { IsSome (slice_get names.now name.0) }
        requires attributes { AreApart names.now attributes.now }
        ensures done { OnOk result ((table : List NameParts) → Grows names.now table → (is_sheet table name attributes.now ≡ true) × (self.new ≡ at_place Place.Sheet self.old)) }
        ensures refused { result ≡ Err StyleFault.NotBuilt → (table : List NameParts) → Grows names.now table → is_sheet table name attributes.now ≡ false }
    {
        if !is_sheet(names, name, attributes) {
            return Err(StyleFault::NotBuilt);
        }
        self.go(Place::Sheet);
        Ok(())
    }

    fn begin(
        &mut self,
        alloc: Global,
        name: NameId,
        attributes: &[AttrPair],
        spaces: &Spaces,
        names: &mut NameTable,
    ) -> Result<(), StyleFault>
        requires name { IsSome (slice_get names.old name.0) }
        requires attributes { AreApart names.old attributes.now }
        ensures done { OnOk result ((table : List NameParts) → Grows names.new table → begin_at self.old.here table spaces.now (progress self.old names.old) name attributes.now ≡ Some (progress self.new names.new)) }
        ensures refused { result ≡ Err StyleFault.NotBuilt → (table : List NameParts) → Grows names.new table → begin_at self.old.here table spaces.now (progress self.old names.old) name attributes.now ≡ None }
        ensures grows { Grows names.old names.new }
    {
        match self.here() {
            Place::Before => self.begin_sheet(name, attributes, names),
            Place::Sheet => self.begin_template(alloc, name, attributes, spaces, names),
            Place::Template(_) => self.begin_inner(alloc, false, name, attributes, names),
            Place::Literal(kept) => self.begin_inner(alloc, kept, name, attributes, names),
            Place::Verbatim => Err(StyleFault::NotBuilt),
            Place::Apply => Err(StyleFault::NotBuilt),
            Place::Behind => Ok(()),
        }
    }

    fn finish(&mut self, alloc: Global) -> Result<(), NoMemory>
        requires { length self.old.rules < 2 ^ 32 }
        ensures { OnOk result (self.new ≡ finish_at self.old.here self.old) }
    {
        match self.here() {
            Place::Before => Ok(()),
            Place::Sheet => {
                self.go(Place::Behind);
                Ok(())
            }
            Place::Template(pattern) => self.end_template(alloc, pattern),
            Place::Literal(_) => {
                self.close()?;
                self.leave();
                Ok(())
            }
            Place::Verbatim => {
                self.leave();
                Ok(())
            }
            Place::Apply => {
                self.leave();
                Ok(())
            }
            Place::Behind => Ok(()),
        }
    }

    // Reads the next item, whose names are the table's. `Err(NotBuilt)` comes where it may not stand there.
    pub(crate) fn read(
        &mut self,
        alloc: Global,
        item: &TreeItem,
        spaces: &Spaces,
        names: &mut NameTable,
    ) -> Result<(), StyleFault>
        requires named { IsNamed names.old item.now }
        requires few { length self.old.rules < 2 ^ 32 }
        ensures done { OnOk result ((table : List NameParts) → Grows names.new table → after table spaces.now (progress self.old names.old) item.now ≡ Some (progress self.new names.new)) }
        ensures refused { result ≡ Err StyleFault.NotBuilt → (table : List NameParts) → Grows names.new table → after table spaces.now (progress self.old names.old) item.now ≡ None }
        ensures grows { Grows names.old names.new }
    {
        match item {
            TreeItem::Begin(name, attributes, _) => {
                self.begin(alloc, *name, attributes.as_slice(), spaces, names)
            }
            TreeItem::Text(text) => self.text(text),
            TreeItem::Comment(_) => Ok(()),
            TreeItem::Finish => Ok(self.finish(alloc)?),
        }
    }
}
