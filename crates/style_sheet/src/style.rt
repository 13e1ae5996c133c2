//! What a stylesheet is in memory: its rules, in order, and their bodies.
ghost use Rattle.std.specs.Prelude.{◌≡◌, [], ◌∷◌, IfOk, OnOk, OnErr};

use crate::order::greatest_first;
use serna_kinds::{AttrPair, Chars, Items, NameId, NoMemory};
use std::alloc::Global;
use std::marker::Model;

/// Which nodes a rule is for (XSLT 1.0, section 5.2): the document node, or elements of a name.
#[derive(Clone, Copy, Debug)]
pub enum Pattern {
    Root,
    Named(NameId),
}

/// One step of a body: a text; an element of the result with its attributes and its content (XSLT 1.0, section 7.1.1); or
/// templates are applied to all children (section 5.4).
#[cycle(instructions)]
#[derive(Debug, Drop)]
pub enum Instruction {
    Text(Chars),
    Element(NameId, Items<AttrPair>, Body),
    ApplyTemplates,
}

/// What stands in a template, or in an element of the result: instructions, one after another.
#[cycle(instructions)]
#[derive(Debug, Drop)]
pub struct Body {
    instructions: Items<Instruction>,
}

impl Model for Body {
    ghost use Rattle.std.specs.Coded.{codes};
    ghost use Rattle.style_sheet.specs.Instructions.{Instructions};
    ghost use Rattle.style_sheet.specs.Codes.{body_code};

    ghost Value = { Instructions };

    ghost coded = { body_code (Prim.hlevel codes) };

    ghost use Rattle.style_sheet.specs.Bodies.{body_of, size_of};

    ghost view = { λ b. body_of b.instructions };

    ghost size = { size_of };

    ghost use Rattle.style_sheet.specs.BodiesFall.{most_le-size};

    ghost size_decreases = { λ b h. most_le-size b.instructions };
}

impl Body {
    ghost use Rattle.style_sheet.specs.Instructions.{nothing, followed_by};
    ghost use Rattle.style_sheet.specs.Bodies.{body_of};

    /// The body without instructions. Takes no memory.
    pub fn new(alloc: Global) -> Body
        ensures { result ≡ nothing }
    {
        Body {
            instructions: Items::new(alloc),
        }
    }

    /// Adds an instruction. After an error the body is as before.
    pub(crate) fn push(&mut self, instruction: Instruction) -> Result<(), NoMemory>
        ensures ok { OnOk result (self.new ≡ followed_by self.old (body_of (instruction ∷ []))) }
        ensures err { OnErr result (self.new ≡ self.old) }
    {
        self.instructions.push(instruction)?;
        Ok(())
    }

    /// Its instructions, in order.
    pub fn instructions(&self) -> &[Instruction]
        ensures { body_of result.now ≡ self.now }
    {
        self.instructions.as_slice()
    }
}

/// A template rule (XSLT 1.0, section 5.3): its pattern and its name, of which it may lack one (section 6), its mode (section
/// 5.7), its import precedence, its priority in hundredths, its place among the rules, the least precedence of the rules that
/// are imported into its module (section 5.6), and the number of its body.
#[derive(Clone, Copy, Debug)]
pub struct Rule {
    pub pattern: Option<Pattern>,
    pub name: Option<NameId>,
    pub mode: Option<NameId>,
    pub precedence: u32,
    pub priority: i32,
    pub place: u32,
    pub lowest: u32,
    pub body: u32,
}

/// What a request is answered by: the rule of a number, from 0, or the built-in rules (XSLT 1.0, section 5.8).
#[derive(Clone, Copy, Debug)]
pub enum Choice {
    Rule(u32),
    BuiltIn,
}

/// A stylesheet that was read. Contracts see it as the list of its rules and that of their bodies; bodies are stored once, and
/// rules name them.
#[derive(Debug, Drop)]
pub struct Style {
    rules: Items<Rule>,
    bodies: Items<Body>,
    /// The numbers of the rules, a greater rule before a lesser one.
    order: Items<u32>,
}

impl Model for Style {
    ghost use Rattle.std.specs.Coded.{codes};
    ghost use Rattle.style_sheet.specs.Codes.{body_code};
    ghost use Rattle.style_sheet.specs.Sheet.{StyleValue};

    ghost Value = { StyleValue };

    ghost coded = { Prim.hlevel (codes, body_code (Prim.hlevel codes)) };

    ghost use Rattle.style_sheet.specs.Order.{AreGreatestFirst};
    ghost use Rattle.style_sheet.specs.Sheet.{AreNumbered};

    ghost view = { λ s. record { rules = s.rules; bodies = s.bodies } };

    ghost invariant = { λ s. AreNumbered (record { rules = s.rules; bodies = s.bodies }) × AreGreatestFirst s.rules s.order };
}

impl Style {
    ghost use Rattle.style_sheet.specs.Order.{AreGreatestFirst};
    ghost use Rattle.style_sheet.specs.Sheet.{AreNumbered, no_style};

    /// The stylesheet without rules, under which the built-in rules alone hold. Takes no memory.
    pub fn new(alloc: Global) -> Style
        ensures { result ≡ no_style }
    {
        Style {
            rules: Items::new(alloc),
            bodies: Items::new(alloc),
            order: Items::new(alloc),
        }
    }

    // The stylesheet of these rules, each of which has its number as its place, and of their bodies.
    pub(crate) fn from_parts(
        alloc: Global,
        rules: Items<Rule>,
        bodies: Items<Body>,
    ) -> Result<Style, NoMemory>
        requires { AreNumbered (record { rules = rules; bodies = bodies }) }
        ensures { IfOk result (λ style. style ≡ record { rules = rules; bodies = bodies }) }
    {
        let order = greatest_first(alloc, rules.as_slice())?;
        Ok(Style {
            rules,
            bodies,
            order,
        })
    }

    /// The rules, each at its number.
    pub fn rules(&self) -> &[Rule]
        ensures rules { result.now ≡ self.now.rules }
        ensures numbered { AreNumbered self.now }
    {
        self.rules.as_slice()
    }

    /// The bodies, each at its number.
    pub fn bodies(&self) -> &[Body]
        ensures { result.now ≡ self.now.bodies }
    {
        self.bodies.as_slice()
    }

    /// The numbers of the rules, a greater rule before a lesser one (XSLT 1.0, section 5.5), so that a choice among them can stop
    /// at the first one that matches.
    pub fn greatest_first(&self) -> &[u32]
        ensures { AreGreatestFirst self.now.rules result.now }
    {
        self.order.as_slice()
    }
}
