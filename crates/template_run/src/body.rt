//! What the body of a rule gives, or the built-in rules, for one request.
ghost use Rattle.std.specs.Prelude.{◌≡◌, ◌↔◌, ◌++◌, ℕ, Bool, List, [], ◌∷◌, length, map, slice_get, Option, Some, None, IsTrue, IfOk, OnOk};
ghost use Rattle.std.specs.Option.{option_map};
ghost use Rattle.std.specs.List.{flat_map};
ghost use Rattle.serna_kinds.specs.declared.cells.Cell.{Cell};
ghost use Rattle.serna_kinds.specs.declared.cells.Kind.TheVariants.{Element};
ghost use Rattle.serna_kinds.specs.declared.cells.Facet.TheVariants as facet;
ghost use Rattle.serna_kinds.specs.Names.{NameParts};
ghost use Rattle.serna_kinds.specs.Tape.{Agrees, SeenBefore, Within};
ghost use Rattle.source_model.specs.Source.{Source};
ghost use Rattle.source_model.specs.Cells.{Spot, spot_of, cell_of, kind_of};
ghost use Rattle.source_model.specs.Sees.{Sees, StandsFor};
ghost use Rattle.style_sheet.specs.Bodies.{body_of};
ghost use Rattle.instance_store.specs.declared.request.Place.{Place as AnyPlace};
ghost use Rattle.instance_store.specs.declared.request.Request.{Request as AnyRequest};
ghost use Rattle.template_run.specs.Instances.{Context, attribute_parts, element_parts, children_parts, applied_in, body_parts, built_in_parts, value_parts, built_in_of, body_at, rule_parts, choice_parts};
ghost use Rattle.template_run.specs.Labels.{IsLabelIfKnown};
ghost use Rattle.template_run.specs.Nodes.{label_of, value_of};
ghost use Rattle.template_run.specs.Results.{GrowsBy};
ghost use Rattle.template_run.specs.Allowed.{cell_at, own_cells};

use crate::RunResult;
use crate::matching::Label;
use crate::nodes::{characters_of, children_of, label_of, value_of};
use instance_store::{Place, Request};
use result_origin::Origin;
use serna_kinds::{
    AttrPair, Chars, Kind, NameId, NameTable, NoMemory, NodeName, NodeRef, SourceView, Tape,
};
use std::alloc::Global;
use style_sheet::{Body, Choice, Instruction, Style};

/// Where a body is run: its node, in a source, and what the node is, where that was read before.
#[derive(Drop)]
pub(crate) struct Site<'a, V> {
    pub(crate) alloc: Global,
    pub(crate) view: &'a V,
    pub(crate) node: NodeRef,
    pub(crate) known: Option<Label>,
}

/// What a choice gives for a request at a place: the body of the rule of a number, or what the built-in rules give (XSLT 1.0,
/// sections 5.1, 5.3 and 5.8). `names` is the table that the names of the style and of the source are numbers of. The tape notes
/// each cell that is read. `Err` comes where memory runs out.
pub fn run_body<V: SourceView>(
    alloc: Global,
    style: &Style,
    choice: Choice,
    request: &Request,
    place: Place,
    view: &V,
    names: &NameTable,
    tape: &mut Tape,
) -> Result<RunResult, NoMemory>
    // Nothing that was noted is lost, and no instruction so far reads its place.
    ensures before { SeenBefore tape.old.cells tape.new.cells (V.cells view.now) }
    ensures place { tape.new.place_read ≡ tape.old.place_read }

    // It is what the choice gives in each source that has, at the cells that were noted, what the view has, under every table that
    // grows from this one, and at every other place unless the place was read.
    ensures value { IfOk result (λ value. (table : List NameParts) (source : Source) (other : AnyPlace) → Sees names.now tape.new.cells (V.cells view.now) table source → StandsFor tape.new place other →
        value ≡ choice_parts table style.now choice request.now other source) }

    // It reads the cells of the request's node alone.
    ensures within { (allowed : Cell → Bool) → Within allowed (own_cells request.now.node) → Within allowed tape.old.cells → Within allowed tape.new.cells }
{
    let site = Site {
        alloc,
        view,
        node: request.node,
        known: None,
    };
    site.run(style, choice, request.mode, tape)
}

/// The body of the rule of a number. None exactly where there is no such rule, or no such body.
fn body_at(style: &Style, number: u32) -> Option<&Body>
    ensures { option_map (λ body. body.now) result ≡ body_at style.now number }
{
    match style.rules().get(number as usize) {
        Some(rule) => style.bodies().get(rule.body as usize),
        None => None,
    }
}

/// Whether a node of this kind with these children is an element without any.
fn is_childless_element(kind: Kind, kids: &[NodeName]) -> bool
    ensures { IsTrue result ↔ ((kind ≡ Element) × (length kids.now ≡ 0)) }
{
    matches!(kind, Kind::Element) && kids.is_empty()
}

impl<'a, V: SourceView> Site<'a, V> {
    /// What a choice gives for a request for the node, at a place.
    pub(crate) fn run(
        &self,
        style: &Style,
        choice: Choice,
        mode: Option<NameId>,
        tape: &mut Tape,
    ) -> Result<RunResult, NoMemory>
        ensures before { SeenBefore tape.old.cells tape.new.cells (V.cells self.now.view.now) }
        ensures place { tape.new.place_read ≡ tape.old.place_read }
        ensures value { IfOk result (λ value. (table : List NameParts) (source : Source) (request : AnyRequest) (other : AnyPlace) → Agrees tape.new.cells (V.cells self.now.view.now) (cell_of source) →
            IsLabelIfKnown source self.now.node self.now.known → request.node ≡ self.now.node → request.mode ≡ mode → value ≡ choice_parts table style.now choice request other source) }
        ensures within { (allowed : Cell → Bool) → Within allowed (own_cells self.now.node) → Within allowed tape.old.cells → Within allowed tape.new.cells }
    {
        match choice {
            Choice::Rule(number) => self.rule(style, number, tape),
            Choice::BuiltIn => self.built_in(mode, tape),
        }
    }

    /// What the rule of a number gives.
    fn rule(&self, style: &Style, number: u32, tape: &mut Tape) -> Result<RunResult, NoMemory>
        ensures before { SeenBefore tape.old.cells tape.new.cells (V.cells self.now.view.now) }
        ensures place { tape.new.place_read ≡ tape.old.place_read }
        ensures value { IfOk result (λ value. (table : List NameParts) (source : Source) (request : AnyRequest) (other : AnyPlace) → Agrees tape.new.cells (V.cells self.now.view.now) (cell_of source) →
            IsLabelIfKnown source self.now.node self.now.known → request.node ≡ self.now.node → value ≡ rule_parts table source number request other (body_at style.now number)) }
        ensures within { (allowed : Cell → Bool) → Within allowed (own_cells self.now.node) → Within allowed tape.old.cells → Within allowed tape.new.cells }
    {
        let mut result = RunResult::new(self.alloc);
        match body_at(style, number) {
            Some(body) => {
                self.add_body(number, body, tape, &mut result)?;
                Ok(result)
            }
            None => Ok(result),
        }
    }

    /// Adds what a body of the rule of a number gives.
    #[cycle(instructions)]
    fn add_body(
        &self,
        rule: u32,
        body: &Body,
        tape: &mut Tape,
        out: &mut RunResult,
    ) -> Result<(), NoMemory>
        ensures before { SeenBefore tape.old.cells tape.new.cells (V.cells self.now.view.now) }
        ensures place { tape.new.place_read ≡ tape.old.place_read }
        ensures value { OnOk result ((table : List NameParts) (source : Source) (context : Context) → Agrees tape.new.cells (V.cells self.now.view.now) (cell_of source) →
            IsLabelIfKnown source self.now.node self.now.known → context.current ≡ self.now.node → GrowsBy out.old out.new (body_parts table source rule context body.now)) }
        ensures within { (allowed : Cell → Bool) → Within allowed (own_cells self.now.node) → Within allowed tape.old.cells → Within allowed tape.new.cells }
    {
        for instruction in body.instructions() {
            self.add_instruction(rule, instruction, tape, out)?;
        }
        Ok(())
    }

    /// Adds what an instruction of the rule of a number gives.
    #[cycle(instructions)]
    fn add_instruction(
        &self,
        rule: u32,
        instruction: &Instruction,
        tape: &mut Tape,
        out: &mut RunResult,
    ) -> Result<(), NoMemory>
        ensures before { SeenBefore tape.old.cells tape.new.cells (V.cells self.now.view.now) }
        ensures place { tape.new.place_read ≡ tape.old.place_read }
        ensures value { OnOk result ((table : List NameParts) (source : Source) (context : Context) → Agrees tape.new.cells (V.cells self.now.view.now) (cell_of source) →
            IsLabelIfKnown source self.now.node self.now.known → context.current ≡ self.now.node → GrowsBy out.old out.new (body_parts table source rule context (body_of (instruction.now ∷ [])))) }
        ensures within { (allowed : Cell → Bool) → Within allowed (own_cells self.now.node) → Within allowed tape.old.cells → Within allowed tape.new.cells }
    {
        match instruction {
            Instruction::Text(text) => out.say_fixed(rule, text),
            Instruction::Element(name, attributes, content) => {
                out.say_begin(*name, rule)?;
                out.say_attributes(rule, attributes.as_slice())?;
                self.add_body(rule, content, tape, out)?;
                out.say_finish()
            }
            Instruction::ApplyTemplates => self.add_children(None, tape, out),
        }
    }

    /// Adds what the built-in rules give (XSLT 1.0, section 5.8).
    fn built_in(&self, mode: Option<NameId>, tape: &mut Tape) -> Result<RunResult, NoMemory>
        ensures before { SeenBefore tape.old.cells tape.new.cells (V.cells self.now.view.now) }
        ensures place { tape.new.place_read ≡ tape.old.place_read }
        ensures value { IfOk result (λ value. (source : Source) → Agrees tape.new.cells (V.cells self.now.view.now) (cell_of source) →
            IsLabelIfKnown source self.now.node self.now.known → value ≡ built_in_of source mode self.now.node) }
        ensures within { (allowed : Cell → Bool) → Within allowed (own_cells self.now.node) → Within allowed tape.old.cells → Within allowed tape.new.cells }
    {
        match self.node {
            NodeRef::Node(node) => self.built_in_node(mode, node, tape),
            NodeRef::Attr(node, name) => self.built_in_attribute(node, name, tape),
        }
    }

    /// What the built-in rules give for a node that is no attribute.
    fn built_in_node(
        &self,
        mode: Option<NameId>,
        node: NodeName,
        tape: &mut Tape,
    ) -> Result<RunResult, NoMemory>
        ensures before { SeenBefore tape.old.cells tape.new.cells (V.cells self.now.view.now) }
        ensures place { tape.new.place_read ≡ tape.old.place_read }
        ensures value { IfOk result (λ value. (source : Source) → Agrees tape.new.cells (V.cells self.now.view.now) (cell_of source) →
            IsLabelIfKnown source (NodeRef.Node node) self.now.known → value ≡ built_in_of source mode (NodeRef.Node node)) }
        ensures within { (allowed : Cell → Bool) → Within allowed (own_cells (NodeRef.Node node)) → Within allowed tape.old.cells → Within allowed tape.new.cells }
    {
        let mut result = RunResult::new(self.alloc);
        match self.label(node, tape)? {
            Some((kind, _)) => {
                self.add_built_in(mode, node, kind, tape, &mut result)?;
                Ok(result)
            }
            None => Ok(result),
        }
    }

    /// What a node that is no attribute is, with an element's name; it is read unless it is known. None exactly where there is
    /// no such node.
    fn label(&self, node: NodeName, tape: &mut Tape) -> Result<Label, NoMemory>
        ensures before { SeenBefore tape.old.cells tape.new.cells (V.cells self.now.view.now) }
        ensures place { tape.new.place_read ≡ tape.old.place_read }
        ensures value { IfOk result (λ found. (source : Source) → Agrees tape.new.cells (V.cells self.now.view.now) (cell_of source) →
            IsLabelIfKnown source (NodeRef.Node node) self.now.known → found ≡ option_map label_of (spot_of source node.0)) }
        ensures within { (allowed : Cell → Bool) → IsTrue (allowed (cell_at facet.Label node)) → Within allowed tape.old.cells → Within allowed tape.new.cells }
    {
        match self.known {
            Some(label) => Ok(label),
            None => label_of(self.view, node, tape),
        }
    }

    /// Adds what the built-in rules give for a node of this kind.
    fn add_built_in(
        &self,
        mode: Option<NameId>,
        node: NodeName,
        kind: Kind,
        tape: &mut Tape,
        out: &mut RunResult,
    ) -> Result<(), NoMemory>
        ensures before { SeenBefore tape.old.cells tape.new.cells (V.cells self.now.view.now) }
        ensures place { tape.new.place_read ≡ tape.old.place_read }
        ensures value { OnOk result ((source : Source) (spot : Spot) → Agrees tape.new.cells (V.cells self.now.view.now) (cell_of source) → spot_of source node.0 ≡ Some spot → kind_of spot.body ≡ kind →
            out.new ≡ out.old ++ built_in_parts mode node spot spot.body) }
        ensures within { (allowed : Cell → Bool) → Within allowed (own_cells (NodeRef.Node node)) → Within allowed tape.old.cells → Within allowed tape.new.cells }
    {
        match kind {
            Kind::Root | Kind::Element => self.add_kids(mode, node, kind, tape, out),
            Kind::Text => {
                let text = characters_of(self.view, node, tape)?;
                let text = Chars::from_text(self.alloc, text)?;
                out.say_run(text, Origin::Text(node, 0))
            }
            Kind::Comment => Ok(()),
        }
    }

    /// What the built-in rules give for an attribute: its value, if it is not empty.
    fn built_in_attribute(
        &self,
        node: NodeName,
        name: NameId,
        tape: &mut Tape,
    ) -> Result<RunResult, NoMemory>
        ensures before { SeenBefore tape.old.cells tape.new.cells (V.cells self.now.view.now) }
        ensures place { tape.new.place_read ≡ tape.old.place_read }
        ensures value { IfOk result (λ value. (source : Source) → Agrees tape.new.cells (V.cells self.now.view.now) (cell_of source) → value ≡ value_parts node name (value_of source node name)) }
        ensures within { (allowed : Cell → Bool) → Within allowed (own_cells (NodeRef.Attr node name)) → Within allowed tape.old.cells → Within allowed tape.new.cells }
    {
        let mut result = RunResult::new(self.alloc);
        match value_of(self.view, node, name, tape)? {
            Some(value) => {
                result.say_value(node, name, value)?;
                Ok(result)
            }
            None => Ok(result),
        }
    }

    /// Adds holes for all children of the node, in a mode (XSLT 1.0, section 5.4). An attribute has none.
    fn add_children(
        &self,
        mode: Option<NameId>,
        tape: &mut Tape,
        out: &mut RunResult,
    ) -> Result<(), NoMemory>
        ensures before { SeenBefore tape.old.cells tape.new.cells (V.cells self.now.view.now) }
        ensures place { tape.new.place_read ≡ tape.old.place_read }
        ensures value { OnOk result ((source : Source) → Agrees tape.new.cells (V.cells self.now.view.now) (cell_of source) →
            IsLabelIfKnown source self.now.node self.now.known → out.new ≡ out.old ++ applied_in source mode self.now.node) }
        ensures within { (allowed : Cell → Bool) → Within allowed (own_cells self.now.node) → Within allowed tape.old.cells → Within allowed tape.new.cells }
    {
        match self.node {
            NodeRef::Node(node) => self.add_children_of(mode, node, tape, out),
            NodeRef::Attr(_, _) => Ok(()),
        }
    }

    /// Adds holes for all children of a node that is no attribute.
    fn add_children_of(
        &self,
        mode: Option<NameId>,
        node: NodeName,
        tape: &mut Tape,
        out: &mut RunResult,
    ) -> Result<(), NoMemory>
        ensures before { SeenBefore tape.old.cells tape.new.cells (V.cells self.now.view.now) }
        ensures place { tape.new.place_read ≡ tape.old.place_read }
        ensures value { OnOk result ((source : Source) → Agrees tape.new.cells (V.cells self.now.view.now) (cell_of source) →
            IsLabelIfKnown source (NodeRef.Node node) self.now.known → out.new ≡ out.old ++ applied_in source mode (NodeRef.Node node)) }
        ensures within { (allowed : Cell → Bool) → Within allowed (own_cells (NodeRef.Node node)) → Within allowed tape.old.cells → Within allowed tape.new.cells }
    {
        match self.label(node, tape)? {
            Some((kind, _)) => self.add_kids(mode, node, kind, tape, out),
            None => Ok(()),
        }
    }

    /// Adds holes for all children of a node of this kind. An element that has none gives an empty run, into which text can be
    /// typed.
    fn add_kids(
        &self,
        mode: Option<NameId>,
        node: NodeName,
        kind: Kind,
        tape: &mut Tape,
        out: &mut RunResult,
    ) -> Result<(), NoMemory>
        ensures before { SeenBefore tape.old.cells tape.new.cells (V.cells self.now.view.now) }
        ensures place { tape.new.place_read ≡ tape.old.place_read }
        ensures value { OnOk result ((source : Source) (spot : Spot) → Agrees tape.new.cells (V.cells self.now.view.now) (cell_of source) → spot_of source node.0 ≡ Some spot → kind_of spot.body ≡ kind →
            out.new ≡ out.old ++ children_parts mode node spot.body spot.kids) }
        ensures within { (allowed : Cell → Bool) → Within allowed (own_cells (NodeRef.Node node)) → Within allowed tape.old.cells → Within allowed tape.new.cells }
    {
        let kids = children_of(self.view, node, tape)?;
        if is_childless_element(kind, kids) {
            let nothing = Chars::new(self.alloc)?;
            return out.say_run(nothing, Origin::Into(node));
        }
        out.apply(self.alloc, mode, kids)
    }
}
