ghost use Rattle.std.specs.Prelude.{◌≡◌, [], ◌∷◌, ◌++◌, Some, OnOk};
ghost use Rattle.result_origin.specs.Parts.{Says, Hole, holes, numbered};
ghost use Rattle.result_origin.specs.Parts as mark;
ghost use Rattle.instance_store.specs.Requests.{asked_at};
ghost use Rattle.std.specs.List.{flat_map};
ghost use Rattle.template_run.specs.Instances.{fixed_text, attribute_parts, value_parts};
ghost use Rattle.template_run.specs.Requests.{applied_to};

use instance_store::{Asked, Place, Request};
use result_origin::{Fragment, Origin};
use serna_kinds::{AttrPair, Chars, Items, NameId, NoMemory, NodeName, NodeRef};
use std::alloc::Global;
use std::marker::Model;

/// What one instance gives: a fragment, and what its holes ask for. The holes are numbered from 0, in order, and what hole k asks
/// for stands at place k. Contracts see it as the parts that it is made of, each hole with what it asks for.
#[derive(Debug, Drop)]
pub struct RunResult {
    fragment: Fragment,
    asked: Items<Asked>,
}

impl Model for RunResult {
    ghost use Rattle.std.specs.Prelude.{List};
    ghost use Rattle.result_origin.specs.Parts.{ResultPart};
    ghost use Rattle.instance_store.specs.declared.request.Asked.{Asked};
    ghost use Rattle.template_run.specs.Results.{asking, AreAsked};

    ghost Value = { List (ResultPart Asked) };

    ghost view = { λ r. asking r.fragment r.asked };

    ghost invariant = { λ r. AreAsked r.fragment r.asked };
}

impl RunResult {
    /// The result that says nothing. Takes no memory.
    pub fn new(alloc: Global) -> RunResult
        ensures { result ≡ [] }
    {
        RunResult {
            fragment: Fragment::new(alloc),
            asked: Items::new(alloc),
        }
    }

    /// The fragment, with numbers in its holes.
    pub fn fragment(&self) -> &Fragment
        ensures { result.now ≡ numbered 0 self.now }
    {
        &self.fragment
    }

    /// What the holes ask for, that of hole k at place k.
    pub fn asked(&self) -> &[Asked]
        ensures { result.now ≡ holes self.now }
    {
        self.asked.as_slice()
    }

    /// The fragment and what its holes ask for.
    pub fn into_parts(self) -> (Fragment, Items<Asked>)
        ensures { result ≡ (numbered 0 self, holes self) }
    {
        let RunResult { fragment, asked } = self;
        (fragment, asked)
    }

    /// Adds a text and where its start comes from.
    pub(crate) fn say_run(&mut self, text: Chars, origin: Origin) -> Result<(), NoMemory>
        ensures { OnOk result (self.new ≡ self.old ++ Says (mark.Run text origin) ∷ []) }
    {
        self.fragment.push_run(text, origin)
    }

    /// Adds the beginning of an element that the rule of a number gives.
    pub(crate) fn say_begin(&mut self, name: NameId, rule: u32) -> Result<(), NoMemory>
        ensures { OnOk result (self.new ≡ self.old ++ Says (mark.Begin name rule) ∷ []) }
    {
        self.fragment.push_begin(name, rule)
    }

    /// Adds the beginning of an attribute.
    fn say_attr(&mut self, name: NameId) -> Result<(), NoMemory>
        ensures { OnOk result (self.new ≡ self.old ++ Says (mark.Attr name) ∷ []) }
    {
        self.fragment.push_attr(name)
    }

    /// Adds the end of an attribute.
    fn say_attr_end(&mut self) -> Result<(), NoMemory>
        ensures { OnOk result (self.new ≡ self.old ++ Says mark.AttrEnd ∷ []) }
    {
        self.fragment.push_attr_end()
    }

    /// Adds the end of the innermost element.
    pub(crate) fn say_finish(&mut self) -> Result<(), NoMemory>
        ensures { OnOk result (self.new ≡ self.old ++ Says mark.Finish ∷ []) }
    {
        self.fragment.push_finish()
    }

    /// Adds a text of the rule of a number, if it is not empty.
    pub(crate) fn say_fixed(&mut self, rule: u32, text: &Chars) -> Result<(), NoMemory>
        ensures { OnOk result (self.new ≡ self.old ++ fixed_text rule text.now) }
    {
        if text.as_text().is_empty() {
            return Ok(());
        }
        self.say_run(text.copy()?, Origin::Fixed(rule))
    }

    /// Adds an attribute of the rule of a number, with its value.
    fn say_attribute(&mut self, rule: u32, pair: &AttrPair) -> Result<(), NoMemory>
        ensures { OnOk result (self.new ≡ self.old ++ attribute_parts rule pair.now) }
    {
        self.say_attr(pair.name)?;
        self.say_fixed(rule, &pair.value)?;
        self.say_attr_end()
    }

    /// Adds attributes of the rule of a number, in order.
    pub(crate) fn say_attributes(&mut self, rule: u32, pairs: &[AttrPair]) -> Result<(), NoMemory>
        ensures { OnOk result (self.new ≡ self.old ++ flat_map (attribute_parts rule) pairs.now) }
    {
        for pair in pairs {
            self.say_attribute(rule, pair)?;
        }
        Ok(())
    }

    /// Adds the value of an attribute of the source, if it is not empty.
    pub(crate) fn say_value(
        &mut self,
        node: NodeName,
        name: NameId,
        value: &Chars,
    ) -> Result<(), NoMemory>
        ensures { OnOk result (self.new ≡ self.old ++ value_parts node name (Some value.now)) }
    {
        if value.as_text().is_empty() {
            return Ok(());
        }
        self.say_run(value.copy()?, Origin::Attr(node, name, 0))
    }

    /// Adds a hole that the instance of a request at a place is to fill.
    fn ask(&mut self, request: Request, place: Place) -> Result<(), NoMemory>
        ensures { OnOk result (self.new ≡ self.old ++ Hole (asked_at request place) ∷ []) }
    {
        let number = self.asked.len() as u64;
        self.asked.push(Asked { request, place })?;
        match self.fragment.push_hole(number) {
            Ok(()) => Ok(()),
            Err(error) => {
                // Without its hole nothing is asked for.
                self.asked.pop();
                Err(error)
            }
        }
    }

    /// Adds a hole for each of these nodes, to which templates are to be applied in a mode (XSLT 1.0, section 5.4).
    pub(crate) fn apply(
        &mut self,
        alloc: Global,
        mode: Option<NameId>,
        nodes: &[NodeName],
    ) -> Result<(), NoMemory>
        ensures { OnOk result (self.new ≡ self.old ++ applied_to mode nodes.now) }
    {
        for (before, node) in nodes.iter().enumerate() {
            let request = Request::apply(alloc, NodeRef::Node(*node), mode);
            let place = Place {
                position: before + 1,
                size: nodes.len(),
            };
            self.ask(request, place)?;
        }
        Ok(())
    }
}
