//! The whole result of a source: instances, each filled in where it is asked for.
ghost use Rattle.std.specs.Prelude.{◌≡◌, ◌++◌, ℕ, suc, Bool, List, Some, Contains, slice_get, MatchOption, IfOk, OnOk};
ghost use Rattle.serna_kinds.specs.declared.cells.Cell.{Cell};
ghost use Rattle.serna_kinds.specs.Names.{NameParts};
ghost use Rattle.serna_kinds.specs.Tape.{Agrees, SeenBefore, Within};
ghost use Rattle.source_model.specs.Source.{Source};
ghost use Rattle.source_model.specs.Cells.{cell_of};
ghost use Rattle.source_model.specs.Sees.{Sees, StandsFor};
ghost use Rattle.result_origin.specs.Parts.{said, holes, filled};
ghost use Rattle.style_sheet.specs.Sheet.{IsNamedBy};
ghost use Rattle.instance_store.specs.declared.request.Asked.{Asked as AnyAsked};
ghost use Rattle.instance_store.specs.declared.request.Place.{Place as AnyPlace};
ghost use Rattle.template_run.specs.Labels.{KeepsNames, IsFound};
ghost use Rattle.template_run.specs.Batch.{frag, whole, batch};
ghost use Rattle.template_run.specs.Filled.{filling};
ghost use Rattle.template_run.specs.Allowed.{presence_cells, MayRead, AreAllowed};

use crate::RunResult;
use crate::body::Site;
use crate::matching::{Label, choice_for};
use crate::nodes::{label_of, passed_here, value_of};
use instance_store::{Asked, Place, Request};
use result_origin::{Fragment, Item, Origin};
use serna_kinds::{Chars, NameTable, NoMemory, NodeName, NodeRef, SourceView, Tape};
use std::alloc::Global;
use style_sheet::Style;

/// The levels of instances below which a text `[deep]` stands.
const LEVELS: u32 = 200;

/// What a transformation goes by: the style, the table that the names of the style and of the source are numbers of, and the
/// source.
#[derive(Drop)]
pub(crate) struct Transformation<'a, V> {
    pub(crate) alloc: Global,
    pub(crate) style: &'a Style,
    pub(crate) names: &'a NameTable,
    pub(crate) view: &'a V,
}

/// The result of a source under a stylesheet (XSLT 1.0, section 5.1), without holes. `names` is the table that the names of
/// the style and of the source are numbers of. The tape notes each cell that is read. `Err` comes where memory runs out.
pub fn transform<V: SourceView>(
    alloc: Global,
    style: &Style,
    view: &V,
    names: &NameTable,
    tape: &mut Tape,
) -> Result<Fragment, NoMemory>
    // Nothing that was noted is lost.
    ensures before { SeenBefore tape.old.cells tape.new.cells (V.cells view.now) }
    ensures place { tape.new.place_read ≡ tape.old.place_read }

    // It is the result of each source that has, at the cells that were noted, what the view has,
    ensures value { IfOk result (λ result. (source : Source) → Sees names.now tape.new.cells (V.cells view.now) names.now source → result ≡ said (batch names.now style.now source)) }

    // and that of each under every table that grows from this one, where the names of the style are this one's.
    ensures lasts { IfOk result (λ result. (table : List NameParts) (source : Source) → IsNamedBy names.now style.now → Sees names.now tape.new.cells (V.cells view.now) table source →
        result ≡ said (batch table style.now source)) }

    // It reads cells of the document node and of children alone.
    ensures within { (allowed : Cell → Bool) (source : Source) → Sees names.now tape.new.cells (V.cells view.now) names.now source → AreAllowed allowed source →
        Within allowed tape.old.cells → Within allowed tape.new.cells }
{
    let transformation = Transformation {
        alloc,
        style,
        names,
        view,
    };
    let root = Request::apply(alloc, NodeRef::Node(NodeName(0)), None);
    let place = Place {
        position: 1,
        size: 1,
    };
    let mut result = Fragment::new(alloc);
    transformation.add_instance(LEVELS, &root, place, tape, &mut result)?;
    Ok(result)
}

impl<'a, V: SourceView> Transformation<'a, V> {
    /// What a node is, None where it is not in the source.
    fn find(&self, node: NodeRef, tape: &mut Tape) -> Result<Option<Label>, NoMemory>
        ensures before { SeenBefore tape.old.cells tape.new.cells (V.cells self.now.view.now) }
        ensures place { tape.new.place_read ≡ tape.old.place_read }
        ensures value { IfOk result (λ found. (source : Source) → Agrees tape.new.cells (V.cells self.now.view.now) (cell_of source) → IsFound source node found) }
        ensures within { (allowed : Cell → Bool) → Within allowed (presence_cells node) → Within allowed tape.old.cells → Within allowed tape.new.cells }
    {
        match node {
            NodeRef::Node(number) => match label_of(self.view, number, tape)? {
                Some(label) => Ok(Some(Some(label))),
                None => Ok(None),
            },
            NodeRef::Attr(number, name) => match value_of(self.view, number, name, tape)? {
                Some(_) => Ok(Some(None)),
                None => Ok(None),
            },
        }
    }

    /// The text that stands in place of an instance that is too deep.
    fn too_deep(&self) -> Result<RunResult, NoMemory>
        ensures { IfOk result (λ value. (table : List NameParts) (place : AnyPlace) (source : Source) (request : _) → value ≡ frag table self.now.style.now 0 request place source) }
    {
        let mut result = RunResult::new(self.alloc);
        let deep = Chars::from_text(self.alloc, "[deep]")?;
        result.say_run(deep, Origin::Fixed(0))?;
        Ok(result)
    }

    /// The instance of a request at a place, where so many levels are left.
    pub(crate) fn instance(
        &self,
        left: u32,
        request: &Request,
        place: Place,
        tape: &mut Tape,
    ) -> Result<RunResult, NoMemory>
        ensures before { SeenBefore tape.old.cells tape.new.cells (V.cells self.now.view.now) }
        ensures place { tape.new.place_read ≡ tape.old.place_read }
        ensures value { IfOk result (λ value. (table : List NameParts) (source : Source) (other : AnyPlace) → Sees self.now.names.now tape.new.cells (V.cells self.now.view.now) table source →
            KeepsNames self.now.names.now table self.now.style.now → StandsFor tape.new place other → value ≡ frag table self.now.style.now left request.now other source) }
        ensures within { (allowed : Cell → Bool) → MayRead allowed request.now → Within allowed tape.old.cells → Within allowed tape.new.cells }
    {
        if left == 0 {
            return self.too_deep();
        }
        match self.find(request.node, tape)? {
            Some(label) => self.answer(label, request, place, tape),
            None => Ok(RunResult::new(self.alloc)),
        }
    }

    /// What the chosen rule gives for a request whose node is so; nothing where a node that is passed is not in the source.
    fn answer(
        &self,
        label: Label,
        request: &Request,
        place: Place,
        tape: &mut Tape,
    ) -> Result<RunResult, NoMemory>
        ensures before { SeenBefore tape.old.cells tape.new.cells (V.cells self.now.view.now) }
        ensures place { tape.new.place_read ≡ tape.old.place_read }
        ensures value { IfOk result (λ value. (table : List NameParts) (source : Source) (other : AnyPlace) → Sees self.now.names.now tape.new.cells (V.cells self.now.view.now) table source →
            KeepsNames self.now.names.now table self.now.style.now → StandsFor tape.new place other → ((s : Source) → Agrees tape.new.cells (V.cells self.now.view.now) (cell_of s) → IsFound s request.now.node (Some label)) →
            (left : ℕ) → value ≡ frag table self.now.style.now (suc left) request.now other source) }
        ensures within { (allowed : Cell → Bool) → MayRead allowed request.now → Within allowed tape.old.cells → Within allowed tape.new.cells }
    {
        if !passed_here(self.view, request.passed.as_slice(), tape)? {
            return Ok(RunResult::new(self.alloc));
        }
        let choice = choice_for(self.style, self.names, request, label)?;
        let site = Site {
            alloc: self.alloc,
            view: self.view,
            node: request.node,
            known: Some(label),
        };
        site.run(self.style, choice, request.mode, tape)
    }

    /// Adds the instance of a request at a place, where so many levels are left, with its holes filled.
    #[cycle(instances)]
    pub(crate) fn add_instance(
        &self,
        left: u32,
        request: &Request,
        place: Place,
        tape: &mut Tape,
        out: &mut Fragment,
    ) -> Result<(), NoMemory>
        ensures before { SeenBefore tape.old.cells tape.new.cells (V.cells self.now.view.now) }
        ensures place { tape.new.place_read ≡ tape.old.place_read }
        ensures value { OnOk result ((table : List NameParts) (source : Source) → Sees self.now.names.now tape.new.cells (V.cells self.now.view.now) table source →
            KeepsNames self.now.names.now table self.now.style.now → out.new ≡ out.old ++ said (whole table self.now.style.now left request.now place source)) }
        ensures within { (allowed : Cell → Bool) (table : List NameParts) (source : Source) → Sees self.now.names.now tape.new.cells (V.cells self.now.view.now) table source →
            KeepsNames self.now.names.now table self.now.style.now → AreAllowed allowed source → MayRead allowed request.now → Within allowed tape.old.cells → Within allowed tape.new.cells }
    {
        let instance = self.instance(left, request, place, tape)?;
        self.fill(left, instance, tape, out)
    }

    /// Adds an instance, where so many levels are left, with its holes filled.
    #[cycle(instances)]
    fn fill(
        &self,
        left: u32,
        instance: RunResult,
        tape: &mut Tape,
        out: &mut Fragment,
    ) -> Result<(), NoMemory>
        ensures before { SeenBefore tape.old.cells tape.new.cells (V.cells self.now.view.now) }
        ensures place { tape.new.place_read ≡ tape.old.place_read }
        ensures value { OnOk result ((table : List NameParts) (source : Source) → Sees self.now.names.now tape.new.cells (V.cells self.now.view.now) table source →
            KeepsNames self.now.names.now table self.now.style.now → out.new ≡ out.old ++ said (filled (filling table self.now.style.now left source) instance)) }
        ensures within { (allowed : Cell → Bool) (table : List NameParts) (source : Source) → Sees self.now.names.now tape.new.cells (V.cells self.now.view.now) table source →
            KeepsNames self.now.names.now table self.now.style.now → AreAllowed allowed source → ((asked : AnyAsked) → Contains (holes instance) asked → MayRead allowed asked.request) →
            Within allowed tape.old.cells → Within allowed tape.new.cells }
    {
        let (fragment, asked) = instance.into_parts();
        for item in fragment.into_items() {
            match item {
                Item::Hole(hole) => self.fill_hole(left, hole, asked.as_slice(), tape, out)?,
                said => out.push(said)?,
            }
        }
        Ok(())
    }

    /// Adds what a hole asks for, where so many levels are left at the instance that asks.
    #[cycle(instances)]
    fn fill_hole(
        &self,
        left: u32,
        hole: u64,
        asked: &[Asked],
        tape: &mut Tape,
        out: &mut Fragment,
    ) -> Result<(), NoMemory>
        ensures before { SeenBefore tape.old.cells tape.new.cells (V.cells self.now.view.now) }
        ensures place { tape.new.place_read ≡ tape.old.place_read }
        ensures value { OnOk result ((table : List NameParts) (source : Source) (one : AnyAsked) → Sees self.now.names.now tape.new.cells (V.cells self.now.view.now) table source →
            KeepsNames self.now.names.now table self.now.style.now → slice_get asked.now hole ≡ Some one → out.new ≡ out.old ++ said (filling table self.now.style.now left source one)) }
        ensures within { (allowed : Cell → Bool) (table : List NameParts) (source : Source) → Sees self.now.names.now tape.new.cells (V.cells self.now.view.now) table source →
            KeepsNames self.now.names.now table self.now.style.now → AreAllowed allowed source → ((one : AnyAsked) → Contains asked.now one → MayRead allowed one.request) →
            Within allowed tape.old.cells → Within allowed tape.new.cells }
    {
        let Some(one) = asked.get(hole as usize) else {
            return Ok(());
        };
        match left.checked_sub(1) {
            Some(below) => self.add_instance(below, &one.request, one.place, tape, out),
            None => Ok(()),
        }
    }
}
