ghost use Rattle.std.specs.List.{find, flat_map};
ghost use Rattle.std.specs.Prelude.{position, ◌≡◌, ◌≢◌, ◌++◌, ◌+◌, ◌∷◌, [], Ok, Err, IsTrue, None, IfOk, IfErr, OnOk, OnErr, ℕ, List, filter, filter_map, length, Some, ◌<◌, ◌≤◌};
ghost use Rattle.std.specs.Str.{chars};
ghost use Rattle.std.specs.String.{string_bytes};
ghost use Rattle.source_primitives.specs.declared.primitive.CaretPlace.TheVariants as place;
ghost use Rattle.serna_kinds.specs.Limits.{change_limit};
ghost use Rattle.source_primitives.specs.Primitives.{applied, MayType};
ghost use Rattle.source_primitives.specs.Places.{IsPlaceOf, begun_in, parents_in, is_there, node_of};
ghost use Rattle.source_model.specs.Changes.{text_at};
ghost use Rattle.source_tree.specs.Unnumbered.{document_of};
ghost use Rattle.tree_lines.specs.Canonical.{canonical_text};
ghost use Rattle.plain_editor.specs.Stops.{comes_from};
ghost use Rattle.plain_editor.specs.Editor.{Editor, Done, Refused, opened, shown, stands_at, caret_of, put_among, put_at, changed, bytes_of, typed_at, typed, obeyed, step, told, standing, standing_at, nearest, stands_for, refused_by, reply_text};
ghost use Rattle.plain_editor.specs.Editor as editor;
ghost use Rattle.live_editor.specs.Answers.{rule_of, reply_of, standing_of, shown_at};
ghost use Rattle.live_editor.specs.Shown.{boundaries_of, boundary_of};
ghost use Rattle.live_editor.specs.Held.{stops_of, IsSoundEditor, IsRefusal, IsHead, taken, is_place, is_at, is_caret_at, is_place_at, refused_at, IsCaretAt};
ghost use Rattle.plain_editor.specs.Commands as command;
ghost use Rattle.live_editor.specs.declared.editor.TypeFault.TheVariants as fault;

use crate::command::{Command, read_command};
use crate::place::{is_same_place, moved_through, place_of};
use crate::reply::{Rule, Standing, reply_line, told_line};
use crate::view::{Boundary, view_of};
use result_origin::Origin;
use serna_kinds::{
    Cell, CellValue, Chars, Facet, Items, NameTable, NoMemory, NodeName, SourceView,
};
use source_primitives::{Begun, Caret, CaretPlace, Moves, Primitive, SubItem};
use source_tree::SourceTree;
use std::alloc::{AllocError, Global};
use std::marker::Model;
use style_sheet::Style;

/// The most bytes of a text node, the most nodes that are ever made, and the most changes that are accepted.
const MAX_TEXT_BYTES: usize = 16_384;

const MAX_NODES: u32 = 1_000_000;

const MAX_REVISIONS: u32 = 50_000;

/// The plain editor: one source, a caret and the stops of the last view, changed by one command line after another.
#[derive(Drop)]
pub struct Editor {
    names: NameTable,
    source: SourceTree,
    revision: u32,
    caret: Option<Caret>,
    view: Option<Vec<Boundary>>,
    since: Vec<Moves>,
}

impl Model for Editor {
    ghost use Rattle.std.specs.Coded.{codes};
    ghost use Rattle.std.specs.Option.{option_map};
    ghost use Rattle.source_model.specs.Codes.{source_code};
    ghost use Rattle.plain_editor.specs.Editor.{Editor};
    ghost use Rattle.live_editor.specs.Held.{editor_code, stops_of, IsSoundEditor};

    ghost Value = { Editor };

    ghost coded = { editor_code (Prim.hlevel codes) (source_code (Prim.hlevel codes) (Prim.hlevel codes)) (Prim.hlevel codes) (Prim.hlevel codes) (Prim.hlevel codes) };

    ghost view = { λ e. record { names = e.names; source = e.source.source; revision = e.revision; caret = e.caret; stops = option_map (λ boundaries. stops_of boundaries.items) e.view; since = e.since.items } };

    ghost invariant = { λ e. IsSoundEditor (record { names = e.names; source = e.source.source; revision = e.revision; caret = e.caret; stops = option_map (λ boundaries. stops_of boundaries.items) e.view; since = e.since.items }) };
}

/// Why a text was not typed.
enum TypeFault {
    Rule(Rule),
    NoMemory,
}

impl From<NoMemory> for TypeFault {
    ghost from_gives = { λ _ e. e ≡ fault.NoMemory };

    fn from(_e: NoMemory) -> TypeFault {
        TypeFault::NoMemory
    }
}

impl Editor {
    /// The editor of a source whose names are numbers of a table, before the first command. Takes no memory.
    pub fn open(alloc: Global, names: NameTable, source: SourceTree) -> Editor
        requires { IsSoundEditor (opened names source.source) }
        ensures { result ≡ opened names source.source }
    {
        Editor {
            names,
            source,
            revision: 0,
            caret: None,
            view: None,
            since: Vec::new(alloc),
        }
    }

    /// Obeys a command line, and gives the text that it is answered, each line with its LF. `style` is the stylesheet, whose names
    /// are numbers of the editor's table.
    ///
    /// `Err` comes where memory runs out. The editor is then as it was: all the memory of a step is taken before it changes
    /// anything.
    pub fn obey(&mut self, alloc: Global, style: &Style, line: &[u8]) -> Result<String, NoMemory>
        ensures state { OnOk result (self.new ≡ (step style.now self.old line.now).0) }
        ensures answer { IfOk result (λ text. string_bytes text ≡ reply_text (step style.now self.old line.now).1) }
        ensures kept { OnErr result (self.new ≡ self.old) }
    {
        match read_command(alloc, line)? {
            Command::Show => {
                let text = self.show(alloc, style)?;
                Ok(text)
            }
            Command::At(page, line, column) => {
                let text = self.answer_at(alloc, page, line, column)?;
                Ok(text)
            }
            Command::Typing(text) => {
                let text = self.answer_typing(alloc, text)?;
                Ok(text)
            }
            Command::Where => {
                let text = self.tell(alloc)?;
                Ok(text)
            }
            Command::Source => {
                let text = self.write_source(alloc)?;
                Ok(text)
            }
            Command::NotBuilt => {
                let text = reply_line(alloc, Err(Rule::NotBuilt))?;
                Ok(text)
            }
        }
    }

    /// `where`: tells the caret's place, and where it stands on the pages of the last view.
    fn tell(&self, alloc: Global) -> Result<String, NoMemory>
        ensures { IfOk result (λ text. string_bytes text ≡ reply_text (told self.now self.now.caret).1) }
    {
        let Some(caret) = self.caret else {
            return reply_line(alloc, Err(Rule::NoCaret));
        };
        let line = told_line(alloc, caret.place, self.standing(caret))?;
        Ok(line)
    }

    /// Where a caret stands.
    fn standing(&self, caret: Caret) -> Standing
        ensures { standing_of result ≡ standing caret self.now.stops self.now.since }
    {
        if !self.since.is_empty() {
            return Standing::Stale;
        }
        match &self.view {
            Some(boundaries) => match caret_boundary(boundaries.as_slice(), caret) {
                Some(here) => Standing::Shown(here.page, here.line, here.column),
                None => Standing::Hidden,
            },
            None => Standing::Hidden,
        }
    }

    /// `source`: the tree lines of the present source.
    fn write_source(&self, alloc: Global) -> Result<String, NoMemory>
        ensures { IfOk result (λ text. string_bytes text ≡ canonical_text self.now.names self.now.source.spaces (document_of self.now.source)) }
    {
        let lines = self.source.lines(alloc, &self.names)?;
        let text = String::from_str(alloc, lines.as_text())?;
        Ok(text)
    }

    /// `show`: prints the view of the present source, and keeps its stops.
    fn show(&mut self, alloc: Global, style: &Style) -> Result<String, NoMemory>
        ensures state { OnOk result (self.new ≡ shown style.now self.old) }
        ensures answer { IfOk result (λ text. string_bytes text ≡ reply_text (obeyed style.now self.old command.Show).1) }
        ensures kept { OnErr result (self.new ≡ self.old) }
    {
        let view = view_of(alloc, style, &self.names, &self.source)?;
        self.view = Some(view.boundaries);
        self.since.clear();
        Ok(view.text)
    }

    /// What `at` is answered.
    fn answer_at(
        &mut self,
        alloc: Global,
        page: u32,
        line: u32,
        column: u32,
    ) -> Result<String, NoMemory>
        ensures state { OnOk result (self.new ≡ (put_at self.old page line column self.old.stops).0) }
        ensures answer { IfOk result (λ text. string_bytes text ≡ reply_text (put_at self.old page line column self.old.stops).1) }
        ensures kept { OnErr result (self.new ≡ self.old) }
    {
        let done = reply_line(alloc, Ok(()))?;
        match self.put_at(page, line, column) {
            Ok(()) => Ok(done),
            Err(rule) => {
                let refusal = reply_line(alloc, Err(rule))?;
                Ok(refusal)
            }
        }
    }

    /// `at`: puts the caret at the first stop there that is at a place, moved as the changes since the show move it.
    fn put_at(&mut self, page: u32, line: u32, column: u32) -> Result<(), Rule>
        ensures state { self.new ≡ (put_at self.old page line column self.old.stops).0 }
        ensures answer { reply_of result ≡ (put_at self.old page line column self.old.stops).1 }
        ensures kept { OnErr result (self.new ≡ self.old) }
    {
        let Some(boundaries) = &self.view else {
            return Err(Rule::NoView);
        };
        let caret = caret_at(
            boundaries.as_slice(),
            page as usize,
            line as usize,
            column as usize,
        )?;
        let place = moved_through(&self.since, caret.place);
        if !self.is_there(place) {
            return Err(Rule::Gone);
        }
        self.caret = Some(Caret {
            place,
            occurrence: caret.occurrence,
        });
        Ok(())
    }

    /// Whether the node of a place is in the source.
    fn is_there(&self, place: CaretPlace) -> bool
        ensures { result ≡ is_there self.now.source place }
    {
        let node = node_of(place);
        let facet = Facet::Label;
        self.source.read(Cell { node, facet }).is_some()
    }

    /// What `type` is answered.
    fn answer_typing(&mut self, alloc: Global, text: Chars) -> Result<String, NoMemory>
        requires { text ≢ [] }
        ensures state { OnOk result (self.new ≡ (typed self.old text self.old.caret).0) }
        ensures answer { IfOk result (λ line. string_bytes line ≡ reply_text (typed self.old text self.old.caret).1) }
        ensures kept { OnErr result (self.new ≡ self.old) }
    {
        let done = reply_line(alloc, Ok(()))?;
        match self.type_text(alloc, text) {
            Ok(()) => Ok(done),
            Err(TypeFault::Rule(rule)) => {
                let refusal = reply_line(alloc, Err(rule))?;
                Ok(refusal)
            }
            Err(TypeFault::NoMemory) => Err(AllocError),
        }
    }

    /// `type`: puts characters in at the caret, which then stands behind them.
    fn type_text(&mut self, alloc: Global, text: Chars) -> Result<(), TypeFault>
        requires { text ≢ [] }
        ensures ok { OnOk result (typed self.old text self.old.caret ≡ (self.new, Done)) }
        ensures refused { IfErr result (IsRefusal (self.new ≡ self.old) (λ rule. typed self.old text self.old.caret ≡ (self.old, Refused (rule_of rule)))) }
    {
        let Some(caret) = self.caret else {
            return Err(TypeFault::Rule(Rule::NoCaret));
        };
        match caret.place {
            CaretPlace::Text(node, at) => {
                self.type_into_text(alloc, text, node, at, caret.occurrence)?;
                Ok(())
            }
            CaretPlace::Into(node) => {
                self.type_into_element(alloc, text, node, caret.occurrence)?;
                Ok(())
            }
        }
    }

    /// Puts characters into a text node.
    fn type_into_text(
        &mut self,
        alloc: Global,
        text: Chars,
        node: NodeName,
        at: usize,
        occurrence: usize,
    ) -> Result<(), TypeFault>
        requires some { text ≢ [] }
        requires place { IsPlaceOf self.old.source (place.Text node at) }
        ensures ok { OnOk result (typed_at self.old text (place.Text node at) occurrence ≡ (self.new, Done)) }
        ensures refused { IfErr result (IsRefusal (self.new ≡ self.old) (λ rule. typed_at self.old text (place.Text node at) occurrence ≡ (self.old, Refused (rule_of rule)))) }
    {
        let more = text.as_text().len();
        let room = MAX_TEXT_BYTES.saturating_sub(text_len(&self.source, node));
        if more > room {
            return Err(TypeFault::Rule(Rule::Long));
        }
        if self.revision >= MAX_REVISIONS {
            return Err(TypeFault::Rule(Rule::Revisions));
        }
        let prim = Primitive::InsertText(node, at, text);
        let begun = Items::new(alloc);
        let place = CaretPlace::Text(node, at + more);
        self.change(alloc, prim, begun, place, occurrence)?;
        Ok(())
    }

    /// Makes characters the first child of an element, as a new text.
    fn type_into_element(
        &mut self,
        alloc: Global,
        text: Chars,
        node: NodeName,
        occurrence: usize,
    ) -> Result<(), TypeFault>
        requires some { text ≢ [] }
        requires place { IsPlaceOf self.old.source (place.Into node) }
        ensures ok { OnOk result (typed_at self.old text (place.Into node) occurrence ≡ (self.new, Done)) }
        ensures refused { IfErr result (IsRefusal (self.new ≡ self.old) (λ rule. typed_at self.old text (place.Into node) occurrence ≡ (self.old, Refused (rule_of rule)))) }
    {
        let more = text.as_text().len();
        if more > MAX_TEXT_BYTES {
            return Err(TypeFault::Rule(Rule::Long));
        }
        let made = self.source.made();
        if made >= MAX_NODES {
            return Err(TypeFault::Rule(Rule::Nodes));
        }
        if self.revision >= MAX_REVISIONS {
            return Err(TypeFault::Rule(Rule::Revisions));
        }
        let number = NodeName(made + 1);
        let mut items = Items::new(alloc);
        items.push(SubItem::Text(number, text))?;
        let prim = Primitive::InsertChild(node, 0, items);
        let mut begun = Items::new(alloc);
        begun.push(Begun {
            element: node,
            text: number,
        })?;
        let place = CaretPlace::Text(number, more);
        self.change(alloc, prim, begun, place, occurrence)?;
        Ok(())
    }

    /// Accepts a change by one prim, and puts the caret at a place of what it leaves. `begun` are the elements whose children it
    /// changes and that begin with a text then.
    fn change(
        &mut self,
        alloc: Global,
        prim: Primitive,
        begun: Items<Begun>,
        place: CaretPlace,
        occurrence: usize,
    ) -> Result<(), NoMemory>
        requires may { MayType prim self.old.source }
        requires begun { begun ≡ begun_in (applied prim self.old.source) (flat_map parents_in (prim ∷ [])) }
        requires sound { IsSoundEditor (changed self.old (prim ∷ []) place occurrence) }
        requires few { self.old.revision < change_limit }
        ensures ok { OnOk result (self.new ≡ changed self.old (prim ∷ []) place occurrence) }
        ensures kept { OnErr result (self.new ≡ self.old) }
    {
        self.since.reserve(1)?;
        let mut prims = Items::new(alloc);
        prims.push(prim)?;
        self.source.apply(alloc, &prims.as_slice()[0])?;
        self.since.push(Moves { prims, begun }).unwrap();
        self.revision += 1;
        self.caret = Some(Caret { place, occurrence });
        Ok(())
    }
}

/// The node that a place is in.
fn node_of(place: CaretPlace) -> NodeName
    ensures { result ≡ node_of place }
{
    match place {
        CaretPlace::Text(node, _) => node,
        CaretPlace::Into(node) => node,
    }
}

/// The boundary of a caret: that of its occurrence among those at its place, or else the last of them.
fn caret_boundary(boundaries: &[Boundary], caret: Caret) -> Option<Boundary>
    ensures { standing_at (nearest None caret.occurrence (filter (stands_for caret.place) (stops_of boundaries.now))) ≡ shown_at result }
{
    let mut last = None;
    let mut count = 0;
    for here in boundaries {
        if !comes_from(caret.place, here) {
            continue;
        }
        count += 1;
        last = Some(*here);
        if count == caret.occurrence {
            return last;
        }
    }
    last
}

/// The caret at the first boundary there that is at a place. Where none is at a place, the first says why.
fn caret_at(boundaries: &[Boundary], page: usize, line: usize, column: usize) -> Result<Caret, Rule>
    ensures first { IfOk result (λ caret. IsHead caret (filter_map caret_of (filter (stands_at page line column) (stops_of boundaries.now)))) }
    ensures answer { (editor : Editor) → put_among editor (filter (stands_at page line column) (stops_of boundaries.now)) ≡ taken editor result }
{
    match first_caret(boundaries, page, line, column) {
        Some(index) => Ok(caret_of(boundaries, index)),
        None => Err(refusal_at(boundaries, page, line, column)),
    }
}

/// The first boundary there that is at a place.
fn first_caret(boundaries: &[Boundary], page: usize, line: usize, column: usize) -> Option<usize>
    ensures { result ≡ position (is_caret_at page line column) boundaries.now }
{
    boundaries.iter().position(|here| is_at(here, page, line, column) && is_place(here.origin))
}

/// Why no caret is put where no boundary is at a place: the first boundary there says it.
fn refusal_at(boundaries: &[Boundary], page: usize, line: usize, column: usize) -> Rule
    ensures { rule_of result ≡ refused_at (find (is_at page line column) boundaries.now) }
{
    for here in boundaries {
        if is_at(here, page, line, column) {
            return refused_by(here.origin);
        }
    }
    Rule::NoPlace
}

/// Why no caret is put at an origin.
fn refused_by(origin: Origin) -> Rule
    ensures { rule_of result ≡ refused_by origin }
{
    match origin {
        Origin::Text(_, _) => Rule::NoPlace,
        Origin::Attr(_, _, _) => Rule::AttributeText,
        Origin::Into(_) => Rule::NoPlace,
        Origin::Fixed(_) => Rule::FixedText,
        Origin::Computed(_, _) => Rule::ComputedText,
    }
}

/// Whether a boundary is in a column of a line of a page.
fn is_at(here: &Boundary, page: usize, line: usize, column: usize) -> bool
    ensures { result ≡ is_at page line column here.now }
{
    here.page == page && here.line == line && here.column == column
}

/// Whether an origin is a place of the source.
fn is_place(origin: Origin) -> bool
    ensures { result ≡ is_place origin }
{
    place_of(origin).is_some()
}

/// The caret at one of the boundaries, which is at a place: its occurrence is its number, from 1, among those of this place.
fn caret_of(boundaries: &[Boundary], index: usize) -> Caret
    requires within { index < length boundaries.now }
    requires place { IsTrue (is_place_at boundaries.now index) }
    ensures { IsCaretAt boundaries.now index result }
{
    match place_of(boundaries[index].origin) {
        Some(place) => Caret {
            place,
            occurrence: 1 + count_of(&boundaries[..index], place),
        },
        None => unreachable!(),
    }
}

/// How many boundaries are at a place.
fn count_of(boundaries: &[Boundary], place: CaretPlace) -> usize
    ensures value { result ≡ length (filter (comes_from place) (boundaries_of boundaries.now)) }
    ensures most { result ≤ length boundaries.now }
{
    let mut count = 0;
    for here in boundaries {
        if comes_from(place, here) {
            count += 1;
        }
    }
    count
}

fn comes_from(place: CaretPlace, here: &Boundary) -> bool
    ensures { result ≡ comes_from place (boundary_of here.now) }
{
    match place_of(here.origin) {
        Some(other) => is_same_place(place, other),
        None => false,
    }
}

/// How many bytes a text node has.
fn text_len(source: &SourceTree, node: NodeName) -> usize
    ensures { (text : List ℕ) → text_at source.now.source node.0 ≡ Some text → result ≡ bytes_of text }
{
    match source.read(Cell {
        node,
        facet: Facet::Text,
    }) {
        Some(CellValue::Text(text)) => byte_len(text),
        Some(CellValue::Label(_, _)) => 0,
        Some(CellValue::Kids(_)) => 0,
        Some(CellValue::Up(_)) => 0,
        Some(CellValue::Attrs(_)) => 0,
        None => 0,
    }
}

/// The bytes of a text.
fn byte_len(text: &str) -> usize
    ensures { result ≡ bytes_of (chars text.now) }
{
    text.len()
}
