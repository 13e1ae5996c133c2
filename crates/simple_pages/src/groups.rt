//! The groups of neighbouring runs in a result, as lines.
ghost use Rattle.std.specs.Prelude.{◌≡◌, ℕ, List, ◌+◌, [], ◌∷◌, ◌++◌, map, filter, IfOk, OnOk, if◌then◌else◌};
ghost use Rattle.result_origin.specs.Parts.{ResultPart, marks_in};
ghost use Rattle.result_origin.specs.Items.{part_of};
ghost use Rattle.simple_pages.specs.Groups.{groups_in, up_to_end, is_line, runs_in};
ghost use Rattle.simple_pages.specs.Pages.{line_at, lines_from};
ghost use Rattle.simple_pages.specs.Shown.{shown_of};
ghost use Rattle.simple_pages.specs.Laying.{with_run, closed, finished_with, joined};

use crate::runs::{Shown, is_line, line_of, next_down};
use result_origin::{Item, Line};
use serna_kinds::{Items, NoMemory};
use std::alloc::{AllocError, Global};
use std::marker::Model;
use std::mem;

/// The lines so far, and the runs of the group that is not closed yet.
#[derive(Drop)]
pub(crate) struct Laying<'a> {
    lines: Items<Line>,
    /// How far from the top of the page the next line stands, in millipoints.
    down: i64,
    group: Items<Shown<'a>>,
    /// How many elements are open.
    elements: u64,
    /// How many attributes are open.
    attributes: u64,
}

impl<'a> Model for Laying<'a> {
    ghost use Rattle.std.specs.Prelude.{◌≡◌, ◌*◌, pos, map, length};
    ghost use Rattle.simple_pages.specs.Shown.{shown_of};
    ghost use Rattle.simple_pages.specs.Laying.{LayingValue};

    ghost Value = { LayingValue };

    ghost view = { λ l. record { lines = l.lines; group = map shown_of l.group; elements = l.elements; attributes = l.attributes } };

    ghost invariant = { λ l. l.down ≡ pos (14400 * length l.lines) };
}

impl<'a> Laying<'a> {
    /// No line, and an empty group. Takes no memory.
    fn new(alloc: Global) -> Laying<'a>
        ensures { result ≡ record { lines = []; group = []; elements = 0; attributes = 0 } }
    {
        Laying {
            lines: Items::new(alloc),
            down: 0,
            group: Items::new(alloc),
            elements: 0,
            attributes: 0,
        }
    }

    /// Goes past one item. False at the end of the element that the first item stands in.
    fn step(&mut self, alloc: Global, item: &'a Item) -> Result<bool, NoMemory>
        ensures { IfOk result (λ goes_on. (rest : List (ResultPart ℕ)) → finished_with self.old (marks_in (part_of item.now ∷ rest)) ≡ (if goes_on then finished_with self.new (marks_in rest) else finished_with self.new [])) }
    {
        match item {
            Item::Run(text, origin) => {
                self.add(Shown {
                    text,
                    origin: *origin,
                })?;
                Ok(true)
            }
            Item::Begin(_, _) => {
                self.elements = one_more(self.elements)?;
                self.close(alloc)?;
                Ok(true)
            }
            Item::Attr(_) => {
                self.attributes = one_more(self.attributes)?;
                self.close(alloc)?;
                Ok(true)
            }
            Item::AttrEnd => {
                self.attributes = self.attributes.saturating_sub(1);
                self.close(alloc)?;
                Ok(true)
            }
            Item::Finish if self.elements == 0 => Ok(false),
            Item::Finish => {
                self.elements -= 1;
                self.close(alloc)?;
                Ok(true)
            }
            Item::Hole(_) => Ok(true),
        }
    }

    /// Adds a run to the group, outside attributes.
    fn add(&mut self, run: Shown<'a>) -> Result<(), NoMemory>
        ensures { OnOk result (self.new ≡ with_run self.old (shown_of run.entry)) }
    {
        if self.attributes == 0 {
            self.group.push(run)?;
        }
        Ok(())
    }

    /// Closes the group, and begins another.
    fn close(&mut self, alloc: Global) -> Result<(), NoMemory>
        ensures { OnOk result (self.new ≡ closed self.old) }
    {
        let group = mem::replace(&mut self.group, Items::new(alloc));
        if !is_line(group.as_slice()) {
            return Ok(());
        }
        let line = line_of(alloc, self.down, group.as_slice())?;
        let down = next_down(self.down)?;
        self.lines.push(line)?;
        self.down = down;
        Ok(())
    }

    /// The lines, with that of the last group.
    fn finish(mut self, alloc: Global) -> Result<Items<Line>, NoMemory>
        ensures { IfOk result (λ lines. lines ≡ finished_with self.entry []) }
    {
        self.close(alloc)?;
        let Laying { lines, .. } = self;
        Ok(lines)
    }
}

/// One more, where it can be counted.
fn one_more(count: u64) -> Result<u64, NoMemory>
    ensures { IfOk result (λ more. more ≡ count + 1) }
{
    count.checked_add(1).ok_or(AllocError)
}

/// The lines of what items say up to the end of the element that they stand in.
pub(crate) fn group_lines(alloc: Global, items: &[Item]) -> Result<Items<Line>, NoMemory>
    ensures { IfOk result (λ lines. lines ≡ lines_from 0 (filter is_line (groups_in 0 (up_to_end 0 (marks_in (map part_of items.now)))))) }
{
    let mut laying = Laying::new(alloc);
    lay(alloc, items, &mut laying)?;
    laying.finish(alloc)
}

/// Goes past items, up to the end of the element that they stand in.
fn lay<'a>(alloc: Global, items: &'a [Item], laying: &mut Laying<'a>) -> Result<(), NoMemory>
    ensures { OnOk result (finished_with laying.new [] ≡ finished_with laying.old (marks_in (map part_of items.now))) }
{
    for item in items {
        if !laying.step(alloc, item)? {
            return Ok(());
        }
    }
    Ok(())
}

/// The one line of all runs outside attributes.
pub(crate) fn one_line(alloc: Global, items: &[Item]) -> Result<Items<Line>, NoMemory>
    ensures { IfOk result (λ lines. lines ≡ line_at 0 (runs_in (marks_in (map part_of items.now))) ∷ []) }
{
    let mut runs = Items::new(alloc);
    let mut attributes = 0;
    for item in items {
        attributes = add_outside(&mut runs, attributes, item)?;
    }
    let mut lines = Items::new(alloc);
    lines.push(line_of(alloc, 0, runs.as_slice())?)?;
    Ok(lines)
}

/// Adds the run that an item is, outside attributes. Answers how many attributes are open behind it.
fn add_outside<'a>(
    runs: &mut Items<Shown<'a>>,
    attributes: u64,
    item: &'a Item,
) -> Result<u64, NoMemory>
    ensures { IfOk result (λ «open». (rest : List (ResultPart ℕ)) → map shown_of runs.old ++ joined (groups_in attributes (marks_in (part_of item.now ∷ rest))) ≡ map shown_of runs.new ++ joined (groups_in «open» (marks_in rest))) }
{
    match item {
        Item::Run(text, origin) if attributes == 0 => {
            runs.push(Shown {
                text,
                origin: *origin,
            })?;
            Ok(attributes)
        }
        Item::Attr(_) => one_more(attributes),
        Item::AttrEnd => Ok(attributes.saturating_sub(1)),
        Item::Run(_, _) | Item::Begin(_, _) | Item::Finish | Item::Hole(_) => Ok(attributes),
    }
}
