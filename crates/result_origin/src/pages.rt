ghost use Rattle.std.specs.Prelude.{◌≡◌, ◌≤◌, IfOk};
ghost use Rattle.serna_kinds.specs.Texts.{IsPlaceIn};

use crate::Origin;
use serna_kinds::{Chars, Items, NoMemory};
use std::alloc::Global;
use std::marker::Model;

/// How a text is set: its size in millipoints, its weight and style, its colour as 0xRRGGBB, and that of the ground behind it.
#[derive(Clone, Copy, Debug, PartialEq, Eq)]
pub struct Face {
    pub size: i64,
    pub bold: bool,
    pub italic: bool,
    pub color: u32,
    pub background: Option<u32>,
}

/// A text with where its start comes from, and how it is set. The height of a line of it is in millipoints.
#[derive(Debug, Drop)]
pub struct Run {
    pub text: Chars,
    pub origin: Origin,
    pub face: Face,
    pub line_height: i64,
}

impl Run {
    /// The same run, which shares its text. Takes no memory; `Err` comes only where 2^63 copies of the text are there.
    pub fn copy(&self) -> Result<Run, NoMemory>
        ensures { IfOk result (λ same. same ≡ self.now) }
    {
        Ok(Run {
            text: self.text.copy()?,
            origin: self.origin,
            face: self.face,
            line_height: self.line_height,
        })
    }
}

/// What of a run stands in one line, from one place of its text to another, in bytes.
#[derive(Debug, Drop)]
pub struct Part {
    run: Run,
    start: usize,
    finish: usize,
}

impl Model for Part {
    ghost use Rattle.result_origin.specs.Pages.{PartValue, IsPart};

    ghost Value = { PartValue };

    ghost view = { λ p. record { run = p.run; start = p.start; finish = p.finish } };

    ghost invariant = { λ p. IsPart (record { run = p.run; start = p.start; finish = p.finish }) };
}

impl Part {
    ghost use Rattle.result_origin.specs.Pages.{shown_bytes};

    /// What stands in the run from `start` to `finish`.
    pub fn new(run: Run, start: usize, finish: usize) -> Part
        requires from { IsPlaceIn run.text start }
        requires to { IsPlaceIn run.text finish }
        requires ordered { start ≤ finish }
        ensures { result ≡ record { run = run; start = start; finish = finish } }
    {
        Part { run, start, finish }
    }

    /// The run that this is a part of.
    pub fn run(&self) -> &Run
        ensures { result.now ≡ self.now.run }
    {
        &self.run
    }

    /// The place in the run's text where the part begins, in bytes.
    pub fn start(&self) -> usize
        ensures { result ≡ self.now.start }
    {
        self.start
    }

    /// The place in the run's text where the part ends, in bytes.
    pub fn finish(&self) -> usize
        ensures { result ≡ self.now.finish }
    {
        self.finish
    }

    /// The text that the part shows.
    pub fn text(&self) -> &str
        ensures { result.now ≡ shown_bytes self.now }
    {
        &self.run.text.as_text()[self.start..self.finish]
    }

    /// The same part, which shares its text, as `Run::copy` does.
    pub fn copy(&self) -> Result<Part, NoMemory>
        ensures { IfOk result (λ same. same ≡ self.now) }
    {
        Ok(Part {
            run: self.run.copy()?,
            start: self.start,
            finish: self.finish,
        })
    }
}

/// A line: where it begins, in millipoints from the left and the top of its page, its height, and its parts.
#[derive(Debug, Drop)]
pub struct Line {
    pub x: i64,
    pub down: i64,
    pub height: i64,
    pub parts: Items<Part>,
}

impl Line {
    /// The same line, in memory of its own.
    pub fn copy(&self, alloc: Global) -> Result<Line, NoMemory>
        ensures { IfOk result (λ same. same ≡ self.now) }
    {
        let mut parts = Items::new(alloc);
        for part in self.parts.as_slice() {
            parts.push(part.copy()?)?;
        }
        Ok(Line {
            x: self.x,
            down: self.down,
            height: self.height,
            parts,
        })
    }
}

/// A page with its number, from 1, and its lines from the top.
#[derive(Debug, Drop)]
pub struct Page {
    pub number: usize,
    pub lines: Items<Line>,
}

impl Page {
    /// The same page, in memory of its own.
    pub fn copy(&self, alloc: Global) -> Result<Page, NoMemory>
        ensures { IfOk result (λ same. same ≡ self.now) }
    {
        let mut lines = Items::new(alloc);
        for line in self.lines.as_slice() {
            lines.push(line.copy(alloc)?)?;
        }
        Ok(Page {
            number: self.number,
            lines,
        })
    }
}
