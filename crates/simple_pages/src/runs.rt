//! Runs that are shown, and the lines that they make.
ghost use Rattle.std.specs.Prelude.{◌≡◌, ◌+◌, ◌*◌, ℕ, pos, map, IfOk};
ghost use Rattle.simple_pages.specs.Groups.{is_into, is_seen, is_line};
ghost use Rattle.simple_pages.specs.Pages.{whole_part, line_at};
ghost use Rattle.simple_pages.specs.Shown.{shown_of};

use result_origin::{Face, Line, Origin, Part, Run};
use serna_kinds::{Chars, Items, NoMemory, is_blank};
use std::alloc::{AllocError, Global};

/// 12pt, plain and black.
const PLAIN_FACE: Face = Face {
    size: 12_000,
    bold: false,
    italic: false,
    color: 0,
    background: None,
};

/// The height of a line of 12pt, in millipoints.
pub(crate) const LINE_HEIGHT: i64 = 14_400;

/// A text with where its start comes from.
#[derive(Clone, Copy)]
pub(crate) struct Shown<'a> {
    pub(crate) text: &'a Chars,
    pub(crate) origin: Origin,
}

/// Whether text can be typed there.
fn is_into(origin: Origin) -> bool
    ensures { result ≡ is_into origin }
{
    matches!(origin, Origin::Into(_))
}

/// Whether a run makes its group a line.
fn is_seen(run: &Shown<'_>) -> bool
    ensures { result ≡ is_seen (shown_of run.now) }
{
    is_into(run.origin) || !is_blank(run.text.as_text())
}

/// Whether a group is a line: one of white space alone is none, unless text can be typed into it.
pub(crate) fn is_line(group: &[Shown<'_>]) -> bool
    ensures { result ≡ is_line (map shown_of group.now) }
{
    group.iter().any(is_seen)
}

/// A run as one part of a line, which shares its text.
fn whole_part(run: &Shown<'_>) -> Result<Part, NoMemory>
    ensures { IfOk result (λ part. part ≡ whole_part (shown_of run.now)) }
{
    let text = run.text.copy()?;
    let finish = text.as_text().len();
    let run = Run {
        text,
        origin: run.origin,
        face: PLAIN_FACE,
        line_height: LINE_HEIGHT,
    };
    Ok(Part::new(run, 0, finish))
}

/// The line that runs make, so many millipoints from the top of its page.
pub(crate) fn line_of(alloc: Global, down: i64, runs: &[Shown<'_>]) -> Result<Line, NoMemory>
    ensures { IfOk result (λ line. (place : ℕ) → down ≡ pos (14400 * place) → line ≡ line_at place (map shown_of runs.now)) }
{
    let mut parts = Items::new(alloc);
    for run in runs {
        parts.push(whole_part(run)?)?;
    }
    Ok(Line {
        x: 0,
        down,
        height: LINE_HEIGHT,
        parts,
    })
}

/// How far from the top of the page the next line stands.
pub(crate) fn next_down(down: i64) -> Result<i64, NoMemory>
    ensures { IfOk result (λ next. (place : ℕ) → down ≡ pos (14400 * place) → next ≡ pos (14400 * (place + 1))) }
{
    down.checked_add(LINE_HEIGHT).ok_or(AllocError)
}
