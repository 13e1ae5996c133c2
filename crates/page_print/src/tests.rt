//! What no clause says: that calls succeed, how two pages are printed, page by page and as one line, and that a line is offered
//! in one call.
use super::*;
use result_origin::{Face, Line, Origin, Page, Part, Run};
use serna_kinds::{Chars, Items, NoMemory};
use serna_outside::MemorySink;
use std::alloc::Global;
use std::test::Fail;

const PLAIN: Face = Face {
    size: 12_000,
    bold: false,
    italic: false,
    color: 0,
    background: None,
};

const LARGE: Face = Face {
    size: 18_000,
    bold: true,
    italic: false,
    color: 0x0A_00FF,
    background: Some(0xFE_DCBA),
};

const SLANTED: Face = Face {
    size: 12_000,
    bold: false,
    italic: true,
    color: 0,
    background: None,
};

/// The number of a page, where its line begins, and the texts of the line's parts with their faces.
const PAGES: [(usize, i64, &[(&str, Face)]); 2] = [
    (
        1,
        -5,
        &[("a\tb", PLAIN), ("e\u{301}\u{6F22}", LARGE), ("", SLANTED)],
    ),
    (2, 0, &[("c\nd", SLANTED)]),
];

const PRINTED: &str =
    "page 1\nline 1 -5 14400 a be\u{301}\u{6F22}\nface 3 6 18000 bold normal 0a00ff fedcba\npage 2\nline 1 0 14400 c d\nface 0 3 12000 normal italic 000000 none\n";

fn part(alloc: Global, text: &str, face: Face) -> Result<Part, NoMemory> {
    let run = Run {
        text: Chars::from_text(alloc, text)?,
        origin: Origin::Fixed(0),
        face,
        line_height: 14_400,
    };
    let finish = run.text.as_text().len();
    Ok(Part::new(run, 0, finish))
}

fn line(alloc: Global, x: i64, texts: &[(&str, Face)]) -> Result<Line, NoMemory> {
    let mut parts = Items::new(alloc);
    for (text, face) in texts {
        parts.push(part(alloc, text, *face)?)?;
    }
    Ok(Line {
        x,
        down: 14_400,
        height: 14_400,
        parts,
    })
}

fn pages(alloc: Global) -> Result<Items<Page>, NoMemory> {
    let mut pages = Items::new(alloc);
    for (number, x, texts) in PAGES {
        let mut lines = Items::new(alloc);
        lines.push(line(alloc, x, texts)?)?;
        pages.push(Page { number, lines })?;
    }
    Ok(pages)
}

#[test]
fn prints_pages(rt: HostRuntime) -> Result<(), Fail> {
    let pages = pages(rt.alloc())?;
    let text = page_text(rt.alloc(), pages.as_slice())?;
    assert!(rt; text.as_text() == PRINTED);
    Ok(())
}

#[test]
fn prints_one_line(rt: HostRuntime) -> Result<(), Fail> {
    let pages = pages(rt.alloc())?;
    let text = plain_text(rt.alloc(), pages.as_slice())?;
    assert!(rt; text.as_text() == "plain a be\u{301}\u{6F22}c d\n");
    Ok(())
}

#[test]
fn offers_lines(rt: HostRuntime) -> Result<(), Fail> {
    let mut sink = MemorySink::new(rt.alloc(), Items::new(rt.alloc()), 3)?;
    assert!(rt; offer("a\nb", &mut sink));
    assert!(rt; !offer("c", &mut sink));
    assert!(rt; sink.held() == b"a\nb".as_slice());
    Ok(())
}

/// The number of the call of `write` that fails where three lines are offered, whether all is written, and what is held then:
/// each call before it took one line with its LF.
const CALLS: [(u64, bool, &str); 4] = [
    (1, false, ""),
    (2, false, "a\n"),
    (3, false, "a\n\n"),
    (4, true, "a\n\nb"),
];

fn sink_that_fails(alloc: Global, call: u64) -> Result<MemorySink, NoMemory> {
    let mut failing = Items::new(alloc);
    failing.push(call)?;
    MemorySink::new(alloc, failing, 9)
}

#[test]
fn offers_each_line_in_one_call(rt: HostRuntime) -> Result<(), Fail> {
    for (call, written, held) in CALLS {
        let mut sink = sink_that_fails(rt.alloc(), call)?;
        assert!(rt; offer("a\n\nb", &mut sink) == written);
        assert!(rt; sink.held() == held.as_bytes());
    }
    Ok(())
}
