//! That calls succeed with ample memory, and what they give where the rules of lines meet.
use crate::{Align, Para, lines};
use result_origin::{Face, Origin, Run};
use serna_kinds::{Chars, Items, NoMemory};
use std::alloc::Global;
use std::process::Abort;
use std::test::Fail;

/// A run in 12pt, whose columns are 6000 millipoints wide.
fn run(alloc: Global, text: &str, line_height: i64) -> Result<Run, NoMemory> {
    Ok(Run {
        text: Chars::from_text(alloc, text)?,
        origin: Origin::Fixed(0),
        face: Face {
            size: 12000,
            bold: false,
            italic: false,
            color: 0,
            background: None,
        },
        line_height,
    })
}

/// A paragraph of runs, four columns wide.
fn para(runs: Items<Run>, indent: i64, align: Align) -> Para {
    Para {
        runs,
        width: 24000,
        left: 1000,
        indent,
        align,
        line_height: 14400,
    }
}

/// In each row a text, and its lines in four columns.
const TEXTS: [(&str, &[&str]); 7] = [
    // No end fits: as many clusters as do.
    ("abcde", &["abcd", "e"]),
    // The space hangs.
    ("abcd ef", &["abcd", "ef"]),
    // A letter and its accent are one cluster.
    ("abce\u{301}", &["abce\u{301}"]),
    // A wide cluster does not fit into the last column.
    ("abc\u{65E5}", &["abc", "\u{65E5}"]),
    // Two words fit.
    ("a b cd", &["a b", "cd"]),
    // Behind a last space that hangs there is an empty line.
    ("abcd ", &["abcd", ""]),
    ("", &[""]),
];

/// Compares the lines of a text with those that are expected.
fn check_lines(
    rt: &impl Abort,
    alloc: Global,
    text: &str,
    expected: &[&str],
) -> Result<(), NoMemory> {
    let runs = Items::from_vec(vec![in alloc; run(alloc, text, 0)?]?);
    let lines = lines(alloc, &para(runs, 0, Align::Start))?;
    assert_eq!(rt; lines.len(), expected.len(), "lines of {text:?}");
    let mut texts = expected.iter().copied();
    for line in lines.as_slice() {
        for part in line.parts.as_slice() {
            assert_eq!(rt; Some(part.text()), texts.next(), "in {text:?}");
        }
    }
    assert_eq!(rt; texts.next(), None, "parts of {text:?}");
    Ok(())
}

#[test]
fn lines_of_texts(rt: HostRuntime) -> Result<(), Fail> {
    for (text, expected) in TEXTS {
        check_lines(&rt, rt.alloc(), text, expected)?;
    }
    Ok(())
}

/// In each row how `ab cd` is set in four columns: how far the first line is indented, where the text stands, and where its two
/// lines begin.
const STARTS: [(i64, Align, [i64; 2]); 4] = [
    (0, Align::Start, [1000, 1000]),
    (0, Align::Center, [7000, 7000]),
    (0, Align::End, [13000, 13000]),
    (6000, Align::End, [13000, 13000]),
];

#[test]
fn starts_of_lines(rt: HostRuntime) -> Result<(), Fail> {
    let alloc = rt.alloc();
    for (indent, align, expected) in STARTS {
        let runs = Items::from_vec(vec![in alloc; run(alloc, "ab cd", 0)?]?);
        let lines = lines(alloc, &para(runs, indent, align))?;
        let mut starts = expected.iter().copied();
        for line in lines.as_slice() {
            assert_eq!(rt; Some(line.x), starts.next());
        }
        assert_eq!(rt; starts.next(), None);
    }
    Ok(())
}

/// Three runs: their texts, and how high a line of each is.
const RUNS: [(&str, i64); 3] = [("abcd", 0), (" ", 20000), ("e", 0)];

/// The parts of their two lines, each by its line's height and its places: the hanging space is in no part, and its part is empty.
const PARTS: [(i64, usize, usize); 3] = [(20000, 0, 4), (20000, 0, 0), (14400, 0, 1)];

#[test]
fn parts_of_runs(rt: HostRuntime) -> Result<(), Fail> {
    let alloc = rt.alloc();
    let mut runs = Items::new(alloc);
    for (text, height) in RUNS {
        runs.push(run(alloc, text, height)?)?;
    }
    let para = para(runs, 0, Align::Start).copy(alloc)?;
    let lines = lines(alloc, &para)?;
    let mut parts = PARTS.iter().copied();
    for line in lines.as_slice() {
        for part in line.parts.as_slice() {
            assert_eq!(rt;
                Some((line.height, part.start(), part.finish())),
                parts.next()
            );
        }
    }
    assert_eq!(rt; parts.next(), None);
    Ok(())
}

#[test]
fn laws_may_be_called() {
    crate::laws::a_line_takes_the_longest_prefix();
    crate::laws::no_line_is_too_wide();
    crate::laws::nothing_is_lost_or_twice();
    crate::laws::a_line_shows_its_clusters();
    crate::laws::examples_of_lines();
    crate::laws::examples_of_parts();
}
