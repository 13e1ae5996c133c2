//! What no clause says: that calls succeed, and what an assembled result is made of.
ghost use Rattle.std.specs.Prelude.{◌≡◌, [], ◌∷◌, IfOk};
ghost use Rattle.result_origin.specs.Assembled.{Ends};
ghost use Rattle.result_origin.specs.Parts.{holes};
ghost use Rattle.result_origin.specs.Stored.{kept};

use super::*;
use serna_kinds::{Chars, Items, NameId, NoMemory};
use std::alloc::Global;
use std::test::Fail;

// An element with an attribute, the result 2 standing in the attribute's value and in the element, and the result 3 behind it.
fn outer(alloc: Global) -> Result<Fragment, NoMemory>
    ensures { IfOk result (λ f. holes f ≡ 2 ∷ 2 ∷ 3 ∷ []) }
{
    let mut outer = Fragment::new(alloc);
    outer.push_begin(NameId(1), 0)?;
    outer.push_attr(NameId(2))?;
    outer.push_hole(2)?;
    outer.push_attr_end()?;
    outer.push_hole(2)?;
    outer.push_hole(3)?;
    outer.push_finish()?;
    Ok(outer)
}

// A text.
fn inner(alloc: Global) -> Result<Fragment, NoMemory>
    ensures { IfOk result (λ f. holes f ≡ []) }
{
    let mut inner = Fragment::new(alloc);
    inner.push_run(Chars::from_text(alloc, "b")?, Origin::Fixed(7))?;
    Ok(inner)
}

// The result 2 again.
fn again(alloc: Global) -> Result<Fragment, NoMemory>
    ensures { IfOk result (λ f. holes f ≡ 2 ∷ []) }
{
    let mut hole = Fragment::new(alloc);
    hole.push_hole(2)?;
    let mut again = Fragment::new(alloc);
    again.append(&mut hole)?;
    Ok(again)
}

fn stored(alloc: Global) -> Result<Fragments, NoMemory>
    ensures { IfOk result (λ all. Ends (kept all.stored) 201 1) }
{
    let mut all = Fragments::new(alloc);
    all.put(1, outer(alloc)?)?;
    all.put(2, inner(alloc)?)?;
    all.put(3, again(alloc)?)?;
    Ok(all)
}

const ASSEMBLED: &str =
    "Fragment { items: [Begin(NameId(1), 0), Attr(NameId(2)), Run(Chars { text: \"b\" }, Fixed(7)), AttrEnd, Run(Chars { text: \"b\" }, Fixed(7)), Run(Chars { text: \"b\" }, Fixed(7)), Finish] }";

#[test]
fn fills_each_hole(rt: HostRuntime) -> Result<(), Fail> {
    let all = stored(rt.alloc())?;
    let whole = assemble(rt.alloc(), 1, &all)?;
    assert!(rt; format!(in rt.alloc(); "{whole:?}")?.as_str() == ASSEMBLED);
    Ok(())
}

#[test]
fn copies_fragments(rt: HostRuntime) -> Result<(), Fail> {
    let fragment = outer(rt.alloc())?;
    let same = fragment.copy(rt.alloc())?;
    assert!(rt; format!(in rt.alloc(); "{same:?}")? == format!(in rt.alloc(); "{fragment:?}")?);
    Ok(())
}

#[test]
fn keeps_and_takes_results(rt: HostRuntime) -> Result<(), Fail> {
    let mut all = stored(rt.alloc())?;
    all.reserve(2)?;
    all.put(4, inner(rt.alloc())?)?;
    assert!(rt; all.take(4).is_some());
    assert!(rt; all.take(4).is_none());
    assert!(rt; all.get(2).is_some());
    Ok(())
}

#[test]
fn copies_pages(rt: HostRuntime) -> Result<(), Fail> {
    let run = Run {
        text: Chars::from_text(rt.alloc(), "b")?,
        origin: Origin::Fixed(7),
        face: Face {
            size: 12000,
            bold: false,
            italic: true,
            color: 0xFF,
            background: None,
        },
        line_height: 14000,
    };
    let part = Part::new(run, 0, 0);
    assert!(rt; part.text() == "");
    let mut parts = Items::new(rt.alloc());
    parts.push(part)?;
    let mut lines = Items::new(rt.alloc());
    lines.push(Line {
        x: 1,
        down: 2,
        height: 14000,
        parts,
    })?;
    let page = Page { number: 1, lines };
    let same = page.copy(rt.alloc())?;
    assert!(rt; format!(in rt.alloc(); "{same:?}")? == format!(in rt.alloc(); "{page:?}")?);
    Ok(())
}
