ghost use Rattle.std.specs.Prelude.{◌≡◌, map, true, false, IfOk, IfSome, IfNone};
ghost use Rattle.result_origin.specs.Parts.{marks_in};
ghost use Rattle.result_origin.specs.Items.{part_of};
ghost use Rattle.simple_pages.specs.Groups.{is_root, is_root_name, within_first, up_to_end};
ghost use Rattle.simple_pages.specs.Pages.{pages_of};

use crate::groups::{group_lines, one_line};
use result_origin::{Fragment, Item, Page};
use serna_kinds::{Items, NameId, NameTable, NoMemory};
use std::alloc::Global;

/// Formatting objects (XSL 1.1, section 6).
const FO_URI: &str = "http://www.w3.org/1999/XSL/Format";

/// The pages of a result, and whether it begins with `fo:root`.
#[derive(Debug, Drop)]
pub struct Laid {
    pub pages: Items<Page>,
    pub rooted: bool,
}

/// The pages of a result, before there is layout: one page. Where the first thing that it says is the start of `fo:root`, each
/// longest group of neighbouring runs in it is a line; else all runs outside attributes make one line. Holes say nothing.
pub fn lay_out(alloc: Global, whole: &Fragment, names: &NameTable) -> Result<Laid, NoMemory>
    ensures pages { IfOk result (λ laid. laid.pages ≡ pages_of names.now (marks_in whole.now)) }
    ensures rooted { IfOk result (λ laid. laid.rooted ≡ is_root names.now (marks_in whole.now)) }
{
    let mut pages = Items::new(alloc);
    match within_root(whole.items(), names) {
        Some(rest) => {
            let lines = group_lines(alloc, rest)?;
            pages.push(Page { number: 1, lines })?;
            Ok(Laid {
                pages,
                rooted: true,
            })
        }
        None => {
            let lines = one_line(alloc, whole.items())?;
            pages.push(Page { number: 1, lines })?;
            Ok(Laid {
                pages,
                rooted: false,
            })
        }
    }
}

/// The items behind the start of `fo:root`, where it is the first thing that items say.
fn within_root<'a>(items: &'a [Item], names: &NameTable) -> Option<&'a [Item]>
    ensures root { IfSome result (λ rest. is_root names.now (marks_in (map part_of items.now)) ≡ true) }
    ensures within { IfSome result (λ rest. within_first (marks_in (map part_of items.now)) ≡ up_to_end 0 (marks_in (map part_of rest.now))) }
    ensures other { IfNone result (is_root names.now (marks_in (map part_of items.now)) ≡ false) }
{
    let mut rest = items;
    while let [first, behind @ ..] = rest {
        match first {
            Item::Hole(_) => rest = behind,
            Item::Begin(name, _) if is_root_name(*name, names) => return Some(behind),
            Item::Begin(_, _) | Item::Run(_, _) | Item::Attr(_) | Item::AttrEnd | Item::Finish => {
                return None;
            }
        }
    }
    None
}

fn is_root_name(id: NameId, names: &NameTable) -> bool
    ensures { result ≡ is_root_name names.now id }
{
    match names.name(id) {
        Some(name) => name.uri == FO_URI && name.local == "root",
        None => false,
    }
}
