ghost use Rattle.std.specs.Prelude.{◌≡◌, ◌++◌, IfOk, OnOk, encode_utf8_all};
ghost use Rattle.std.specs.List.{flat_map};
ghost use Rattle.std.specs.String.{string_bytes};
ghost use Rattle.page_print.specs.Print.{page_text, pages_text, line_shown, plain_line};

use crate::lines::{push_lines, push_parts};
use result_origin::{Line, Page};
use serna_kinds::{Chars, NoMemory};
use std::alloc::Global;

/// The text of pages: `page N`, then each line as `line K X Y TEXT`, X and Y in millipoints from the page's corner, and behind
/// it a line `face A B SIZE WEIGHT STYLE COLOUR GROUND` for each part that is not plain 12pt black. Each line ends in LF.
pub fn page_text(alloc: Global, pages: &[Page]) -> Result<Chars, NoMemory>
    ensures { IfOk result (λ text. encode_utf8_all text ≡ pages_text pages.now) }
{
    let mut out = String::new(alloc);
    for page in pages {
        push_page(alloc, &mut out, page)?;
    }
    Chars::from_string(out)
}

/// Adds a page: the line of its number, and its lines.
fn push_page(alloc: Global, out: &mut String, page: &Page) -> Result<(), NoMemory>
    ensures { OnOk result (string_bytes out.new ≡ string_bytes out.old ++ page_text page.now) }
{
    let number = page.number;
    let head = format!(in alloc; "page {number}\n")?;
    out.push_str(head.as_str())?;
    push_lines(alloc, out, page.lines.as_slice())
}

/// The text of pages that are printed as one line: `plain` and what their lines show, one after another, a tab and LF as a space.
/// It ends in LF.
pub fn plain_text(alloc: Global, pages: &[Page]) -> Result<Chars, NoMemory>
    ensures { IfOk result (λ text. encode_utf8_all text ≡ plain_line pages.now) }
{
    let mut out = String::from_str(alloc, "plain ")?;
    for page in pages {
        push_shown(&mut out, page.lines.as_slice())?;
    }
    out.push_str("\n")?;
    Chars::from_string(out)
}

/// Adds what lines show.
fn push_shown(out: &mut String, lines: &[Line]) -> Result<(), NoMemory>
    ensures { OnOk result (string_bytes out.new ≡ string_bytes out.old ++ flat_map line_shown lines.now) }
{
    for line in lines {
        push_parts(out, line.parts.as_slice())?;
    }
    Ok(())
}
