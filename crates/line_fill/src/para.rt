//! What lines are made of.
ghost use Rattle.std.specs.Prelude.{◌≡◌, IfOk};

use result_origin::Run;
use serna_kinds::{Items, NoMemory};
use std::alloc::Global;

/// At which side of its space the text of a line stands (XSL 1.1, 7.16.9 text-align).
#[derive(Clone, Copy, Debug, PartialEq, Eq)]
pub enum Align {
    Start,
    Center,
    End,
}

/// A paragraph: neighbouring runs that are set into lines together. All lengths are in millipoints.
#[derive(Debug, Drop)]
pub struct Para {
    pub runs: Items<Run>,
    /// The space for a line: what the indents at both sides leave of the reference width.
    pub width: i64,
    /// Where a line begins, from the left of the reference area.
    pub left: i64,
    /// How much further the first line begins, which may be less than 0 (XSL 1.1, 7.16.11 text-indent).
    pub indent: i64,
    pub align: Align,
    /// The least height of a line (XSL 1.1, 7.16.4 line-height).
    pub line_height: i64,
}

impl Para {
    /// The same paragraph, in memory of its own; its texts are shared, as `Run::copy` does.
    pub fn copy(&self, alloc: Global) -> Result<Para, NoMemory>
        ensures { IfOk result (λ same. same ≡ self.now) }
    {
        let mut runs = Items::new(alloc);
        for run in self.runs.as_slice() {
            runs.push(run.copy()?)?;
        }
        Ok(Para {
            runs,
            width: self.width,
            left: self.left,
            indent: self.indent,
            align: self.align,
            line_height: self.line_height,
        })
    }
}
