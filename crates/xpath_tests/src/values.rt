//! Values of string functions.

use serna_kinds::{Chars, TextFunction};
use std::test::Fail;
use xpath_values::{Num, Value, call_text};

/// Texts, each with its length by `string-length` (XPath 1.0, section 4.2): characters of Unicode are counted, and a combining
/// mark is one of its own.
const LENGTHS: &[(&str, i64)] = &[("", 0), ("é", 1), ("e\u{301}", 2)];

#[test]
fn counts_combining_marks(rt: HostRuntime) -> Result<(), Fail> {
    for (text, length) in LENGTHS {
        let mut texts = Vec::new(rt.alloc());
        texts.push(Chars::from_text(rt.alloc(), text)?)?;
        let counted = match call_text(rt.alloc(), TextFunction::StringLength, &texts, &[])? {
            Value::Number(Num::Whole(number)) => number,
            _ => -1,
        };
        assert_eq!(rt; counted, *length, "{text}");
    }
    Ok(())
}
