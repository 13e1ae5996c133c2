//! Worked values of the recommendation, and that calls which take memory succeed.
ghost use Rattle.std.specs.Prelude.{length};
ghost use Rattle.xpath_values.specs.Calls.{TakesArguments};

use super::*;
use serna_kinds::{Chars, CompareOp, Items, NameId, NoMemory, NodeName, NodeRef, TextFunction};
use std::alloc::Global;
use std::process::Abort;
use std::test::Fail;

// Texts, and the numbers that they spell.
const NUMERALS: [(&str, Num); 15] = [
    ("12", Num::Whole(12)),
    (" \t12\r\n", Num::Whole(12)),
    ("-0", Num::Whole(0)),
    ("-7", Num::Whole(-7)),
    ("007", Num::Whole(7)),
    ("999999999999999", Num::Whole(999_999_999_999_999)),
    ("1000000000000000", Num::NaN),
    ("0000000000000001", Num::NaN),
    ("+1", Num::NaN),
    ("1.5", Num::NaN),
    ("- 1", Num::NaN),
    ("1 2", Num::NaN),
    ("-", Num::NaN),
    ("", Num::NaN),
    ("\u{663}", Num::NaN),
];

#[test]
fn reads_numbers(rt: HostRuntime) {
    for (text, want) in NUMERALS {
        assert!(rt; to_number(text) == want, "at {text}");
    }
}

// Numbers, and their texts.
const TEXTS: [(Num, &str); 3] = [
    (Num::NaN, "NaN"),
    (Num::Whole(-12), "-12"),
    (Num::Whole(0), "0"),
];

#[test]
fn writes_numbers(rt: HostRuntime) -> Result<(), Fail> {
    for (number, want) in TEXTS {
        let text = number_text(rt.alloc(), number)?;
        assert!(rt; text.as_text() == want);
    }
    assert!(rt; truth_text(true) == "true");
    assert!(rt; truth_text(false) == "false");
    Ok(())
}

// Two numbers, and their sum, difference, product and remainder.
const SUMS: [[Num; 6]; 7] = [
    [
        Num::Whole(5),
        Num::Whole(-2),
        Num::Whole(3),
        Num::Whole(7),
        Num::Whole(-10),
        Num::Whole(1),
    ],
    [
        Num::Whole(-5),
        Num::Whole(2),
        Num::Whole(-3),
        Num::Whole(-7),
        Num::Whole(-10),
        Num::Whole(-1),
    ],
    [
        Num::Whole(1),
        Num::Whole(0),
        Num::Whole(1),
        Num::Whole(1),
        Num::Whole(0),
        Num::NaN,
    ],
    [
        Num::Whole(999_999_999_999_999),
        Num::Whole(1),
        Num::NaN,
        Num::Whole(999_999_999_999_998),
        Num::Whole(999_999_999_999_999),
        Num::Whole(0),
    ],
    [
        Num::Whole(-999_999_999_999_999),
        Num::Whole(2),
        Num::Whole(-999_999_999_999_997),
        Num::NaN,
        Num::NaN,
        Num::Whole(-1),
    ],
    [
        Num::Whole(i64::MIN),
        Num::Whole(-1),
        Num::NaN,
        Num::NaN,
        Num::NaN,
        Num::Whole(0),
    ],
    [
        Num::Whole(1),
        Num::NaN,
        Num::NaN,
        Num::NaN,
        Num::NaN,
        Num::NaN,
    ],
];

#[test]
fn computes(rt: HostRuntime) {
    for [left, right, sum, difference, product, remainder] in SUMS {
        assert!(rt; left + right == sum);
        assert!(rt; left - right == difference);
        assert!(rt; left * right == product);
        assert!(rt; left % right == remainder);
    }
    assert!(rt; -Num::Whole(3) == Num::Whole(-3));
    assert!(rt; Num::Whole(-3).floor() == Num::Whole(-3));
    assert!(rt; Num::Whole(3).ceiling() == Num::Whole(3));
    assert!(rt; Num::NaN.round() == Num::NaN);
    assert!(rt; Num::from(true) == Num::Whole(1));
}

// An operand of each kind, by its number.
fn operand(alloc: Global, kind: usize) -> Result<Operand, NoMemory> {
    let mut texts = Items::new(alloc);
    match kind {
        0 => Ok(Operand::Nodes(texts)),
        1 => {
            texts.push(Chars::from_text(alloc, "a")?)?;
            texts.push(Chars::from_text(alloc, "2")?)?;
            Ok(Operand::Nodes(texts))
        }
        2 => Ok(Operand::Text(Chars::from_text(alloc, "2")?)),
        3 => Ok(Operand::Number(Num::Whole(2))),
        4 => Ok(Operand::Number(Num::NaN)),
        5 => Ok(Operand::Truth(true)),
        _ => Ok(Operand::Truth(false)),
    }
}

// The kinds of two operands, and a bit for each of =, !=, <, <=, > and >= that holds of them. By the section on
// comparisons: 0 has no node, 1 is the nodes a and 2, and the others are 2 as a text, 2, NaN, true and false.
const COMPARISONS: [(usize, usize, u8); 24] = [
    (0, 0, 0b000000),
    (0, 1, 0b000000),
    (0, 2, 0b000000),
    (0, 3, 0b000000),
    (0, 4, 0b000000),
    (0, 5, 0b011100),
    (0, 6, 0b100101),
    (1, 1, 0b110101),
    (1, 2, 0b110101),
    (1, 3, 0b110101),
    (1, 4, 0b010000),
    (1, 5, 0b100101),
    (1, 6, 0b010011),
    (2, 2, 0b100101),
    (2, 3, 0b100101),
    (2, 4, 0b010000),
    (2, 5, 0b100011),
    (3, 3, 0b100101),
    (3, 4, 0b010000),
    (3, 6, 0b010011),
    (4, 4, 0b010000),
    (4, 5, 0b010000),
    (4, 6, 0b100000),
    (5, 6, 0b010011),
];

// The comparisons in the order of the bits, and each with its sides changed.
const OPS: [(CompareOp, CompareOp); 6] = [
    (CompareOp::Equal, CompareOp::Equal),
    (CompareOp::NotEqual, CompareOp::NotEqual),
    (CompareOp::Less, CompareOp::Greater),
    (CompareOp::LessOrEqual, CompareOp::GreaterOrEqual),
    (CompareOp::Greater, CompareOp::Less),
    (CompareOp::GreaterOrEqual, CompareOp::LessOrEqual),
];

// Asks each comparison of two operands, and the turned ones of them with their sides changed.
fn compare_all(rt: &impl Abort, left: &Operand, right: &Operand, wants: u8) {
    let mut rest = wants;
    for (op, turned) in OPS {
        let want = rest / 32 % 2 == 1;
        assert!(rt; compare(op, left, right) == want);
        assert!(rt; compare(turned, right, left) == want);
        rest = rest % 32 * 2;
    }
}

#[test]
fn compares_each_pair_of_kinds(rt: HostRuntime) -> Result<(), Fail> {
    for (left, right, wants) in COMPARISONS {
        let left = operand(rt.alloc(), left)?;
        let right = operand(rt.alloc(), right)?;
        compare_all(&rt, &left, &right.copy(rt.alloc())?, wants);
    }
    Ok(())
}

// The value of a call.
fn called(
    alloc: Global,
    function: TextFunction,
    texts: &[&str],
    numbers: &[Num],
) -> Result<Value, NoMemory>
    requires { TakesArguments function (length texts.now) (length numbers.now) }
{
    let mut arguments = Vec::new(alloc);
    for text in texts {
        arguments.push(Chars::from_text(alloc, text)?)?;
    }
    call_text(alloc, function, &arguments, numbers)
}

// Is the value that text?
fn is_text(value: &Value, want: &str) -> bool {
    match value {
        Value::Text(text) => text.as_text() == want,
        _ => false,
    }
}

// A text and another, the text before and after the first place of the other, and whether it has one.
const CUTS: [([&str; 2], &str, &str, bool); 5] = [
    (["1999/04/01", "/"], "1999", "04/01", true),
    (["aab", "ab"], "a", "", true),
    (["ßéa", "é"], "ß", "a", true),
    (["abc", ""], "", "abc", true),
    (["abc", "d"], "", "", false),
];

#[test]
fn cuts_texts(rt: HostRuntime) -> Result<(), Fail> {
    for (texts, before, after, contains) in CUTS {
        let value = called(rt.alloc(), TextFunction::Contains, &texts, &[])?;
        assert!(rt; to_truth(&value) == contains);
        let value = called(rt.alloc(), TextFunction::SubstringBefore, &texts, &[])?;
        assert!(rt; is_text(&value, before));
        let value = called(rt.alloc(), TextFunction::SubstringAfter, &texts, &[])?;
        assert!(rt; is_text(&value, after));
    }
    Ok(())
}

// A text, a start and a count, and the characters there.
const PARTS: [(&str, [Num; 2], &str); 8] = [
    ("12345", [Num::Whole(2), Num::Whole(3)], "234"),
    ("12345", [Num::Whole(0), Num::Whole(3)], "12"),
    ("12345", [Num::Whole(-42), Num::Whole(50)], "12345"),
    ("12345", [Num::Whole(4), Num::Whole(9)], "45"),
    ("12345", [Num::Whole(2), Num::Whole(-1)], ""),
    ("12345", [Num::NaN, Num::Whole(3)], ""),
    ("12345", [Num::Whole(1), Num::NaN], ""),
    ("ßéa", [Num::Whole(2), Num::Whole(1)], "é"),
];

// A start, and what a text of three characters has from there on.
const TAILS: [(Num, &str); 3] = [
    (Num::Whole(2), "éa"),
    (Num::Whole(-3), "ßéa"),
    (Num::NaN, ""),
];

#[test]
fn takes_substrings(rt: HostRuntime) -> Result<(), Fail> {
    for (text, numbers, want) in PARTS {
        let value = called(rt.alloc(), TextFunction::Substring, &[text], &numbers)?;
        assert!(rt; is_text(&value, want), "in {text}");
    }
    for (start, want) in TAILS {
        let value = called(rt.alloc(), TextFunction::Substring, &["ßéa"], &[start])?;
        assert!(rt; is_text(&value, want));
    }
    Ok(())
}

// The arguments of `translate`, and its value.
const TRANSLATIONS: [([&str; 3], &str); 4] = [
    (["bar", "abc", "AB"], "BAr"),
    (["--aaa--", "abc-", "ABC"], "AAA"),
    (["aa", "aa", "xy"], "xx"),
    (["éß", "ß", "é"], "éé"),
];

// Texts, and their words with one space between each two.
const WORDS: [(&str, &str); 4] = [
    ("\t a\r\n b  ", "a b"),
    (" ", ""),
    ("a", "a"),
    ("\u{a0}é", "\u{a0}é"),
];

#[test]
fn changes_texts(rt: HostRuntime) -> Result<(), Fail> {
    for (texts, want) in TRANSLATIONS {
        let value = called(rt.alloc(), TextFunction::Translate, &texts, &[])?;
        assert!(rt; is_text(&value, want));
    }
    for (text, want) in WORDS {
        let value = called(rt.alloc(), TextFunction::NormalizeSpace, &[text], &[])?;
        assert!(rt; is_text(&value, want));
    }
    Ok(())
}

// A text, another, and whether the text begins with that.
const BEGINNINGS: [([&str; 2], bool); 3] = [
    (["éa", "é"], true),
    (["éa", "a"], false),
    (["", ""], true),
];

#[test]
fn joins_and_counts(rt: HostRuntime) -> Result<(), Fail> {
    let value = called(rt.alloc(), TextFunction::Concat, &["a", "é", "b"], &[])?;
    assert!(rt; is_text(&value.copy(rt.alloc())?, "aéb"));
    let value = called(rt.alloc(), TextFunction::StringLength, &["aéb"], &[])?;
    assert!(rt; matches!(value, Value::Number(Num::Whole(3))));
    for (texts, want) in BEGINNINGS {
        let value = called(rt.alloc(), TextFunction::StartsWith, &texts, &[])?;
        assert!(rt; to_truth(&value) == want);
    }
    Ok(())
}

#[test]
fn knows_truths(rt: HostRuntime) -> Result<(), Fail> {
    let alloc = rt.alloc();
    let mut nodes = Items::new(alloc);
    assert!(rt; !to_truth(&Value::Nodes(Items::new(alloc))));
    nodes.push(NodeRef::Node(NodeName(1)))?;
    let binding = Binding {
        name: NameId(0),
        value: Value::Nodes(nodes),
    };
    assert!(rt; to_truth(&binding.copy(alloc)?.value));
    for (number, want) in [
        (Num::NaN, false),
        (Num::Whole(0), false),
        (Num::Whole(-1), true),
    ] {
        assert!(rt; to_truth(&Value::Number(number)) == want);
    }
    Ok(())
}

// The texts of three nodes, and their sum. The third sum is past 15 digits on the way, and its total is not.
const TOTALS: [([&str; 3], Num); 4] = [
    (["1", " 2 ", "3"], Num::Whole(6)),
    (["1", "x", "3"], Num::NaN),
    (
        ["999999999999999", "999999999999999", "-999999999999999"],
        Num::Whole(999_999_999_999_999),
    ),
    (["999999999999999", "1", "0"], Num::NaN),
];

#[test]
fn adds_up_texts(rt: HostRuntime) -> Result<(), Fail> {
    for (texts, want) in TOTALS {
        let mut nodes = Vec::new(rt.alloc());
        for text in texts {
            nodes.push(Chars::from_text(rt.alloc(), text)?)?;
        }
        assert!(rt; sum(&nodes) == want);
    }
    Ok(())
}
