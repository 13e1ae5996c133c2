use crate::{BadValue, Length, read_color, read_length, read_number, read_whole, trimmed};

#[test]
fn reads_lengths(rt: HostRuntime) {
    let table = [
        // The units: 1in is 72pt, 1pc is 12pt, 1in is 2.54cm, 1cm is 10mm.
        ("12pt", Length::Points(12_000)),
        ("1pc", Length::Points(12_000)),
        ("1in", Length::Points(72_000)),
        ("2.54cm", Length::Points(72_000)),
        ("25.4mm", Length::Points(72_000)),
        // 72 / 25.4 pt is 2.83464.. pt.
        ("1mm", Length::Points(2_834)),
        ("-1mm", Length::Points(-2_834)),
        ("1.5em", Length::Em(1_500_000)),
        ("50%", Length::Percent(50_000_000)),
        ("-0.000001%", Length::Percent(-1)),
        // The forms of a number.
        ("1.pt", Length::Points(1_000)),
        (".5pt", Length::Points(500)),
        ("-.5pt", Length::Points(-500)),
        ("000012pt", Length::Points(12_000)),
        ("999999.999999pt", Length::Points(999_999_999)),
        ("0.000001pt", Length::Points(0)),
        ("-0.0009pt", Length::Points(0)),
        ("0", Length::Points(0)),
        ("  12pt ", Length::Points(12_000)),
    ];
    for (text, length) in table {
        assert_eq!(rt; read_length(text), Ok(length), "at {text}");
    }
    let bad = [
        "",
        " ",
        "pt",
        ".pt",
        "-pt",
        "1",
        "1.",
        "00",
        "0.0",
        "-0",
        "1000000pt",
        "1.0000001pt",
        "12 pt",
        "- 1pt",
        "+1pt",
        "12PT",
        "12px",
        "1.2.3pt",
        "--1pt",
        "12pt;",
        "1e2pt",
        "\t1pt",
        "１pt",
    ];
    for text in bad {
        assert_eq!(rt; read_length(text), Err(BadValue), "at {text}");
    }
}

#[test]
fn reads_colors(rt: HostRuntime) {
    let table = [
        ("black", 0x00_0000),
        ("silver", 0xc0_c0c0),
        ("gray", 0x80_8080),
        ("white", 0xff_ffff),
        ("maroon", 0x80_0000),
        ("red", 0xff_0000),
        ("purple", 0x80_0080),
        ("fuchsia", 0xff_00ff),
        ("green", 0x00_8000),
        ("lime", 0x00_ff00),
        ("olive", 0x80_8000),
        ("yellow", 0xff_ff00),
        ("navy", 0x00_0080),
        ("blue", 0x00_00ff),
        ("teal", 0x00_8080),
        ("aqua", 0x00_ffff),
        ("#AbC", 0xaa_bbcc),
        ("#12aBc9", 0x12_abc9),
        ("rgb(0,127,255)", 0x00_7fff),
        ("rgb(000000001,2,3)", 0x01_0203),
        (" red  ", 0xff_0000),
    ];
    for (text, color) in table {
        assert_eq!(rt; read_color(text), Ok(color), "at {text}");
    }
    let bad = [
        "",
        "Red",
        "grey",
        "#",
        "#ab",
        "#abcd",
        "#abcdefa",
        "#abg",
        "#+12345",
        "rgb(0, 1,2)",
        "rgb(256,0,0)",
        "rgb(0,1)",
        "rgb(0,1,2,3)",
        "rgb(0,1,2",
        "rgb(,1,2)",
        "rgb (0,1,2)",
        "rgb(0%,1%,2%)",
        "rgb(-1,0,0)",
        "rgb(0000000001,2,3)",
    ];
    for text in bad {
        assert_eq!(rt; read_color(text), Err(BadValue), "at {text}");
    }
}

#[test]
fn reads_whole_numbers(rt: HostRuntime) {
    for (text, number) in [
        ("0", 0),
        ("007", 7),
        (" 42 ", 42),
        ("999999999", 999_999_999),
    ] {
        assert_eq!(rt; read_whole(text), Ok(number), "at {text}");
    }
    for text in [
        "",
        " ",
        "-1",
        "+1",
        "1.0",
        "1 2",
        "1000000000",
        "0000000001",
        "0x1",
        "١",
    ] {
        assert_eq!(rt; read_whole(text), Err(BadValue), "at {text}");
    }
}

/// Numbers in millionths, from the form of XSL 1.1, 5.9.11, with a minus sign.
const NUMBERS: &[(&str, Result<i64, BadValue>)] = &[
    ("1.5", Ok(1_500_000)),
    (" -2 ", Ok(-2_000_000)),
    (".000001", Ok(1)),
    ("7.", Ok(7_000_000)),
    ("-0", Ok(0)),
    ("999999.999999", Ok(999_999_999_999)),
    ("", Err(BadValue)),
    (".", Err(BadValue)),
    ("+1", Err(BadValue)),
    ("1pt", Err(BadValue)),
    ("1.0000001", Err(BadValue)),
    ("1000000", Err(BadValue)),
];

#[test]
fn reads_numbers(rt: HostRuntime) {
    for (text, number) in NUMBERS {
        assert_eq!(rt; read_number(text), *number, "at {text}");
    }
}

#[test]
fn trims_spaces_alone(rt: HostRuntime) {
    assert_eq!(rt; trimmed("  a b "), "a b");
    assert_eq!(rt; trimmed("\ta "), "\ta");
    assert_eq!(rt; trimmed("   "), "");
}
