use super::*;
use std::process::Abort;
use std::test::Fail;

/// In each row a text, its cluster boundaries by the rules of UAX 29, and the columns of its clusters: those
/// of the widest character by East_Asian_Width (UAX 11), where marks, joiners and other format characters
/// have none, and a flag is a wide emoji.
const ROWS: [(&str, &[usize], &[usize]); 12] = [
    ("", &[0], &[]),
    ("a b", &[0, 1, 2, 3], &[1, 1, 1]),
    // Controls break on both sides (GB4, GB5).
    ("\t\n", &[0, 1, 2], &[1, 1]),
    // A combining acute accent joins the letter before it (GB9).
    ("e\u{301}", &[0, 3], &[1]),
    // Where it begins a text there is no letter to join (GB1).
    ("\u{301}x", &[0, 2, 3], &[0, 1]),
    // A leading consonant, a vowel and a trailing consonant are a syllable (GB6, GB7), which is wide.
    ("\u{1112}\u{1161}\u{11AB}", &[0, 9], &[2]),
    // Regional indicators pair up from the start (GB12, GB13).
    ("\u{1F1FA}\u{1F1F8}", &[0, 8], &[2]),
    ("\u{1F1FA}\u{1F1F8}\u{1F1FA}", &[0, 8, 12], &[2, 1]),
    // A family: pictographs with joiners between them (GB11).
    (
        "\u{1F468}\u{200D}\u{1F469}\u{200D}\u{1F467}",
        &[0, 18],
        &[2],
    ),
    // A carriage return and a line feed stay together (GB3).
    ("\r\n", &[0, 2], &[1]),
    ("a\u{65E5}", &[0, 1, 4], &[1, 2]),
    // A zero width space is a control (GB5).
    ("a\u{200B}", &[0, 1, 4], &[1, 0]),
];

/// Compares the clusters of a text, one by one, with the boundaries round them and their columns.
fn check_clusters(rt: &impl Abort, text: &str, boundaries: &[usize], widths: &[usize]) {
    let mut starts = boundaries.iter();
    let mut expected = widths.iter();
    let mut start = 0usize;
    for cluster in clusters(text) {
        assert_eq!(rt;
            expected.next().copied(),
            Some(columns(cluster)),
            "columns in {text:?}"
        );
        assert_eq!(rt; starts.next().copied(), Some(start), "start in {text:?}");
        start = start.saturating_add(cluster.len());
    }
    assert_eq!(rt; expected.next().copied(), None, "clusters of {text:?}");
    assert_eq!(rt; starts.next().copied(), Some(start), "end of {text:?}");
}

/// Compares what is nearest to each place of a text with the nearest of its boundaries.
fn check_stops(rt: &impl Abort, text: &str, boundaries: &[usize]) {
    for at in 0..=text.len() {
        if text.is_char_boundary(at) {
            let next = boundaries.iter().copied().find(|b| *b > at);
            let prev = boundaries.iter().copied().rev().find(|b| *b < at);
            let here = boundaries.iter().copied().find(|b| *b >= at);
            assert_eq!(rt; next_stop(text, at), next, "after {at} in {text:?}");
            assert_eq!(rt; prev_stop(text, at), prev, "before {at} in {text:?}");
            assert_eq!(rt; Some(snap(text, at)), here, "from {at} in {text:?}");
        }
    }
}

#[test]
fn units_of_texts(rt: HostRuntime) {
    for (text, boundaries, widths) in ROWS {
        check_clusters(&rt, text, boundaries, widths);
        check_stops(&rt, text, boundaries);
    }
}

#[test]
fn a_clone_goes_on_from_the_same_cluster(rt: HostRuntime) -> Result<(), Fail> {
    let mut rest = clusters("e\u{301}\u{65E5}x");
    assert_eq!(rt; rest.next(), Some("e\u{301}"));
    assert_eq!(rt; rest.clone()?.next(), Some("\u{65E5}"));
    assert_eq!(rt; rest.next(), Some("\u{65E5}"));
    Ok(())
}

#[test]
fn laws_may_be_called() {
    laws::clusters_make_up_the_text();
    laws::boundaries_rise_from_start_to_end();
    laws::boundaries_follow_the_rules();
    laws::boundaries_count_clusters();
    laws::a_step_passes_one_cluster();
    laws::a_step_leads_back();
    laws::the_nearest_is_one();
    laws::a_boundary_stays();
    laws::columns_fit_two_to_a_byte();
}
