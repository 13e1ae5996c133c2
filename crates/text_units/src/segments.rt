// The iterator over the clusters of a text.
ghost use Rattle.std.specs.Prelude.{◌≡◌};
ghost use Rattle.std.specs.Iterator.{YieldsFirstBy, item_count};
ghost use Rattle.text_units.specs.Clusters.{clusters_of};

use std::marker::Model;
use unicode_segmentation::{Graphemes, UnicodeSegmentation};

/// An iterator over the extended grapheme clusters of a text (UAX 29, section 3), each a `&str` of one
/// byte or more. Clauses see it as the list of the clusters that are still to come.
#[derive(Clone, Debug, Drop)]
pub struct Clusters<'a> {
    graphemes: Graphemes<'a>,
}

impl<'a> Model for Clusters<'a> {
    ghost use Rattle.std.specs.Prelude.{ℕ, List};
    ghost use Rattle.unicode_segmentation.specs.Iter.{graphemes_left};

    ghost Value = { List (List ℕ) };

    ghost view = { λ s. graphemes_left s.graphemes };
}

impl<'a> Clusters<'a> {
    pub(crate) fn new(text: &'a str) -> Clusters<'a>
        ensures { result ≡ clusters_of text.now }
    {
        Clusters {
            graphemes: text.graphemes(true),
        }
    }
}

impl<'a> Iterator for Clusters<'a> {
    type Item = &'a str;

    ghost next_gives = { YieldsFirstBy (λ cluster. cluster.now) (λ left. left) };

    ghost remaining = { item_count (λ left. left) };

    fn next(&mut self) -> Option<&'a str> {
        self.graphemes.next()
    }

    fn size_hint(&self) -> (usize, Option<usize>) {
        self.graphemes.size_hint()
    }
}
