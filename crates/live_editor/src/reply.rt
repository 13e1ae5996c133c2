ghost use Rattle.std.specs.Prelude.{◌≡◌, ◌++◌, ◌∷◌, [], IfOk};
ghost use Rattle.std.specs.String.{string_bytes};
ghost use Rattle.plain_editor.specs.Editor.{Told, rule_word, place_words, standing_words, reply_text};
ghost use Rattle.live_editor.specs.Answers.{rule_of, reply_of, standing_of};

use serna_kinds::NoMemory;
use source_primitives::CaretPlace;
use std::alloc::Global;

/// Why a command is refused.
#[derive(Clone, Copy, Debug, PartialEq, Eq)]
pub(crate) enum Rule {
    /// The line is of a form that is not built, or of none.
    NotBuilt,
    /// Nothing was shown yet.
    NoView,
    /// No stop stands there.
    NoPlace,
    /// What stands there is the text of a rule.
    FixedText,
    /// What stands there was computed by a rule.
    ComputedText,
    /// What stands there is the value of an attribute.
    AttributeText,
    /// The node of what was seen there is no longer in the source.
    Gone,
    /// There is no caret.
    NoCaret,
    /// A text node would have more than 16,384 bytes.
    Long,
    /// More than 1,000,000 nodes would be made.
    Nodes,
    /// 50,000 changes were accepted.
    Revisions,
}

impl Rule {
    /// The name by which a refusal is printed.
    fn word(self) -> &'static str
        ensures { result.now ≡ rule_word (rule_of self) }
    {
        match self {
            Rule::NotBuilt => "not-built",
            Rule::NoView => "no-view",
            Rule::NoPlace => "no-place",
            Rule::FixedText => "fixed",
            Rule::ComputedText => "computed",
            Rule::AttributeText => "attribute",
            Rule::Gone => "gone",
            Rule::NoCaret => "no-caret",
            Rule::Long => "long",
            Rule::Nodes => "nodes",
            Rule::Revisions => "revisions",
        }
    }
}

/// The line that a command other than `show` is answered, with its LF.
pub(crate) fn reply_line(alloc: Global, answer: Result<(), Rule>) -> Result<String, NoMemory>
    ensures { IfOk result (λ line. string_bytes line ≡ reply_text (reply_of answer)) }
{
    match answer {
        Ok(()) => {
            let line = String::from_str(alloc, "ok\n")?;
            Ok(line)
        }
        Err(rule) => {
            let mut line = String::from_str(alloc, "refused ")?;
            line.push_str(rule.word())?;
            line.push('\n')?;
            Ok(line)
        }
    }
}

/// Where a caret stands.
#[derive(Clone, Copy, Debug, PartialEq, Eq)]
pub(crate) enum Standing {
    /// A change was accepted since the last show.
    Stale,
    /// The last view has no stop at the caret's place.
    Hidden,
    /// On a page, a line of it, and a column of that.
    Shown(usize, usize, usize),
}

/// The line that `where` is answered, with its LF.
pub(crate) fn told_line(
    alloc: Global,
    place: CaretPlace,
    standing: Standing,
) -> Result<String, NoMemory>
    ensures { IfOk result (λ line. string_bytes line ≡ reply_text (Told place (standing_of standing))) }
{
    let mut line = place_words(alloc, place)?;
    let standing = standing_words(alloc, standing)?;
    line.push(' ')?;
    line.push_str(standing.as_str())?;
    line.push('\n')?;
    Ok(line)
}

/// Where a caret stands.
fn standing_words(alloc: Global, standing: Standing) -> Result<String, NoMemory>
    ensures { IfOk result (λ words. string_bytes words ≡ standing_words (standing_of standing)) }
{
    match standing {
        Standing::Stale => {
            let words = String::from_str(alloc, "stale")?;
            Ok(words)
        }
        Standing::Hidden => {
            let words = String::from_str(alloc, "hidden")?;
            Ok(words)
        }
        Standing::Shown(page, line, column) => {
            let words = format!(in alloc; "{page} {line} {column}")?;
            Ok(words)
        }
    }
}

/// The place of a caret: the number of its node, and how many bytes it is from the start of a text or that it is in an element.
fn place_words(alloc: Global, place: CaretPlace) -> Result<String, NoMemory>
    ensures { IfOk result (λ line. string_bytes line ≡ place_words place) }
{
    match place {
        CaretPlace::Text(node, at) => {
            let number = node.0;
            let words = format!(in alloc; "caret {number} {at}")?;
            Ok(words)
        }
        CaretPlace::Into(node) => {
            let number = node.0;
            let words = format!(in alloc; "caret {number} into")?;
            Ok(words)
        }
    }
}
