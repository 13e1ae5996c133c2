ghost use Rattle.std.specs.Prelude.{◌≡◌};

use serna_kinds::NoMemory;

/// The rules of tree lines, in the order in which they are tried at a line.
#[derive(Clone, Copy, Debug, PartialEq, Eq)]
pub enum LineRule {
    /// A line that is not UTF-8 or has a character that may not stand in it, with another first letter, an attribute in
    /// another place or without its space, or text outside the outermost element.
    BadLine,
    /// A name that is none.
    BadName,
    /// A backslash with another character behind it, or at the line's end.
    BadEscape,
    /// An element that does not end.
    Unclosed,
    /// An end that is not the innermost element's.
    WrongClose,
    /// A second element beside the outermost one.
    TwoRoots,
    /// Two attributes of one element that are written alike or have the same URI and local name, or a prefix that is declared
    /// twice. An attribute whose prefix is not declared has no URI.
    DuplicateAttribute,
    /// An element that 120 others hold.
    TooDeep,
    /// A node past 1,000,000.
    TooManyNodes,
    /// A text or an attribute's value of more than 16,384 bytes.
    TextTooLong,
    /// A prefix that the outermost element does not declare, or that it declares with an empty URI.
    UnboundPrefix,
    /// A namespace that another element than the outermost one declares.
    InnerNamespace,
    /// Lines without an element.
    NoElement,
}

/// Why lines were not read: the number of the line that breaks a rule first (0 for `NoElement`) and the rule, or want of
/// memory.
#[derive(Clone, Copy, Debug, PartialEq, Eq)]
pub enum LineFault {
    Refused(u32, LineRule),
    NoMemory,
}

impl From<NoMemory> for LineFault {
    ghost use Rattle.tree_lines.specs.declared.rules.LineFault.TheVariants.{NoMemory};

    ghost from_gives = { λ _ e. e ≡ NoMemory };

    fn from(_e: NoMemory) -> LineFault {
        LineFault::NoMemory
    }
}
