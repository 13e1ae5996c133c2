//! The shapes of a group, and its nodes in a list.

/// How the parts of a group are joined (XML 1.0, section 3.2.1).
#[derive(Clone, Copy, Debug)]
pub enum Separator {
    /// `,`: one part after another.
    Sequence,
    /// `|`: one of the parts.
    Choice,
}

/// How often a part may stand there (XML 1.0, section 3.2.1). A part without a sign stands once.
#[derive(Clone, Copy, Debug)]
pub enum Occurrence {
    /// `?`: once or not at all.
    Optional,
    /// `*`: any number of times.
    ZeroOrMore,
    /// `+`: once or more.
    OneOrMore,
}

/// A node of a group's tree. A tree is kept as the list of its nodes, each behind those of its parts, the left part first.
#[derive(Clone, Copy, Debug)]
pub enum Node {
    /// A child of this symbol.
    Name(u64),
    /// The left part, then the right one, and of each whether it allows no children at all.
    Sequence(bool, bool),
    /// One of the two parts.
    Choice,
    /// The one part, so often.
    Repeated(Occurrence),
}
