use serna_kinds::{NameId, NodeName, NodeRef};

/// Where what is shown comes from.
#[derive(Clone, Copy, Debug)]
pub enum Origin {
    /// A text of the source, from so many bytes behind its start.
    Text(NodeName, usize),
    /// The value of an attribute of the source, from so many bytes behind its start.
    Attr(NodeName, NameId, usize),
    /// An element of the source without children, into which text can be typed.
    Into(NodeName),
    /// The text of the rule of this number.
    Fixed(u32),
    /// A value that the rule of this number computed, the node being the current one.
    Computed(u32, NodeRef),
}
