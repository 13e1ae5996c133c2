//! What is asked of the nodes of a source by their cells: steps of location paths, that is the nodes on an axis that a test takes, in axis
//! order (XPath 1.0, section 2.2), and document order and string-values (section 5).
#![tactic(auto)]

mod attribute_axes;
mod axes;
mod draft;
mod node_tests;
mod nodes;
mod order;
mod paths;
mod strings;
mod taken;
mod walks;

pub use axes::axis;
pub use node_tests::takes;
pub use nodes::{attributes_of, characters_of, children_of, label_of, parent_of};
pub use order::document_order;
pub use strings::string_value;

#[cfg(test)]
mod tests;
