//! The grammar of expressions (XPath 1.0, sections 2 and 3): which tokens stand for which tree, and the parts of which trees are
//! put together.
#![tactic(auto)]

mod operand;
mod parts;

pub use operand::{Chain, Level, Operand, Path};
pub use parts::{
    begun, chained, from_root, here, level_of, longer, once_more, operand_tree, path_behind, rank,
    step_of, whole, with_descendants, with_step,
};
pub use serna_kinds::NoMemory;
