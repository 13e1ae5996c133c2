//! The machine that reads expressions from lists of tokens (XPath 1.0, section 3).
#![tactic(auto)]

mod closing;
mod ending;
mod state;
pub mod step;
mod wanted;

pub use closing::put_together;
pub use ending::end_predicate;
pub use serna_kinds::NoMemory;
pub use state::{Pending, Place, State};
pub use wanted::{is_close, is_colons, is_open};
pub use xpath_grammar::{Chain, Level, Operand, Path};
