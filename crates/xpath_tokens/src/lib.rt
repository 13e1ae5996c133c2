//! The tokens of expressions and patterns (XPath 1.0, section 3.7), what each is to the grammar, and the faults that tokens have
//! by themselves.
#![tactic(auto)]

mod faults;
mod laws;
mod stack;
mod symbol;
mod symbols;
mod tokens;
mod words;

pub use faults::{ExprRule, ReadAs, fault_among};
pub use laws::{tokens_are_longest, tokens_make_up_the_text, wrong_where_none_stands};
pub use serna_kinds::NoMemory;
pub use stack::Stack;
pub use symbol::{Operator, Symbol};
pub use symbols::symbols_at;
pub use tokens::{Kind, Token, tokens_of};
pub use words::uri_in;
