//! Tables of tests of expressions, patterns and values, by what the crates xpath_syntax, xpath_writer and xpath_values offer. They
//! stand in a crate of their own, since a crate with tests is proved a second time with them.
#![tactic(auto)]

#[cfg(test)]
mod expressions;
#[cfg(test)]
mod patterns;
#[cfg(test)]
mod trees;
#[cfg(test)]
mod values;
