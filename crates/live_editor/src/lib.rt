//! The editor in memory: one source, a caret and the stops of the last view. It obeys command lines.
#![tactic(auto)]

mod command;
mod editor;
mod place;
mod reply;
mod view;

pub use command::is_plain;
pub use editor::Editor;
