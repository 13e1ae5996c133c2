//! A lock over one value, whose turns form one history, and passes that know a beginning of it.
//!
//! The lock keeps one value, which has a start and a list of entries. A thread enters with its pass, changes the value,
//! notes each entry that it has added to the list, and leaves. Turns come in the order in which their tickets were drawn.
//! What a thread finds begins with all that its pass had seen, and with all that passes joined to it had seen, and the
//! value has the start that the lock was made with. The pass keeps the entries that it noted or got by a join, each with
//! its place, and no other pass has one of them.
//! Passes are split for further threads and joined when those have ended. The pass with the whole share closes the lock,
//! and its own entries are then the whole list.
//! Nothing is claimed of waiting: not that a turn comes, nor when.
#![tactic(auto)]

mod chronicle;
mod laws;
mod lock;
mod plays;
mod turn;
mod view;

pub use chronicle::Chronicle;
pub use laws::a_kind_in_a_join;
pub use lock::{NoMemory, Pass, TurnLock};
pub use turn::Turn;

#[cfg(test)]
mod tests;
