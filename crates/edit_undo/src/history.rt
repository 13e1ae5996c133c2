//! The history of an editor: the changes that were done, and those that were undone since.

ghost use Rattle.std.specs.Prelude.{◌≡◌, ◌+◌, ◌≤◌, [], Some, OnOk, OnErr, MatchResult, slice_get, option_copied};
ghost use Rattle.std.specs.Borrow.{sem};

use crate::Change;
use serna_kinds::NoMemory;
use std::alloc::Global;
use std::marker::Model;

/// An undo was asked for, and nothing is done that could be taken back.
#[derive(Clone, Copy, Debug, PartialEq, Eq)]
pub struct NothingToUndo;

/// A redo was asked for, and nothing was undone since the last change.
#[derive(Clone, Copy, Debug, PartialEq, Eq)]
pub struct NothingToRedo;

/// Two stacks of changes: those that were done, and those that were undone. Contracts see each with its top first, and
/// beside them for how many changes more there is room.
///
/// All changes stand in one vector, so that an undo and a redo move no change and take no memory.
#[derive(Drop)]
pub struct History {
    /// The changes in the order in which they were made: first those that are done, then those that were undone.
    changes: Vec<Change>,
    /// How many of them are done.
    done: usize,
}

impl Model for History {
    ghost use Rattle.edit_undo.specs.Stacks.{Remembered};

    ghost Value = { Remembered };

    ghost use Rattle.std.specs.Prelude.{◌-◌, ◌≤◌, take, drop, reverse, vec_len, vec_capacity};

    ghost view = { λ h. record { stacks = record { done = reverse (take h.done h.changes.items); undone = drop h.done h.changes.items }; spare = vec_capacity h.changes - vec_len h.changes } };

    ghost invariant = { λ h. h.done ≤ vec_len h.changes };
}

impl History {
    ghost use Rattle.edit_undo.specs.Stacks.{no_changes, pushed, after_undo, after_redo};
    ghost use Rattle.edit_undo.specs.HistoryLends.{ends_with};

    /// A history of nothing. It takes no memory.
    pub fn new(alloc: Global) -> History
        ensures { result.stacks ≡ no_changes }
    {
        History {
            changes: Vec::new(alloc),
            done: 0,
        }
    }

    /// Makes room for one change, so that the next [`History::push`] can't fail.
    ///
    /// # Errors
    ///
    /// `NoMemory` where memory was refused. All is then as before.
    pub fn reserve(&mut self) -> Result<(), NoMemory>
        ensures room { OnOk result (1 ≤ self.new.spare) }
        ensures unchanged { OnErr result (self.new ≡ self.old) }

        // Whatever the answer.
        ensures stacks { self.new.stacks ≡ self.old.stacks }
        ensures grown { self.old.spare ≤ self.new.spare }
    {
        self.changes.reserve(1)
    }

    /// Adds a change that was made: it is the next one to be undone, and nothing can be redone any more.
    ///
    /// It takes no memory.
    pub fn push(&mut self, change: Change)
        requires room { 1 ≤ self.old.spare }

        ensures stacks { self.new.stacks ≡ pushed change self.old.stacks }
        ensures spare { self.old.spare ≤ self.new.spare + 1 }
    {
        self.changes.truncate(self.done);
        // There is room for one change more, so this push can't fail.
        let _ = self.changes.push(change);
        self.done = self.changes.len();
    }

    /// The change that the next [`History::undo`] moves: the last one that was done. `None` where there is none.
    pub fn to_undo(&self) -> Option<&Change>
        ensures { option_copied result ≡ slice_get self.now.stacks.done 0 }
    {
        let last = self.done.checked_sub(1)?;
        self.changes.get(last)
    }

    /// The change that the next [`History::redo`] moves: the last one that was undone. `None` where there is none.
    pub fn to_redo(&self) -> Option<&Change>
        ensures { option_copied result ≡ slice_get self.now.stacks.undone 0 }
    {
        self.changes.get(self.done)
    }

    /// Moves the last change that was done to those that were undone, and answers it. The room stays as it is.
    ///
    /// It takes no memory, and it applies nothing: to take the change back is the caller's part.
    ///
    /// # Errors
    ///
    /// `NothingToUndo` exactly where no change is done. All is then as before.
    pub fn undo(&mut self) -> Result<&Change, NothingToUndo>
        ensures* moves { sem 𝓛 (ends_with self.entry (after_undo self.old.stacks)) }
        ensures change { MatchResult result (λ change. slice_get self.old.stacks.done 0 ≡ Some change.now) (λ _. self.old.stacks.done ≡ []) }
    {
        let last = self.done.checked_sub(1).ok_or(NothingToUndo)?;
        self.done = last;
        Ok(&self.changes[last])
    }

    /// Moves the last change that was undone back to those that are done, and answers it. The room stays as it is.
    ///
    /// It takes no memory, and it applies nothing: to make the change again is the caller's part.
    ///
    /// # Errors
    ///
    /// `NothingToRedo` exactly where no change was undone since the last one was pushed. All is then as before.
    pub fn redo(&mut self) -> Result<&Change, NothingToRedo>
        ensures* moves { sem 𝓛 (ends_with self.entry (after_redo self.old.stacks)) }
        ensures change { MatchResult result (λ change. slice_get self.old.stacks.undone 0 ≡ Some change.now) (λ _. self.old.stacks.undone ≡ []) }
    {
        if self.done == self.changes.len() {
            return Err(NothingToRedo);
        }
        let next = self.done;
        self.done = next + 1;
        Ok(&self.changes[next])
    }
}
