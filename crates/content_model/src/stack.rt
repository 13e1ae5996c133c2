//! Stacks of flags.

ghost use Rattle.std.specs.Prelude.{◌≡◌, [], ◌∷◌, OnOk};
ghost use Rattle.content_model.specs.Stack.{top, below};

use crate::NoMemory;
use std::alloc::Global;
use std::marker::Model;

/// A stack of flags, which contracts see as the list of them, the top first.
#[derive(Drop)]
pub struct Stack {
    flags: Vec<bool>,
}

impl Model for Stack {
    ghost use Rattle.std.specs.Prelude.{Bool, List, reverse};

    ghost Value = { List Bool };

    ghost view = { λ s. reverse s.flags.items };
}

impl Stack {
    /// An empty stack.
    pub fn new(alloc: Global) -> Stack
        ensures { result ≡ [] }
    {
        Stack {
            flags: Vec::new(alloc),
        }
    }

    /// Puts a flag on the top.
    pub fn push(&mut self, flag: bool) -> Result<(), NoMemory>
        ensures { OnOk result (self.new ≡ flag ∷ self.old) }
    {
        self.flags.push(flag)?;
        Ok(())
    }

    /// Takes the top, `false` where there is none.
    pub fn pop(&mut self) -> bool
        ensures popped { result ≡ top self.old }
        ensures left { self.new ≡ below self.old }
    {
        match self.flags.pop() {
            Some(flag) => flag,
            None => false,
        }
    }
}

/// The three stacks of a match.
#[derive(Drop)]
pub struct Stacks {
    /// What each node keeps, the last node on top, or the nodes that are still to come.
    pub kept: Stack,
    /// Which names are reached, the first node on top.
    pub reached: Stack,
    /// The ends of the tree that are open: where a part can begin, or where the children so far can end.
    pub ends: Stack,
}

impl Stacks {
    /// Three empty stacks.
    pub fn new(alloc: Global) -> Stacks
        ensures kept { result.kept ≡ [] }
        ensures reached { result.reached ≡ [] }
        ensures ends { result.ends ≡ [] }
    {
        Stacks {
            kept: Stack::new(alloc),
            reached: Stack::new(alloc),
            ends: Stack::new(alloc),
        }
    }
}
