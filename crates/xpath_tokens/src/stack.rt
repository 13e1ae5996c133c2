//! A stack, by which a list is handed in order to a loop that owns its items.

ghost use Rattle.std.specs.Prelude.{◌≡◌, [], ◌∷◌, IfOk, OnOk, MatchOption};

use crate::NoMemory;
use sqlite_items::Items;
use std::alloc::Global;
use std::marker::Model;

/// A stack, which contracts see as the list of its items, the top first.
#[derive(Drop)]
pub struct Stack<T> {
    items: Vec<T>,
}

impl<T> Model for Stack<T> {
    ghost use Rattle.std.specs.Prelude.{List, reverse};
    ghost use Rattle.std.specs.Coded.{coded_list};

    ghost Value = { List T };

    ghost coded = { coded_list T.code };

    ghost view = { λ s. reverse s.items.items };
}

impl<T: Drop> Stack<T> {
    /// An empty stack. Takes no memory.
    pub fn new(alloc: Global) -> Stack<T>
        ensures { result ≡ [] }
    {
        Stack {
            items: Vec::new(alloc),
        }
    }

    /// A stack of these items, the first on top.
    pub fn from_items(alloc: Global, mut items: Items<T>) -> Result<Stack<T>, NoMemory>
        ensures { IfOk result (λ stack. stack ≡ items) }
    {
        let mut stack = Stack::new(alloc);
        while let Some(last) = items.pop() {
            stack.push(last)?;
        }
        Ok(stack)
    }

    /// Puts an item on the top.
    pub fn push(&mut self, item: T) -> Result<(), NoMemory>
        ensures { OnOk result (self.new ≡ item ∷ self.old) }
    {
        self.items.push(item)?;
        Ok(())
    }

    /// Takes the top, where there is one.
    pub fn pop(&mut self) -> Option<T>
        ensures { MatchOption result ((self.old ≡ []) × (self.new ≡ [])) (λ top. self.old ≡ top ∷ self.new) }
    {
        self.items.pop()
    }
}
