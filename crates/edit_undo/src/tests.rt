//! What no clause says: that calls succeed with ample memory, on one run through all of them.
ghost use Rattle.std.specs.Prelude.{◌≡◌};
ghost use Rattle.edit_undo.specs.Stacks.{after_undo, after_redo};

use super::*;
use serna_kinds::{Chars, Items, NoMemory, NodeName};
use source_primitives::{Caret, CaretPlace, Primitive};
use std::alloc::Global;
use std::test::Fail;

/// One call: a change of the text with this number is pushed, or undo or redo is called.
#[derive(Clone, Copy)]
enum Call {
    Push(u32),
    Undo,
    Redo,
}

/// Calls one after another. Beside each stands the text of the change that it pushes or answers, `None` where it refuses.
const CALLS: [(Call, Option<u32>); 11] = [
    (Call::Undo, None),
    (Call::Redo, None),
    (Call::Push(1), Some(1)),
    (Call::Push(2), Some(2)),
    (Call::Undo, Some(2)),
    (Call::Undo, Some(1)),
    (Call::Redo, Some(1)),
    (Call::Push(3), Some(3)),
    (Call::Redo, None),
    (Call::Undo, Some(3)),
    (Call::Undo, Some(1)),
];

/// A character is put in at the start of the text with this number, and taken out again.
fn change_of(alloc: Global, number: u32) -> Result<Change, NoMemory> {
    let text = NodeName(number);
    let mut prims = Vec::new(alloc);
    prims.push(Primitive::InsertText(text, 0, Chars::from_text(alloc, "a")?))?;
    let mut inverses = Vec::new(alloc);
    inverses.push(Primitive::RemoveText(text, 0, 1))?;
    Ok(Change {
        prims: Items::from_vec(prims),
        inverses: Items::from_vec(inverses),
        before: None,
        after: Some(Caret {
            place: CaretPlace::Text(text, 1),
            occurrence: 1,
        }),
    })
}

/// The number of the text that the change of an answer is of, `None` for a refusal.
fn text_of(change: Option<&Change>) -> Option<u32> {
    match change?.prims.get(0)? {
        Primitive::InsertText(text, _, _) => Some(text.0),
        _ => None,
    }
}

/// Undoes, and answers the text of the change. Both stacks are known afterwards.
fn undone(history: &mut History) -> Option<u32>
    ensures stacks { history.new.stacks ≡ after_undo history.old.stacks }
    ensures spare { history.new.spare ≡ history.old.spare }
{
    text_of(history.undo().ok())
}

/// Redoes, and answers the text of the change. Both stacks are known afterwards.
fn redone(history: &mut History) -> Option<u32>
    ensures stacks { history.new.stacks ≡ after_redo history.old.stacks }
    ensures spare { history.new.spare ≡ history.old.spare }
{
    text_of(history.redo().ok())
}

#[test]
fn answers_the_changes_on_top(rt: HostRuntime) -> Result<(), Fail> {
    let mut history = History::new(rt.alloc());
    for (call, expected) in CALLS {
        let text = match call {
            Call::Push(number) => {
                history.reserve()?;
                history.push(change_of(rt.alloc(), number)?);
                text_of(history.to_undo())
            }
            Call::Undo => {
                let shown = text_of(history.to_undo());
                let moved = undone(&mut history);
                assert_eq!(rt; shown, moved);
                moved
            }
            Call::Redo => {
                let shown = text_of(history.to_redo());
                let moved = redone(&mut history);
                assert_eq!(rt; shown, moved);
                moved
            }
        };
        assert_eq!(rt; text, expected);
    }
    Ok(())
}
