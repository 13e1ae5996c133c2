ghost use Rattle.std.specs.Prelude.{◌≡◌, ◌++◌, IfOk, OnOk};
ghost use Rattle.result_origin.specs.Parts.{said};
ghost use Rattle.result_origin.specs.Stored.{kept};
ghost use Rattle.result_origin.specs.Assembled.{resolved, Ends};

use crate::{Fragment, Fragments, Item};
use serna_kinds::NoMemory;
use std::alloc::Global;

/// How many results may stand one in another.
const LEVELS: u32 = 201;

/// The result of a number with each hole replaced by the result of the hole's number, down to none, in memory of its own, but
/// for the texts, which are shared.
pub fn assemble(alloc: Global, root: u64, fragments: &Fragments) -> Result<Fragment, NoMemory>
    requires { Ends (kept fragments.now.stored) 201 root }
    ensures { IfOk result (λ whole. whole ≡ said (resolved (kept fragments.now.stored) 201 root)) }
{
    let mut whole = Fragment::new(alloc);
    add_result(fragments, LEVELS, root, &mut whole)?;
    Ok(whole)
}

/// Adds the result of a number, whose holes end within so many levels. The recursion is as deep as these levels.
fn add_result(
    fragments: &Fragments,
    levels: u32,
    id: u64,
    whole: &mut Fragment,
) -> Result<(), NoMemory>
    requires { Ends (kept fragments.now.stored) levels id }
    ensures { OnOk result (whole.new ≡ whole.old ++ said (resolved (kept fragments.now.stored) levels id)) }
{
    let fragment = fragments.get(id).unwrap();
    for item in fragment.items() {
        match item {
            Item::Hole(id) => add_result(fragments, levels - 1, *id, whole)?,
            _ => whole.push(item.copy()?)?,
        }
    }
    Ok(())
}
