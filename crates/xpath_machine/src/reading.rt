//! Reads a list of tokens by a machine.

ghost use Rattle.std.specs.Prelude.{◌≡◌, ◌≤◌, List, [], Option, Some, IfOk};
ghost use Rattle.xpath_tokens.specs.declared.symbol.Symbol.{Symbol};
ghost use Rattle.xpath_machine.specs.Stops.{next_depth, IsParsedBy};
ghost use Rattle.xpath_machine.specs.Advance.{IsAdvanced, ReadsBy};

use crate::NoMemory;
use std::alloc::Global;
use xpath_tokens::{Stack, Symbol};

/// The most `(` and `[` that may be open at once.
pub const MOST_OPEN: usize = 64;

/// A machine over tokens. `parse` asks that it reads the trees of a grammar.
pub trait Machine: Drop + Sized {
    type Tree: Drop;

    ghost run: { List Symbol → Option Self };

    ghost leads: { Self → Symbol → Option Self };

    ghost ends: { Self → Option Self.Tree };

    ghost grammar: { List Symbol → Self.Tree → Type 0 };

    /// Before the first token. Takes no memory.
    fn beginning(alloc: Global) -> Self
        ensures { run [] ≡ Some result };

    /// Behind one token more: None where no tree's tokens can go on with it.
    fn step(self, alloc: Global, symbol: Symbol) -> Result<Option<Self>, NoMemory>
        ensures { IfOk result (λ next. next ≡ leads self symbol) };

    /// The tree, where the tokens may end here.
    fn finish(self, alloc: Global) -> Result<Option<Self::Tree>, NoMemory>
        ensures { IfOk result (λ tree. tree ≡ ends self) };
}

/// How many brackets are open behind a token.
fn next_depth(depth: usize, symbol: &Symbol) -> usize
    requires { depth ≤ 64 }
    ensures { result ≡ next_depth depth symbol.now }
{
    match symbol {
        Symbol::Open => depth + 1,
        Symbol::OpenBracket => depth + 1,
        Symbol::Close => depth.saturating_sub(1),
        Symbol::CloseBracket => depth.saturating_sub(1),
        _ => depth,
    }
}

/// The machine behind one more token, with the brackets that are open then: None where no tree's tokens can go on with it.
fn advance<M: Machine>(
    alloc: Global,
    machine: M,
    depth: usize,
    symbol: Symbol,
) -> Result<Option<(M, usize)>, NoMemory>
    requires { depth ≤ 64 }
    ensures { IfOk result (IsAdvanced M.leads machine depth symbol) }
{
    let depth = next_depth(depth, &symbol);
    let next = machine.step(alloc, symbol)?;
    if depth > MOST_OPEN {
        return Ok(None);
    }
    match next {
        Some(machine) => Ok(Some((machine, depth))),
        None => Ok(None),
    }
}

/// Reads all tokens of the stack, the first on top: the tree, or the number, from 0, of the token with which none can go on; the
/// number of all tokens where they end too early.
pub fn parse<M: Machine>(
    alloc: Global,
    mut symbols: Stack<Symbol>,
) -> Result<Result<M::Tree, usize>, NoMemory>
    requires { ReadsBy M.run M.leads M.ends M.grammar }
    ensures { IfOk result (IsParsedBy M.grammar symbols) }
{
    let mut machine = M::beginning(alloc);
    let mut depth = 0;
    let mut count = 0;
    while let Some(symbol) = symbols.pop() {
        match advance(alloc, machine, depth, symbol)? {
            Some((next, open)) => {
                machine = next;
                depth = open;
            }
            None => return Ok(Err(count)),
        }
        count += 1;
    }
    match machine.finish(alloc)? {
        Some(tree) => Ok(Ok(tree)),
        None => Ok(Err(count)),
    }
}
