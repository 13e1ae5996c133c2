//! Reads an expression from its text.

ghost use Rattle.std.specs.Prelude.{◌≡◌, ◌≤◌, ℕ, List, length, IfOk, IfErr, OnOk, MatchResult};
ghost use Rattle.std.specs.List.{AllByRecursion};
ghost use Rattle.serna_kinds.specs.Names.{NameParts, Grows};
ghost use Rattle.xpath_trees.specs.declared.expr.Expr.{Expr};
ghost use Rattle.xpath_tokens.specs.declared.faults.ExprRule.{ExprRule};
ghost use Rattle.xpath_tokens.specs.Tokens.{IsCut, tokens_of};
ghost use Rattle.xpath_tokens.specs.Faults.{place_of, fault_before};
ghost use Rattle.xpath_machine.specs.Advance.{ReadsBy};
ghost use Rattle.xpath_syntax.specs.Reading.{IsReading, IsFirstFault, IsReadAs};
ghost use Rattle.xpath_tokens.specs.Named.{HasNames, names_of, with_names};

use crate::NoMemory;
use serna_kinds::{NameTable, Spaces};
use std::alloc::Global;
use xpath_machine::{Machine, parse};
use xpath_parser::State;
use xpath_tokens::{ExprRule, ReadAs, Token, fault_among, symbols_at, tokens_of};
use xpath_trees::Expr;

/// Why a text was not read: the rule that it breaks first and the place of the byte where it does, or want of memory.
#[derive(Debug, Drop)]
pub enum ExprFault {
    Refused(ExprRule, usize),
    NoMemory,
}

impl From<NoMemory> for ExprFault {
    ghost use Rattle.xpath_syntax.specs.declared.reader.ExprFault.TheVariants.{NoMemory};

    ghost from_gives = { λ _ e. e ≡ NoMemory };

    fn from(_e: NoMemory) -> ExprFault {
        ExprFault::NoMemory
    }
}

/// The place of a token, or the length of the text behind the last one.
fn place_of(text: &str, tokens: &[Token], count: usize) -> usize
    ensures { result ≡ place_of text.now tokens.now count }
{
    match tokens.get(count) {
        Some(token) => token.start,
        None => text.len(),
    }
}

/// The first fault where no expression, or no pattern, can go on with the token of this number.
fn fault_before(
    as_what: ReadAs,
    spaces: &Spaces,
    text: &str,
    tokens: &[Token],
    count: usize,
) -> (ExprRule, usize)
    requires within { count ≤ length tokens.now }
    requires cut { AllByRecursion (IsCut text.now) tokens.now }
    ensures { result ≡ fault_before as_what spaces.now text.now tokens.now count }
{
    match fault_among(as_what, spaces, text, &tokens[..count]) {
        Some(found) => found,
        None => (ExprRule::Syntax, place_of(text, tokens, count)),
    }
}

/// Reads the tokens of a text by a machine.
pub fn read_tokens<M: Machine>(
    alloc: Global,
    as_what: ReadAs,
    text: &str,
    tokens: &[Token],
    spaces: &Spaces,
    names: &mut NameTable,
) -> Result<M::Tree, ExprFault>
    requires cut { AllByRecursion (IsCut text.now) tokens.now }
    requires reads { ReadsBy M.run M.leads M.ends M.grammar }
    ensures read { IsReadAs M.grammar as_what spaces.now names.new text.now tokens.now result }
    ensures named { OnOk result ((later : List NameParts) → Grows names.new later → HasNames spaces.now later text.now tokens.now) }
    ensures names { OnOk result (names.new ≡ with_names names.old (names_of spaces.now text.now tokens.now)) }
    ensures grows { Grows names.old names.new }
{
    let symbols = symbols_at(alloc, text, tokens, spaces, names)?;
    match parse::<M>(alloc, symbols)? {
        Ok(tree) => match fault_among(as_what, spaces, text, tokens) {
            Some((rule, place)) => Err(ExprFault::Refused(rule, place)),
            None => Ok(tree),
        },
        Err(count) => {
            let (rule, place) = fault_before(as_what, spaces, text, tokens, count);
            Err(ExprFault::Refused(rule, place))
        }
    }
}

/// Reads an expression (XPath 1.0, without the namespace axis, `processing-instruction( )` and `div`; at most 64 `(` and `[`
/// are open at once). Prefixes are those that `spaces` declares. The table gets names, also where the text has a fault.
pub fn read_expr(
    alloc: Global,
    text: &str,
    spaces: &Spaces,
    names: &mut NameTable,
) -> Result<Expr, ExprFault>
    // The tree is the text's, with the numbers that names have in the new table and in every one that grows from it.
    ensures tree { IfOk result (λ tree. (later : List NameParts) → Grows names.new later → IsReading spaces.now later text.now tree) }
    // So each such table has the names of the text.
    ensures named { OnOk result ((later : List NameParts) → Grows names.new later → HasNames spaces.now later text.now (tokens_of text.now)) }
    // A text with a tree and no fault is read, unless memory runs out, and it has no other tree.
    ensures only { (tree : Expr) → IsReading spaces.now names.new text.now tree → MatchResult result (λ e. e ≡ tree) (λ fault. fault ≡ ExprFault.NoMemory) }
    // A fault is the first one of the text.
    ensures fault { IfErr result (λ fault. (rule : ExprRule) (place : ℕ) → fault ≡ ExprFault.Refused rule place → IsFirstFault spaces.now names.new text.now rule place) }
    // A text with a fault is refused, for that fault and no other.
    ensures refused { (rule : ExprRule) (place : ℕ) → IsFirstFault spaces.now names.new text.now rule place
        → MatchResult result (λ _. ⊥) (λ fault. (r : ExprRule) (p : ℕ) → fault ≡ ExprFault.Refused r p → (r ≡ rule) × (p ≡ place)) }
    // The table has got the names of the text's tokens, in their order, and no others.
    ensures names { OnOk result (names.new ≡ with_names names.old (names_of spaces.now text.now (tokens_of text.now))) }
    // It grows at most, also where the text has a fault or memory runs out.
    ensures grows { Grows names.old names.new }
{
    let tokens = tokens_of(alloc, text)?;
    read_tokens::<State>(
        alloc,
        ReadAs::Expression,
        text,
        tokens.as_slice(),
        spaces,
        names,
    )
}
