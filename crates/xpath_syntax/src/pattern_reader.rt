//! Reads a pattern from its text.

ghost use Rattle.std.specs.Prelude.{◌≡◌, ℕ, List, IfOk, IfErr, OnOk, MatchResult};
ghost use Rattle.serna_kinds.specs.Names.{NameParts, Grows};
ghost use Rattle.xpath_trees.specs.declared.pattern.Pattern.{Pattern};
ghost use Rattle.xpath_tokens.specs.declared.faults.ExprRule.{ExprRule};
ghost use Rattle.xpath_tokens.specs.Tokens.{tokens_of};
ghost use Rattle.xpath_tokens.specs.Named.{HasNames, names_of, with_names};
ghost use Rattle.xpath_syntax.specs.Reading.{IsPatternReading, IsFirstPatternFault};

use crate::NoMemory;
use crate::pattern_state::PatternState;
use crate::reader::{ExprFault, read_tokens};
use serna_kinds::{NameTable, Spaces};
use std::alloc::Global;
use xpath_tokens::{ReadAs, tokens_of};
use xpath_trees::Pattern;

/// Reads a pattern (XSLT 1.0, section 5.2, without `id( )` and `key( )`; its predicates are expressions as `read_expr` reads
/// them, without `current( )`; at most 64 `(` and `[` are open at once). `text` is the whole of it, and places are bytes of it.
/// Prefixes are those that `spaces` declares. The table gets names, also where the text has a fault.
pub fn read_pattern(
    alloc: Global,
    text: &str,
    spaces: &Spaces,
    names: &mut NameTable,
) -> Result<Pattern, ExprFault>
    // The pattern is the text's, with the numbers that names have in the new table and in every one that grows from it.
    ensures tree { IfOk result (λ pattern. (later : List NameParts) → Grows names.new later → IsPatternReading spaces.now later text.now pattern) }
    // So each such table has the names of the text.
    ensures named { OnOk result ((later : List NameParts) → Grows names.new later → HasNames spaces.now later text.now (tokens_of text.now)) }
    // A text that is a pattern without fault is read, unless memory runs out, and it is no other pattern.
    ensures only { (pattern : Pattern) → IsPatternReading spaces.now names.new text.now pattern → MatchResult result (λ p. p ≡ pattern) (λ fault. fault ≡ ExprFault.NoMemory) }
    // A fault is the first one of the text.
    ensures fault { IfErr result (λ fault. (rule : ExprRule) (place : ℕ) → fault ≡ ExprFault.Refused rule place → IsFirstPatternFault spaces.now names.new text.now rule place) }
    // A text with a fault is refused, for that fault and no other.
    ensures refused { (rule : ExprRule) (place : ℕ) → IsFirstPatternFault spaces.now names.new text.now rule place
        → MatchResult result (λ _. ⊥) (λ fault. (r : ExprRule) (p : ℕ) → fault ≡ ExprFault.Refused r p → (r ≡ rule) × (p ≡ place)) }
    // The table has got the names of the text's tokens, in their order, and no others.
    ensures names { OnOk result (names.new ≡ with_names names.old (names_of spaces.now text.now (tokens_of text.now))) }
    // It grows at most, also where the text has a fault or memory runs out.
    ensures grows { Grows names.old names.new }
{
    let tokens = tokens_of(alloc, text)?;
    read_tokens::<PatternState>(
        alloc,
        ReadAs::Pattern,
        text,
        tokens.as_slice(),
        spaces,
        names,
    )
}
