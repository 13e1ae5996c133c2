//! Laws of the grammar of patterns.

ghost use Rattle.std.specs.Prelude.{◌≡◌, ℕ, List};
ghost use Rattle.serna_kinds.specs.Names.{NameParts, Space};
ghost use Rattle.xpath_tokens.specs.declared.symbol.Symbol.{Symbol};
ghost use Rattle.xpath_trees.specs.declared.pattern.Pattern.{Pattern};
ghost use Rattle.xpath_grammar.specs.Grammar.{IsExpr};
ghost use Rattle.xpath_syntax.specs.Patterns.{IsPattern, expression_of};
ghost use Rattle.xpath_syntax.specs.Reading.{IsReading, IsPatternReading};

/// A list of tokens is at most one pattern.
pub fn one_pattern()
    ensures { (tokens : List Symbol) (one other : Pattern) → IsPattern tokens one → IsPattern tokens other → one ≡ other }
{}

/// A pattern, read as an expression, is the path with the same start and steps, or the union of such paths (XSLT 1.0, section
/// 5.2).
pub fn patterns_are_expressions()
    ensures { (tokens : List Symbol) (pattern : Pattern) → IsPattern tokens pattern → IsExpr tokens (expression_of pattern) }
{}

/// A text that is read as a pattern is read as an expression too, with the path or the union of paths that the pattern is.
pub fn pattern_readings_are_readings()
    ensures { (spaces : List Space) (names : List NameParts) (text : List ℕ) (pattern : Pattern) → IsPatternReading spaces names text pattern
        → IsReading spaces names text (expression_of pattern) }
{}
