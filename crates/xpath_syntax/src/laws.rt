//! Laws of the grammar.

ghost use Rattle.std.specs.Prelude.{◌≡◌, ◌≤◌, ℕ, List, IsTrue};
ghost use Rattle.serna_kinds.specs.Names.{NameParts, Space};
ghost use Rattle.xpath_tokens.specs.declared.symbol.Symbol.{Symbol};
ghost use Rattle.xpath_trees.specs.declared.expr.Expr.{Expr};
ghost use Rattle.xpath_trees.specs.WellFormed.{is_well_formed};
ghost use Rattle.xpath_grammar.specs.Grammar.{IsExpr};
ghost use Rattle.xpath_syntax.specs.Depth.{depth_of};
ghost use Rattle.xpath_syntax.specs.Reading.{IsReading};

/// A list of tokens is at most one expression.
pub fn one_tree()
    ensures { (tokens : List Symbol) (one other : Expr) → IsExpr tokens one → IsExpr tokens other → one ≡ other }
{}

/// What is read is well formed: chains, paths and filters have their parts, each call has as many arguments as its function takes,
/// and no number has more than 15 digits.
pub fn readings_are_well_formed()
    ensures { (spaces : List Space) (names : List NameParts) (text : List ℕ) (tree : Expr) → IsReading spaces names text tree → IsTrue (is_well_formed tree) }
{}

/// What is read is not deep, since at most 64 brackets are open at once: at most 715 of its expressions are each a part of the one
/// before, eleven in each bracket and eleven in none.
pub fn readings_are_shallow()
    ensures { (spaces : List Space) (names : List NameParts) (text : List ℕ) (tree : Expr) → IsReading spaces names text tree → depth_of tree ≤ 715 }
{}
