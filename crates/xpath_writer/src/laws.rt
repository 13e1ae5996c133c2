//! Laws of writing.

ghost use Rattle.std.specs.Prelude.{ℕ, List};
ghost use Rattle.std.specs.Str.{IsUtf8};
ghost use Rattle.serna_kinds.specs.Names.{NameParts, Space};
ghost use Rattle.serna_kinds.specs.Lookups.{AreTexts};
ghost use Rattle.xpath_trees.specs.declared.expr.Expr.{Expr};
ghost use Rattle.xpath_tokens.specs.Tokens.{tokens_of};
ghost use Rattle.xpath_tokens.specs.Named.{HasNames};
ghost use Rattle.xpath_syntax.specs.Reading.{IsReading};
ghost use Rattle.xpath_writer.specs.Writing.{written};

/// What is written for the tree of a text that was read reads back as this tree, by each table that has the names of the text:
/// `read_expr` leaves such a table (`named`), and each that grows from it is one. Nothing is written deeper in brackets than it
/// was read. That prefixes and URIs are text `Spaces::len` tells.
pub fn writing_reads_back()
    ensures { (spaces : List Space) (names : List NameParts) (text : List ℕ) (tree : Expr) → IsUtf8 text → AreTexts spaces → HasNames spaces names text (tokens_of text)
        → IsReading spaces names text tree → IsReading spaces names (written spaces names tree) tree }
{}
