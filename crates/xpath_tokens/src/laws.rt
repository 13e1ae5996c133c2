//! Laws of the tokens.

ghost use Rattle.std.specs.Prelude.{◌-◌, ℕ, List, false, drop};
ghost use Rattle.std.specs.List.{AllByRecursion};
ghost use Rattle.xpath_tokens.specs.declared.tokens.Token.{Token};
ghost use Rattle.xpath_tokens.specs.Tokens.{tokens_of};
ghost use Rattle.xpath_tokens.specs.Spelling.{MakeUp, IsLongest, AreWrongWhereNoneStands};

/// A law of the tokens: they make up the text, with white space alone between them, each written as its kind is.
pub fn tokens_make_up_the_text()
    ensures { (text : List ℕ) → MakeUp 0 (tokens_of text) text }
{}

/// A law of the tokens: no longer token is spelled where one stands.
pub fn tokens_are_longest()
    ensures { (text : List ℕ) → AllByRecursion (λ (t : Token). IsLongest (drop t.start text) (t.end - t.start)) (tokens_of text) }
{}

/// A law of the tokens: a token is `Wrong` only where none can stand.
pub fn wrong_where_none_stands()
    ensures { (text : List ℕ) → AreWrongWhereNoneStands text false (tokens_of text) }
{}
