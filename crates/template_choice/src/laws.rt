//! Laws of the choice. Each function has an empty body, and its contract is the law.
ghost use Rattle.std.specs.Prelude.{◌≡◌, ℕ, Bool, Option};
ghost use Rattle.serna_kinds.specs.declared.cells.NameId.{NameId};
ghost use Rattle.style_sheet.specs.declared.style.Rule.{Rule};
ghost use Rattle.style_sheet.specs.declared.style.Choice.TheVariants as choice;
ghost use Rattle.style_sheet.specs.Sheet.{StyleValue, AreNumbered};
ghost use Rattle.template_choice.specs.Chosen.{best_of, IsGreatest, NoneFits};

/// The rule that is chosen matches the node, and no rule that could answer and matches is greater by import precedence, priority
/// and place (XSLT 1.0, sections 5.3 and 5.5). The built-in rules are chosen only where none matches. Where each rule has its
/// number as its place, at most one rule can be chosen.
pub fn the_greatest_is_chosen()
    ensures rule { (style : StyleValue) (fits : ℕ → Bool) (mode : Option NameId) (asking : Option Rule) (number : ℕ) →
        best_of style fits mode asking ≡ choice.Rule number → IsGreatest style fits mode asking number }
    ensures built_in { (style : StyleValue) (fits : ℕ → Bool) (mode : Option NameId) (asking : Option Rule) →
        best_of style fits mode asking ≡ choice.BuiltIn → NoneFits style fits mode asking }
    ensures only { (style : StyleValue) (fits : ℕ → Bool) (mode : Option NameId) (asking : Option Rule) (number other : ℕ) → AreNumbered style →
        IsGreatest style fits mode asking number → IsGreatest style fits mode asking other → number ≡ other }
{}
