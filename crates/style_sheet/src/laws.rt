//! Laws of stylesheets. Each function has an empty body, and its contract is the law.
ghost use Rattle.std.specs.Prelude.{◌≡◌, ℕ, Bool, true, false, List, [], ◌∷◌, Some, slice_get, codes};
ghost use Rattle.serna_kinds.specs.declared.cells.NameId.{NameId};
ghost use Rattle.serna_kinds.specs.Blanks.{is_blank};
ghost use Rattle.serna_kinds.specs.Names.{NameParts, Space};
ghost use Rattle.tree_lines.specs.Given.{Given, text, element, without_lines};
ghost use Rattle.tree_lines.specs.Given as given;
ghost use Rattle.std.specs.List.{AllByRecursion};
ghost use Rattle.style_sheet.specs.declared.style.Rule.{Rule};
ghost use Rattle.style_sheet.specs.declared.reading.Module.{Module};
ghost use Rattle.style_sheet.specs.Instructions as instructions;
ghost use Rattle.style_sheet.specs.Styles.{is_instruction, body_in, style_of, matched_names};
ghost use Rattle.style_sheet.specs.Built.{is_built};
ghost use Rattle.style_sheet.specs.Comments.{without_comments};
ghost use Rattle.style_sheet.specs.Sheet.{StyleValue};
ghost use Rattle.style_sheet.specs.Modules.{IsTreeOf, IsStyle};

/// White space alone says nothing, but where `xml:space` keeps it and in `xsl:text` (XSLT 1.0, section 3.4).
pub fn white_space()
    ensures stripped { (names : List NameParts) (t : List ℕ) (rest : Given) → is_blank t ≡ true → body_in names false (text t rest) ≡ body_in names false rest }
    ensures preserved { (names : List NameParts) (t : List ℕ) (rest : Given) → body_in names true (text t rest) ≡ instructions.text t (body_in names true rest) }
    ensures verbatim { (names : List NameParts) (kept : Bool) (name : NameId) (line : ℕ) (t : List ℕ) (rest : Given) → is_instruction names (codes "text") name ≡ true →
        body_in names kept (element name [] line (text t given.end) rest) ≡ instructions.text t (body_in names kept rest) }
{}

/// Comments say nothing (XSLT 1.0, section 3): with them left out, whether a stylesheet is built and what it says is the same.
/// The texts on both sides of one stay two texts, so that white space is judged as before.
pub fn comments()
    ensures built { (names : List NameParts) (spaces : List Space) (tree : Given) → is_built names spaces (without_comments tree) ≡ is_built names spaces tree }
    ensures style { (names : List NameParts) (spaces : List Space) (tree : Given) → style_of names spaces (without_comments tree) ≡ style_of names spaces tree }
{}

/// Modules that are trees are one stylesheet: no other is allowed for them in this table.
pub fn one_style()
    ensures { (names : List NameParts) (modules : List Module) (one other : StyleValue) → AllByRecursion (λ (module_ : Module). (tree : Given) × IsTreeOf module_ tree) modules →
        IsStyle names modules one → IsStyle names modules other → one ≡ other }
{}

/// A rule's place is its number.
pub fn places()
    ensures { (names : List NameParts) (spaces : List Space) (tree : Given) (number : ℕ) (rule : Rule) → slice_get (style_of names spaces tree).rules number ≡ Some rule → rule.place ≡ number }
{}

/// The numbers of a stylesheet's lines show neither in whether it is built, nor in what it says, nor in the names that its rules are for.
pub fn lines_do_not_show()
    ensures built { (names : List NameParts) (spaces : List Space) (tree : Given) → is_built names spaces (without_lines tree) ≡ is_built names spaces tree }
    ensures style { (names : List NameParts) (spaces : List Space) (tree : Given) → style_of names spaces (without_lines tree) ≡ style_of names spaces tree }
    ensures matched { (spaces : List Space) (tree : Given) → matched_names spaces (without_lines tree) ≡ matched_names spaces tree }
{}
