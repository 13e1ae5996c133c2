ghost use Rattle.std.specs.Prelude.{◌≡◌, ◌≢◌, ℕ, ◌<◌, true, false, IsTrue, ◌↔◌, ℤ, pos, ◌+ℤ◌, ◌*ℤ◌, ◌≤ℤ◌, unsigned_abs, int_rem, List, [], ◌∷◌, ◌++◌, Option, None, Some, is_some, nat_eq};
ghost use Rattle.std.specs.List.{AllByRecursion, Contains, starts_with};
ghost use Rattle.serna_kinds.specs.declared.expressions.CompareOp.{CompareOp};
ghost use Rattle.serna_kinds.specs.declared.expressions.CompareOp.TheVariants.{Equal, NotEqual, Less, LessOrEqual, Greater, GreaterOrEqual};
ghost use Rattle.xpath_values.specs.declared.number.Num.{Num};
ghost use Rattle.xpath_values.specs.declared.number.Num.TheVariants.{NaN, Whole};
ghost use Rattle.xpath_values.specs.declared.value.Operand.{Operand};
ghost use Rattle.xpath_values.specs.declared.value.Operand.TheVariants.{Nodes, Text, Number};
ghost use Rattle.xpath_values.specs.Numbers.{IsNumber, is_short, is_zero, modulo, number_of};
ghost use Rattle.xpath_values.specs.Numerals.{Spells, IsWritten, text_number, number_text_of};
ghost use Rattle.xpath_values.specs.Comparisons.{holds, compares};
ghost use Rattle.xpath_values.specs.Texts.{IsFirstCut, IsWord, first_place, first_cut, substring, words, normalized};

/// What text is a number, and the text of a number: a text spells one number at most, and `number_text` writes a text
/// that spells the number, with a sign where it is below 0 and no leading zero.
pub fn numbers_and_texts()
    ensures spelt { (text : List ℕ) (value : ℤ) → (text_number text ≡ Whole value) ↔ Spells text value }
    ensures one { (text : List ℕ) (a b : ℤ) → Spells text a → Spells text b → a ≡ b }
    ensures short { (text : List ℕ) → IsNumber (text_number text) }
    ensures back { (number : Num) → IsNumber number → text_number (number_text_of number) ≡ number }
    ensures written { (value : ℤ) → IsTrue (is_short value) → IsWritten (number_text_of (Whole value)) value }
{}

/// What an operation answers has at most 15 digits. The remainder is what a whole multiple of the divisor leaves of the
/// dividend, is smaller than the divisor, and is on the dividend's side of 0.
pub fn remainders()
    ensures short { (value : ℤ) → IsNumber (number_of value) }
    ensures parts { (x y : ℤ) → (quotient : ℤ) × (x ≡ quotient *ℤ y +ℤ int_rem x y) }
    ensures smaller { (x y : ℤ) → is_zero y ≡ false → unsigned_abs (int_rem x y) < unsigned_abs y }
    ensures from_zero { (x y : ℤ) → pos 0 ≤ℤ x → pos 0 ≤ℤ int_rem x y }
    ensures to_zero { (x y : ℤ) → x ≤ℤ pos 0 → int_rem x y ≤ℤ pos 0 }
    ensures answer { (x y : ℤ) → is_zero y ≡ false → IsTrue (is_short y) → modulo (Whole x) (Whole y) ≡ Whole (int_rem x y) }
    ensures by_zero { (number : Num) → modulo number (Whole (pos 0)) ≡ NaN }
{}

/// Two node-sets compare where some member of each does. Of numbers no comparison but `!=` holds of NaN. A comparison says what the
/// turned one says with the sides changed.
pub fn comparisons_agree()
    ensures pair { (op : CompareOp) (lefts rights : List (List ℕ)) → (compares op (Nodes lefts) (Nodes rights) ≡ true)
        ↔ ((left : List ℕ) × (right : List ℕ) × Contains lefts left × Contains rights right × (holds op (Text left) (Text right) ≡ true)) }
    ensures nan { (op : CompareOp) (number : Num) → op ≢ NotEqual → holds op (Number NaN) (Number number) ≡ false }
    ensures nan_differs { (number : Num) → holds NotEqual (Number NaN) (Number number) ≡ true }
    ensures equal { (left right : Operand) → compares Equal left right ≡ compares Equal right left }
    ensures not_equal { (left right : Operand) → compares NotEqual left right ≡ compares NotEqual right left }
    ensures less { (left right : Operand) → compares Less left right ≡ compares Greater right left }
    ensures less_or_equal { (left right : Operand) → compares LessOrEqual left right ≡ compares GreaterOrEqual right left }
{}

/// Where a text is cut around another, when it contains it or begins with it, and that to normalize a text keeps its
/// words, each of which has a character and no white space.
pub fn string_functions()
    ensures cut { (text other before after : List ℕ) → (first_cut text other ≡ Some (before, after)) ↔ IsFirstCut text other before after }
    ensures no_cut { (text other : List ℕ) → (first_cut text other ≡ None) ↔ ((front back : List ℕ) → ¬ (text ≡ front ++ (other ++ back))) }
    ensures contains { (text other : List ℕ) → (is_some (first_place text other) ≡ true)
        ↔ ((front : List ℕ) × (back : List ℕ) × (text ≡ front ++ (other ++ back))) }
    ensures begins { (text prefix : List ℕ) → (starts_with nat_eq text prefix ≡ true) ↔ ((rest : List ℕ) × (text ≡ prefix ++ rest)) }
    ensures words { (text : List ℕ) → AllByRecursion IsWord (words text) }
    ensures normal { (text : List ℕ) → words (normalized text) ≡ words text }
    ensures whole { (text : List ℕ) → substring text (Whole (pos 1) ∷ []) ≡ text }
{}
