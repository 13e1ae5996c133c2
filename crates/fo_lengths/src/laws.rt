ghost use Rattle.std.specs.Prelude.{◌≡◌, ℕ, ℤ, ◌*◌, Bool, List};
ghost use Rattle.fo_lengths.specs.ColorValue.{IsColor};
ghost use Rattle.fo_lengths.specs.LengthValue.{IsLength};
ghost use Rattle.fo_lengths.specs.NumberValue.{IsNumber};
ghost use Rattle.fo_lengths.specs.Padding.{IsTrimmed};
ghost use Rattle.fo_lengths.specs.UnitOfLength.{length_in};
ghost use Rattle.fo_lengths.specs.WholeNumber.{IsWhole};
ghost use Rattle.fo_lengths.specs.declared.lengths.Length.{Length};
ghost use Rattle.fo_lengths.specs.declared.unit.LengthUnit.TheVariants.{Point, Pica, Inch, Centimetre, Millimetre};

/// A text is at most one length, at most one colour, at most one number and at most one whole number, and it is
/// trimmed to one value.
pub fn at_most_one_value()
    ensures length { (text : List ℕ) (a b : Length) → IsLength text a → IsLength text b → a ≡ b }
    ensures color { (text : List ℕ) (a b : ℕ) → IsColor text a → IsColor text b → a ≡ b }
    ensures number { (text : List ℕ) (a b : ℤ) → IsNumber text a → IsNumber text b → a ≡ b }
    ensures trimmed { (text a b : List ℕ) → IsTrimmed text a → IsTrimmed text b → a ≡ b }
    ensures whole { (text : List ℕ) (a b : ℕ) → IsWhole text a → IsWhole text b → a ≡ b }
{}

/// The absolute units in one another, whatever is cut off: 1pc is 12pt, 1in is 72pt and 2.54cm, and 1cm is
/// 10mm.
pub fn units_agree()
    ensures pica { (negative : Bool) (n : ℕ) → length_in Pica negative n ≡ length_in Point negative (12 * n) }
    ensures inch { (negative : Bool) (n : ℕ) → length_in Inch negative n ≡ length_in Point negative (72 * n) }
    ensures metric { (negative : Bool) (n : ℕ) → length_in Inch negative (100 * n) ≡ length_in Centimetre negative (254 * n) }
    ensures millimetre { (negative : Bool) (n : ℕ) → length_in Centimetre negative n ≡ length_in Millimetre negative (10 * n) }
{}
