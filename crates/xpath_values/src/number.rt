ghost use Rattle.std.specs.Prelude.{◌≡◌};
ghost use Rattle.xpath_values.specs.Numbers.{number_of, plus, minus, times, modulo, negated, rounded, truth_number, number_truth, are_equal, is_below, is_up_to};
ghost use Rattle.xpath_values.specs.Extremes.{lesser, greater};

use std::ops::{Add, Mul, Neg, Rem, Sub};

/// The least size that has 16 digits.
const SIZE_LIMIT: u128 = 1_000_000_000_000_000;

/// A number of an expression (XPath 1.0, section 3.5): NaN, or a whole number. What the calls of this crate
/// answer has at most 15 digits, and a result past them is NaN.
///
/// `==` tells whether two are one number, NaN and NaN too; XPath's `=`, which no NaN meets, is `compare`.
#[derive(Clone, Copy, Debug, PartialEq, Eq, Hash)]
pub enum Num {
    NaN,
    Whole(i64),
}

impl Num {
    /// The number of that value: NaN past 15 digits.
    pub fn new(value: i128) -> Num
        ensures { result ≡ number_of value }
    {
        if value.unsigned_abs() < SIZE_LIMIT {
            Num::Whole(value as i64)
        } else {
            Num::NaN
        }
    }

    /// `floor` (XPath 1.0, section 4.4): a whole number is its own.
    pub fn floor(self) -> Num
        ensures { result ≡ rounded self }
    {
        self.rounded()
    }

    /// `ceiling` (XPath 1.0, section 4.4): a whole number is its own.
    pub fn ceiling(self) -> Num
        ensures { result ≡ rounded self }
    {
        self.rounded()
    }

    /// `round` (XPath 1.0, section 4.4): a whole number is its own.
    pub fn round(self) -> Num
        ensures { result ≡ rounded self }
    {
        self.rounded()
    }

    fn rounded(self) -> Num
        ensures { result ≡ rounded self }
    {
        match self {
            Num::NaN => Num::NaN,
            Num::Whole(value) => Num::new(i128::from(value)),
        }
    }

    /// NaN and 0 are false, and every other number is true (XPath 1.0, section 4.3).
    pub(crate) fn is_true(self) -> bool
        ensures { result ≡ number_truth self }
    {
        match self {
            Num::NaN => false,
            Num::Whole(value) => value != 0,
        }
    }

    /// `=` of two numbers (XPath 1.0, section 3.4).
    pub(crate) fn equals(self, other: Num) -> bool
        ensures { result ≡ are_equal self other }
    {
        match (self, other) {
            (Num::Whole(left), Num::Whole(right)) => left == right,
            _ => false,
        }
    }

    /// `<` of two numbers.
    pub(crate) fn is_below(self, other: Num) -> bool
        ensures { result ≡ is_below self other }
    {
        match (self, other) {
            (Num::Whole(left), Num::Whole(right)) => left < right,
            _ => false,
        }
    }

    /// `<=` of two numbers.
    pub(crate) fn is_up_to(self, other: Num) -> bool
        ensures { result ≡ is_up_to self other }
    {
        match (self, other) {
            (Num::Whole(left), Num::Whole(right)) => left <= right,
            _ => false,
        }
    }
}

impl Num {
    /// The lesser number, and the other one where one is NaN.
    pub(crate) fn lesser(self, other: Num) -> Num
        ensures { result ≡ lesser self other }
    {
        match (self, other) {
            (Num::Whole(left), Num::Whole(right)) => Num::Whole(left.min(right)),
            (Num::Whole(_), Num::NaN) => self,
            (Num::NaN, _) => other,
        }
    }

    /// The greater number, and the other one where one is NaN.
    pub(crate) fn greater(self, other: Num) -> Num
        ensures { result ≡ greater self other }
    {
        match (self, other) {
            (Num::Whole(left), Num::Whole(right)) => Num::Whole(left.max(right)),
            (Num::Whole(_), Num::NaN) => self,
            (Num::NaN, _) => other,
        }
    }
}

/// True is 1 and false 0 (XPath 1.0, section 4.4).
impl From<bool> for Num {
    ghost from_gives = { λ holds number. number ≡ truth_number holds };

    fn from(holds: bool) -> Num {
        if holds { Num::Whole(1) } else { Num::Whole(0) }
    }
}

impl Add for Num {
    type Output = Num;

    ghost add_gives = { λ left right sum. sum ≡ plus left right };

    fn add(self, other: Num) -> Num {
        match (self, other) {
            (Num::Whole(left), Num::Whole(right)) => Num::new(i128::from(left) + i128::from(right)),
            _ => Num::NaN,
        }
    }
}

impl Sub for Num {
    type Output = Num;

    ghost sub_gives = { λ left right difference. difference ≡ minus left right };

    fn sub(self, other: Num) -> Num {
        match (self, other) {
            (Num::Whole(left), Num::Whole(right)) => Num::new(i128::from(left) - i128::from(right)),
            _ => Num::NaN,
        }
    }
}

impl Mul for Num {
    type Output = Num;

    ghost mul_gives = { λ left right product. product ≡ times left right };

    fn mul(self, other: Num) -> Num {
        match (self, other) {
            (Num::Whole(left), Num::Whole(right)) => Num::new(i128::from(left) * i128::from(right)),
            _ => Num::NaN,
        }
    }
}

/// `mod` (XPath 1.0, section 3.5): the remainder has the sign of the dividend, and by 0 it is NaN.
impl Rem for Num {
    type Output = Num;

    ghost rem_gives = { λ left right remainder. remainder ≡ modulo left right };

    fn rem(self, other: Num) -> Num {
        match (self, other) {
            (Num::Whole(left), Num::Whole(right)) => {
                if right == 0 {
                    return Num::NaN;
                }
                Num::new(i128::from(left) % i128::from(right))
            }
            _ => Num::NaN,
        }
    }
}

impl Neg for Num {
    type Output = Num;

    ghost neg_gives = { λ number opposite. opposite ≡ negated number };

    fn neg(self) -> Num {
        match self {
            Num::NaN => Num::NaN,
            Num::Whole(value) => Num::new(-i128::from(value)),
        }
    }
}
