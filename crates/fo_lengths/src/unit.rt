ghost use Rattle.std.specs.Prelude.{◌≡◌, ◌≢◌, ◌<◌, ◌^◌, ◌*◌, ◌/◌, IfSome, IfNone};
ghost use Rattle.fo_lengths.specs.UnitOfLength.{unit_name, length_in};
ghost use Rattle.fo_lengths.specs.DecimalNumber.{signed};
ghost use Rattle.fo_lengths.specs.declared.unit.LengthUnit.{LengthUnit};

use crate::decimal::with_sign;
use crate::lengths::Length;

/// A unit that a length may have: those of XSL but `px`, and the per cent.
#[derive(Clone, Copy)]
pub enum LengthUnit {
    Point,
    Pica,
    Inch,
    Centimetre,
    Millimetre,
    /// One em, the font size.
    Em,
    /// One per cent of what the property takes it of.
    Percent,
}

impl LengthUnit {
    /// The unit of that name, in lower case.
    pub fn named(name: &str) -> Option<LengthUnit>
        ensures found { IfSome result (λ unit. name.now ≡ unit_name unit) }
        ensures none { IfNone result ((unit : LengthUnit) → name.now ≢ unit_name unit) }
    {
        match name {
            "pt" => Some(LengthUnit::Point),
            "pc" => Some(LengthUnit::Pica),
            "in" => Some(LengthUnit::Inch),
            "cm" => Some(LengthUnit::Centimetre),
            "mm" => Some(LengthUnit::Millimetre),
            "em" => Some(LengthUnit::Em),
            "%" => Some(LengthUnit::Percent),
            _ => None,
        }
    }

    /// So many millionths of the unit, below 0 where it is told.
    pub fn length(self, is_negative: bool, millionths: u64) -> Length
        requires { millionths < 10 ^ 12 }
        ensures { result ≡ length_in self is_negative millionths }
    {
        match self {
            LengthUnit::Point => Length::Points(with_sign(
                is_negative,
                millipoints(millionths, 1, 1),
            )),
            LengthUnit::Pica => Length::Points(with_sign(
                is_negative,
                millipoints(millionths, 12, 1),
            )),
            LengthUnit::Inch => Length::Points(with_sign(
                is_negative,
                millipoints(millionths, 72, 1),
            )),
            // 2.54cm and 25.4mm are 72pt.
            LengthUnit::Centimetre => {
                Length::Points(with_sign(is_negative, millipoints(millionths, 7200, 254)))
            }
            LengthUnit::Millimetre => {
                Length::Points(with_sign(is_negative, millipoints(millionths, 720, 254)))
            }
            LengthUnit::Em => Length::Em(with_sign(is_negative, millionths)),
            LengthUnit::Percent => Length::Percent(with_sign(is_negative, millionths)),
        }
    }
}

/// So many millionths of a unit in millipoints, cut to whole ones, where `units` of it are `points` pt.
fn millipoints(millionths: u64, points: u64, units: u64) -> u64
    requires product { millionths * points < 2 ^ 64 }
    requires some { 0 < units }
    requires divisor { units * 1000 < 2 ^ 64 }
    ensures { result ≡ millionths * points / (units * 1000) }
{
    millionths * points / (units * 1000)
}
