// The element types as whole numbers of their format's least value, by which numbers are read and printed.
ghost use Rattle.std.specs.Prelude.{◌≡◌, ◌*◌, ◌<◌, not, T};
ghost use Rattle.std.specs.Float.Ieee.{prec, low as lowest, hid, top, nan_bits, of_bits, to_bits};
ghost use Rattle.std.specs.Float.Ieee.Scale.{finite};
ghost use Rattle.number_text.specs.Digits.{in_units, HeldUnits, IsUnits};

use element::Real;

// A value of whole 2^place units, a unit being the format's least value above zero.
#[derive(Clone, Copy)]
pub struct Units {
    pub negative: bool,
    pub whole: u64,
    pub place: u32,
}

// An element type whose values are taken apart into their digits and put together from them, by way of their bit patterns.
pub trait Digits: Real {
    // How many binary digits a value has at most.
    fn precision() -> u32
        ensures { result ≡ prec Self.Real.format };

    // The least value above zero is 2^-low.
    fn low() -> u32
        ensures { result ≡ lowest Self.Real.format };

    // The bit of the sign in a pattern.
    fn sign_bit() -> u64
        ensures { result ≡ top Self.Real.format };

    // The value with this pattern, which is no NaN's.
    fn from_pattern(pattern: u64) -> Self
        requires size { pattern < 2 * top Self.Real.format }
        requires number { T (not (nan_bits Self.Real.format pattern)) }
        ensures { Self.Real.val result ≡ of_bits Self.Real.format pattern };

    // The pattern of a finite value.
    fn to_pattern(self) -> u64
        requires { T (finite (Self.Real.val self)) }
        ensures pattern { result ≡ to_bits Self.Real.format (Self.Real.val self) }
        ensures value { Self.Real.val self ≡ of_bits Self.Real.format result };

    // The weight of the exponent's field in a pattern.
    fn field_weight() -> u64
        ensures { result ≡ hid Self.Real.format }
    {
        1 << (Self::precision() - 1)
    }

    // The value of so many units, whose parts a reader has apart. The leading digit of a normal number adds one to the
    // field.
    fn from_units(negative: bool, whole: u64, place: u32) -> Self
        requires { HeldUnits Self.Real.format whole place }
        ensures { Self.Real.val result ≡ in_units Self.Real.format negative whole place }
    {
        let sign = if negative { Self::sign_bit() } else { 0 };
        Self::from_pattern(sign + (u64::from(place) * Self::field_weight() + whole))
    }

    // A finite value as a number of units.
    fn to_units(self) -> Units
        requires { T (finite (Self.Real.val self)) }
        ensures { IsUnits Self.Real.format (Self.Real.val self) result.negative result.whole result.place }
    {
        let sign_bit = Self::sign_bit();
        let field_weight = Self::field_weight();
        let pattern = self.to_pattern();
        let negative = pattern >= sign_bit;
        // The place is cast by `as`, as lib.rt says.
        let field = pattern % sign_bit / field_weight;
        let whole = pattern % field_weight;
        if field == 0 {
            Units {
                negative,
                whole,
                place: 0,
            }
        } else {
            Units {
                negative,
                whole: field_weight + whole,
                place: field as u32 - 1,
            }
        }
    }
}
