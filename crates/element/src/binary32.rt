// The element type `f32`: binary32.
// It repeats the other format's: each method is one operator, comparison or constant of its type, so a code for both would
// need a trait with these same methods, or operators that each ask for a proof at every sum.
ghost use Rattle.std.specs.Float.{binary32};

use crate::real::Real;

impl Real for f32 {
    ghost val = { λ x. x };

    ghost format = { binary32 };

    fn plus(&self, other: &Self) -> Self {
        *self + *other
    }

    fn minus(&self, other: &Self) -> Self {
        *self - *other
    }

    fn times(&self, other: &Self) -> Self {
        *self * *other
    }

    fn over(&self, other: &Self) -> Self {
        *self / *other
    }

    fn zero() -> Self {
        0.0
    }

    fn is_finite(self) -> bool {
        f32::is_finite(self)
    }

    fn is_zero(self) -> bool {
        self == 0.0
    }

    // The constant is 2^-110.
    fn in_range(self) -> bool {
        f32::is_finite(self) & (7.703719777548943e-34 <= self.abs())
    }

    fn exceeds(self, other: Self) -> bool {
        other.abs() < self.abs()
    }

    // The constant is 2^-110.
    fn not_below_range(self) -> bool {
        (self <= -7.703719777548943e-34) | (7.703719777548943e-34 <= self)
    }

    // The constant is 2^-55.
    fn reaches_threshold(self) -> bool {
        (self <= -2.7755575615628914e-17) | (2.7755575615628914e-17 <= self)
    }
}
