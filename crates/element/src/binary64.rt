// The element type `f64`: binary64.
// It repeats the other format's: each method is one operator, comparison or constant of its type, so a code for both would
// need a trait with these same methods, or operators that each ask for a proof at every sum.
ghost use Rattle.std.specs.Float.{binary64};

use crate::real::Real;

impl Real for f64 {
    ghost val = { λ x. x };

    ghost format = { binary64 };

    fn plus(&self, other: &Self) -> Self {
        *self + *other
    }

    fn minus(&self, other: &Self) -> Self {
        *self - *other
    }

    fn times(&self, other: &Self) -> Self {
        *self * *other
    }

    fn over(&self, other: &Self) -> Self {
        *self / *other
    }

    fn zero() -> Self {
        0.0
    }

    fn is_finite(self) -> bool {
        f64::is_finite(self)
    }

    fn is_zero(self) -> bool {
        self == 0.0
    }

    // The constant is 2^-1000.
    fn in_range(self) -> bool {
        f64::is_finite(self) & (9.332636185032189e-302 <= self.abs())
    }

    fn exceeds(self, other: Self) -> bool {
        other.abs() < self.abs()
    }

    // The constant is 2^-1000.
    fn not_below_range(self) -> bool {
        (self <= -9.332636185032189e-302) | (9.332636185032189e-302 <= self)
    }

    // The constant is 2^-500.
    fn reaches_threshold(self) -> bool {
        (self <= -3.054936363499605e-151) | (3.054936363499605e-151 <= self)
    }
}
