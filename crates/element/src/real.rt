// The number types: what a value is as a float, and the operations of its format, each rounded once.
ghost use Rattle.std.specs.Prelude.{◌≡◌, ◌*◌, ◌^◌, ◌<◌, false, T, Float};
ghost use Rattle.std.specs.Mem.{type_size};
ghost use Rattle.std.specs.Float.Ieee.{add, sub, mul, div, lt, fits};
ghost use Rattle.std.specs.Float.Ieee.Scale.{finite};
ghost use Rattle.std.specs.Float.{float_with_sign, Format};
ghost use Rattle.exact.specs.Value.{is_zero};
ghost use Rattle.exact.specs.Range.{in_range};
ghost use Rattle.exact.specs.Threshold.{reaches};
ghost use Rattle.element.specs.Matrix.{zero_float};
ghost use Rattle.element.specs.Products.{not_below_range};

// An element type: `val` is a value as a float, and `format` the format that all values of the type have.
pub trait Real: Copy {
    ghost val: { Self → Float };

    ghost format: { Format };

    fn plus(&self, other: &Self) -> Self
        ensures { val result ≡ add format (val self.now) (val other.now) };

    fn minus(&self, other: &Self) -> Self
        ensures { val result ≡ sub format (val self.now) (val other.now) };

    fn times(&self, other: &Self) -> Self
        ensures { val result ≡ mul format (val self.now) (val other.now) };

    fn over(&self, other: &Self) -> Self
        ensures { val result ≡ div format (val self.now) (val other.now) };

    // +0, which sums begin with. A row of 128 of them fits in memory.
    fn zero() -> Self
        ensures value { val result ≡ zero_float }
        ensures small { 128 * type_size Self.row < 2 ^ 63 };

    // Neither an infinity nor a NaN. Whoever asks learns too that the value is one of the format.
    fn is_finite(self) -> bool
        ensures value { result ≡ finite (val self) }
        ensures fits { T (fits format (val self)) };

    // Either of the two signed zeros.
    fn is_zero(self) -> bool
        ensures { result ≡ is_zero (val self) };

    // Finite, and of no smaller magnitude than a product or a quotient in range may have.
    fn in_range(self) -> bool
        ensures { result ≡ in_range format (val self) };

    // Whether this has the larger magnitude.
    fn exceeds(self, other: Self) -> bool
        ensures { result ≡ lt (float_with_sign false (val other)) (float_with_sign false (val self)) };

    // Of no smaller magnitude than a product or a quotient in range may have. An infinity passes, and a NaN does not.
    fn not_below_range(self) -> bool
        ensures { result ≡ not_below_range format (val self) };

    // Whether the magnitude is at least the threshold: two such factors have a product in range, if it is finite.
    fn reaches_threshold(self) -> bool
        ensures { result ≡ reaches format (val self) };
}
