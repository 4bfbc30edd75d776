// The digits of `f64`: the format's constants, and std's methods on its bits, which std has in no trait.
use crate::digits::Digits;

impl Digits for f64 {
    fn precision() -> u32 {
        f64::MANTISSA_DIGITS
    }

    fn low() -> u32 {
        1074
    }

    fn sign_bit() -> u64 {
        0x8000_0000_0000_0000
    }

    fn from_pattern(pattern: u64) -> Self {
        f64::from_bits(pattern)
    }

    fn to_pattern(self) -> u64 {
        self.to_bits()
    }
}
