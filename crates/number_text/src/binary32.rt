// The digits of `f32`: the format's constants, and std's methods on its bits, which std has in no trait.
use crate::digits::Digits;

impl Digits for f32 {
    fn precision() -> u32 {
        f32::MANTISSA_DIGITS
    }

    fn low() -> u32 {
        149
    }

    fn sign_bit() -> u64 {
        0x8000_0000
    }

    fn from_pattern(pattern: u64) -> Self {
        // `as`, as lib.rt says.
        f32::from_bits(pattern as u32)
    }

    fn to_pattern(self) -> u64 {
        u64::from(self.to_bits())
    }
}
