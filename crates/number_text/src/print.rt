// Printing: the exact text of a value, appended to bytes.
ghost use Rattle.std.specs.Prelude.{◌≡◌, ◌<◌, ◌≤◌, false, T, ◌++◌, OnOk};
ghost use Rattle.std.specs.Float.Ieee.{minus};
ghost use Rattle.std.specs.Float.Ieee.Scale.{finite};
ghost use Rattle.std.specs.Fmt.{digit_glyph as glyph_of, digits as digits_of, sign_text as sign_of, signed_decimal};
ghost use Rattle.number_text.specs.Printed.{exact_text, printed, PrintedTo};

use crate::digits::Digits;
use crate::refusal::PrintRefusal;
use std::alloc::AllocError;

// The lower-case digit of d, cast by `as`, as lib.rt says; std's `from_digit` answers an Option of a char, with nothing to
// do for the None.
fn glyph(d: u64) -> u8
    requires { d < 16 }
    ensures { result ≡ glyph_of false d }
{
    if d < 10 {
        b'0' + d as u8
    } else {
        b'a' + (d as u8 - 10)
    }
}

// The digits of n, which stand at the end of the buffer. That `format!` writes them was tried: it proves, but takes
// twice as long for the text of 16,000 numbers, into a String with room for one, and more where the String has to grow.
fn spell(n: u64, base: u64, buffer: &mut [u8; 64]) -> &[u8]
    requires { (2 ≤ base) × (base ≤ 16) }
    ensures { result.now ≡ digits_of base false n }
{
    let mut rest = n;
    // The writes go by index: of what `buffer.iter_mut().rev()` lends a proof knows only the length.
    for i in (0..64).rev() {
        buffer[i] = glyph(rest % base);
        rest /= base;
        if rest == 0 {
            return &buffer[i..];
        }
    }
    buffer
}

// By hand, as the four functions below, for the reason at `spell`.
fn push_digits(base: u64, n: u64, out: &mut Vec<u8>) -> Result<(), AllocError>
    requires { (2 ≤ base) × (base ≤ 16) }
    ensures { OnOk result (out.new.items ≡ out.old.items ++ digits_of base false n) }
{
    out.extend_from_slice(spell(n, base, &mut [0; 64]))
}

// Appends a whole number in decimal digits.
pub fn write_decimal(n: u64, out: &mut Vec<u8>) -> Result<(), AllocError>
    ensures { OnOk result (out.new.items ≡ out.old.items ++ digits_of 10 false n) }
{
    push_digits(10, n, out)
}

fn push_sign(negative: bool, out: &mut Vec<u8>) -> Result<(), AllocError>
    ensures { OnOk result (out.new.items ≡ out.old.items ++ sign_of negative) }
{
    if negative {
        out.push(b'-')?;
    }
    Ok(())
}

// The power above - below, in decimal.
fn push_power(above: u32, below: u32, out: &mut Vec<u8>) -> Result<(), AllocError>
    ensures { OnOk result (out.new.items ≡ out.old.items ++ signed_decimal (minus above below)) }
{
    push_sign(above < below, out)?;
    push_digits(10, u64::from(above.abs_diff(below)), out)
}

// The text of m 2^(above - below).
fn push_exact(
    negative: bool,
    m: u64,
    above: u32,
    below: u32,
    out: &mut Vec<u8>,
) -> Result<(), AllocError>
    ensures { OnOk result (out.new.items ≡ out.old.items ++ exact_text negative m (minus above below)) }
{
    push_sign(negative, out)?;
    out.extend_from_slice(b"0x")?;
    push_digits(16, m, out)?;
    out.push(b'p')?;
    push_power(above, below, out)
}

// Appends the text of a finite value: its whole number of units without the trailing zeros, which the power takes up.
pub fn write_finite<R: Digits>(x: R, out: &mut Vec<u8>) -> Result<(), AllocError>
    requires { T (finite (R.Real.val x)) }
    ensures { OnOk result (out.new.items ≡ out.old.items ++ printed (R.Real.val x)) }
{
    let units = x.to_units();
    if units.whole == 0 {
        return push_exact(units.negative, 0, 0, 0, out);
    }
    let zeros = units.whole.trailing_zeros();
    push_exact(
        units.negative,
        units.whole >> zeros,
        units.place + zeros,
        R::low(),
        out,
    )
}

// The same for any value: what is not finite is refused.
pub fn write_number<R: Digits>(x: R, out: &mut Vec<u8>) -> Result<(), PrintRefusal>
    ensures { PrintedTo (R.Real.val x) out.old.items out.new.items result }
{
    if !x.is_finite() {
        return Err(PrintRefusal::NotFinite);
    }
    write_finite(x, out)?;
    Ok(())
}
