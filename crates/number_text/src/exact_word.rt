// Numbers in the exact form: a whole number and a power of 2, with nothing rounded.
ghost use Rattle.std.specs.Prelude.{◌≡◌, ◌^◌, ◌<◌};
ghost use Rattle.number_text.specs.Number.{value_read, exactly, exact_number};

use crate::digits::Digits;
use crate::numeral::{read_numeral, split_at_byte, split_sign};
use crate::refusal::NumberRefusal;

// m 2^up / 2^down. What is left of m without its trailing zeros has to be a whole number of the format's least value,
// of no more digits than the format has, and below the limit of the finite values.
fn exact_value<R: Digits>(negative: bool, m: u64, up: u32, down: u32) -> Result<R, NumberRefusal>
    requires { (m < 2 ^ 60) × (up < 2 ^ 16) × (down < 2 ^ 16) }
    ensures { value_read R.Real.val result ≡ exactly R.Real.format negative m up down }
{
    if m == 0 {
        return Ok(R::from_units(negative, 0, 0));
    }
    let precision = R::precision();
    let low = R::low();
    let zeros = m.trailing_zeros();
    let whole = m >> zeros;
    let digits = 64 - whole.leading_zeros();
    let place = (up + zeros + low)
        .checked_sub(down)
        .ok_or(NumberRefusal::NotANumber)?;
    if digits > precision || digits + place > 2 * low + 3 - precision {
        return Err(NumberRefusal::NotANumber);
    }
    let room = (precision - digits).min(place);
    Ok(R::from_units(negative, whole << room, place - room))
}

// What stands after `0x`.
pub fn read_exact<R: Digits>(negative: bool, text: &[u8]) -> Result<R, NumberRefusal>
    ensures { value_read R.Real.val result ≡ exact_number R.Real.format negative text.now }
{
    let (whole, power) = split_at_byte(b'p', text);
    let whole = read_numeral(16, 14, whole).ok_or(NumberRefusal::NotANumber)?;
    let (below, size) = split_sign(power);
    // `as`, as lib.rt says.
    let size = read_numeral(10, 4, size).ok_or(NumberRefusal::NotANumber)? as u32;
    if below {
        exact_value(negative, whole, 0, size)
    } else {
        exact_value(negative, whole, size, 0)
    }
}
