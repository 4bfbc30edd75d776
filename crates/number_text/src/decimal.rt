// Numbers in the decimal form: a whole number over a power of ten, rounded once in whole numbers.
ghost use Rattle.std.specs.Prelude.{◌≡◌, ◌+◌, ◌*◌, ◌^◌, ◌<◌, ◌≤◌, ◌++◌, length, IfSome, if◌then◌else◌, Some, None};
ghost use Rattle.std.specs.Float.Ieee.{round};
ghost use Rattle.std.specs.Float.Ieee.Nearest.{closest};
ghost use Rattle.std.specs.Str.Parse.{digits_value};
ghost use Rattle.number_text.specs.Number.{digits_below, numeral, value_read, decimal_number};

use crate::digits::Digits;
use crate::numeral::{more_digits, split_at_byte};
use crate::refusal::NumberRefusal;
use std::cmp::Ordering;

// The number that the digits of both parts spell.
fn joined_digits(whole: &[u8], fraction: &[u8]) -> Option<u64>
    requires { length whole.now + length fraction.now ≤ 15 }
    ensures { result ≡ (if digits_below 10 (whole.now ++ fraction.now) then Some (digits_value 10 (whole.now ++ fraction.now)) else None) }
{
    let high = more_digits(10, 0, whole)?;
    more_digits(10, high, fraction)
}

// The same if there are 1 to 15 digits.
fn all_digits(whole: &[u8], fraction: &[u8]) -> Option<u64>
    ensures value { result ≡ numeral 10 15 (whole.now ++ fraction.now) }
    ensures bound { IfSome result (λ n. (n < 10 ^ 15) × (length fraction.now ≤ 15)) }
{
    match whole.len() + fraction.len() {
        1..=15 => joined_digits(whole, fraction),
        _ => None,
    }
}

// The whole number nearest to n / unit; of two, the even one.
fn nearest(n: u128, unit: u128) -> u64
    requires { (0 < unit) × (unit < 2 ^ 100) × (n < 2 ^ 53 * unit) }
    ensures { result ≡ closest n unit }
{
    // `as`, as lib.rt says.
    let quotient = (n / unit) as u64;
    match (n % unit * 2).cmp(&unit) {
        Ordering::Less => quotient,
        Ordering::Equal => quotient + quotient % 2,
        Ordering::Greater => quotient + 1,
    }
}

// m doubled until it reaches `full`, and the place less the count of doublings.
fn doubled_to(full: u128, m: u64, place: u32) -> (u128, u32)
    requires { (0 < m) × (m < full) × (full < 2 ^ 102) × (102 ≤ place) }
    ensures { (full ≤ result.0) × (result.0 < 2 * full) × (result.0 * 2 ^ result.1 ≡ m * 2 ^ place) × (result.1 ≤ place) }
{
    let m = u128::from(m);
    let level = m.leading_zeros() - full.leading_zeros();
    let times = level + u32::from(m << level < full);
    (m << times, place - times)
}

// m / den rounded to the format: m is doubled until it reaches den 2^52, so that its quotient by den 2^(53 - precision)
// has just the digits that the format keeps, and the nearest whole number is the rounding.
fn quotient<R: Digits>(negative: bool, m: u64, den: u128) -> R
    requires { (m < 10 ^ 15) × (0 < den) × (den ≤ 10 ^ 15) }
    ensures { R.Real.val result ≡ round R.Real.format negative m den }
{
    if m == 0 {
        return R::from_units(negative, 0, 0);
    }
    let spare = 53 - R::precision();
    let full = den << 52;
    let (n, place) = doubled_to(full, m, R::low() + spare);
    R::from_units(negative, nearest(n, den << spare), place)
}

pub fn read_decimal<R: Digits>(negative: bool, text: &[u8]) -> Result<R, NumberRefusal>
    ensures { value_read R.Real.val result ≡ decimal_number R.Real.format negative text.now }
{
    let (whole, fraction) = split_at_byte(b'.', text);
    let m = all_digits(whole, fraction).ok_or(NumberRefusal::NotANumber)?;
    // `as`, as lib.rt says.
    let den = 10u128.pow(fraction.len() as u32);
    Ok(quotient(negative, m, den))
}
