// The parts of a number's text: its sign, what stands before and after a byte, and the number that digits spell.
ghost use Rattle.std.specs.Prelude.{◌≡◌, ◌+◌, ◌*◌, ◌^◌, ◌<◌, ◌≤◌, ◌==◌, length, position, IfSome, if◌then◌else◌, Some, None};
ghost use Rattle.std.specs.Str.Parse.{starts_with_minus, digits_value_after};
ghost use Rattle.std.specs.Char.{digit_value};
ghost use Rattle.number_text.specs.Number.{digits_below, numeral, before, after, unsigned};

// Whether the text begins with a minus, and the text without it.
pub fn split_sign(text: &[u8]) -> (bool, &[u8])
    ensures sign { result.0 ≡ starts_with_minus text.now }
    ensures rest { result.1.now ≡ unsigned text.now }
{
    match text.strip_prefix(b"-") {
        Some(rest) => (true, rest),
        None => (false, text),
    }
}

// The place of the first byte c.
fn find(c: u8, text: &[u8]) -> Option<usize>
    ensures { result ≡ position (λ b. b == c) text.now }
{
    text.iter().position(|b| *b == c)
}

// What stands before the first byte c, and what stands after it.
pub fn split_at_byte(c: u8, text: &[u8]) -> (&[u8], &[u8])
    ensures before { result.0.now ≡ before c text.now }
    ensures after { result.1.now ≡ after c text.now }
{
    match find(c, text) {
        Some(at) => (&text[..at], &text[at + 1..]),
        None => (text, &[]),
    }
}

// What a digit or a letter counts, and 36 for any other byte. `to_digit` answers an Option in its place where that serves.
pub fn digit_value(c: u8) -> u64
    ensures { result ≡ digit_value c }
{
    char::from(c).to_digit(36).map_or(36, u64::from)
}

// The number that the digits spell after those of `start`, if all are below the radix.
pub fn more_digits(radix: u32, start: u64, digits: &[u8]) -> Option<u64>
    requires radix { (2 ≤ radix) × (radix ≤ 36) }
    requires room { (start + 1) * radix ^ length digits.now ≤ 2 ^ 60 }
    ensures { result ≡ (if digits_below radix digits.now then Some (digits_value_after radix start digits.now) else None) }
{
    let mut number = start;
    for byte in digits {
        let digit = char::from(*byte).to_digit(radix)?;
        number = number * u64::from(radix) + u64::from(digit);
    }
    Some(number)
}

// The number that 1 to `most` digits spell.
pub fn read_numeral(radix: u32, most: usize, digits: &[u8]) -> Option<u64>
    requires radix { (2 ≤ radix) × (radix ≤ 36) }
    requires room { radix ^ most ≤ 2 ^ 60 }
    ensures value { result ≡ numeral radix most digits.now }
    ensures bound { IfSome result (λ n. n < radix ^ most) }
{
    if digits.is_empty() || digits.len() > most {
        return None;
    }
    more_digits(radix, 0, digits)
}
