// Reading: one word as a value.
ghost use Rattle.std.specs.Prelude.{◌≡◌};
ghost use Rattle.number_text.specs.Number.{value_read, number_of, unsigned_number};

use crate::decimal::read_decimal;
use crate::digits::Digits;
use crate::exact_word::read_exact;
use crate::numeral::split_sign;
use crate::refusal::NumberRefusal;

// A word without its sign, in the exact form if it begins with `0x`.
fn read_unsigned<R: Digits>(negative: bool, word: &[u8]) -> Result<R, NumberRefusal>
    ensures { value_read R.Real.val result ≡ unsigned_number R.Real.format negative word.now }
{
    match word.strip_prefix(b"0x") {
        Some(rest) => read_exact(negative, rest),
        None => read_decimal(negative, word),
    }
}

// The value that the word is the number of; a word that is no number is refused.
pub fn read_number<R: Digits>(word: &[u8]) -> Result<R, NumberRefusal>
    ensures { value_read R.Real.val result ≡ number_of R.Real.format word.now }
{
    let (negative, unsigned) = split_sign(word);
    read_unsigned(negative, unsigned)
}
