// Whole numbers in decimal digits, of any count.
ghost use Rattle.std.specs.Prelude.{◌≡◌};
ghost use Rattle.text_model.specs.Factors.{place};
ghost use Rattle.system_text.specs.Read.{formed};

use text_model::TextRefusal;

// The number that the word spells, or 65535 if it is larger.
pub fn read_whole(word: &[u8]) -> Result<u16, TextRefusal>
    ensures { result ≡ formed (place word.now) }
{
    if word.is_empty() {
        return Err(TextRefusal::Form);
    }
    let mut number = 0;
    for byte in word {
        let digit = char::from(*byte).to_digit(10).ok_or(TextRefusal::Form)?;
        number = (number * 10 + digit).min(65535);
    }
    // `as`, since it is proved to lose nothing; `TryFrom` would add a failure that never comes.
    Ok(number as u16)
}
