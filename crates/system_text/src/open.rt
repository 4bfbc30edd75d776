// Opening a text: its length, and the two words of its head.
ghost use Rattle.std.specs.Prelude.{◌≡◌, ◌++◌, codes};
ghost use Rattle.text_model.specs.Refusals.{Answered};
ghost use Rattle.text_model.specs.Systems.{precision_of, size_of, head_of};
ghost use Rattle.system_text.specs.Left.{left};
ghost use Rattle.system_text.specs.Read.{formed, head_read, opened};

use crate::head::Head;
use crate::whole::read_whole;
use crate::words::Words;
use text_model::{Precision, TextRefusal};

// The length of the longest text that is read, 16 MiB.
const LONGEST: usize = 16777216;

// The format that the first word names, which is `name`, and `32` after it for binary32.
fn read_precision(name: &[u8], word: &[u8]) -> Result<Precision, TextRefusal>
    ensures { result ≡ formed (precision_of name.now word.now) }
{
    let rest = word.strip_prefix(name).ok_or(TextRefusal::Form)?;
    if rest.is_empty() {
        Ok(Precision::Double)
    } else if rest == b"32".as_slice() {
        Ok(Precision::Single)
    } else {
        Err(TextRefusal::Form)
    }
}

// The size, of 1 to 128 and in digits.
fn read_size(word: &[u8]) -> Result<usize, TextRefusal>
    ensures { result ≡ size_of word.now }
{
    match read_whole(word)? {
        size @ 1..=128 => Ok(usize::from(size)),
        _ => Err(TextRefusal::Size),
    }
}

// The two words of the head, of which the first begins with `name`.
pub fn read_head(name: &[u8], words: &mut Words) -> Result<Head, TextRefusal>
    ensures { Answered (head_read (left words.new)) (head_of name.now (left words.old)) result }
{
    let precision = read_precision(name, words.next().ok_or(TextRefusal::Form)?)?;
    let size = read_size(words.next().ok_or(TextRefusal::Form)?)?;
    Ok(Head { precision, size })
}

// The reader of a text that is not too long.
pub fn open_text(text: &[u8]) -> Result<Words<'_>, TextRefusal>
    ensures { Answered left (opened text.now) result }
{
    if text.len() > LONGEST {
        return Err(TextRefusal::Size);
    }
    Ok(Words::new(text))
}
