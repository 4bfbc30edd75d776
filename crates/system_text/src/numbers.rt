// Numbers, one word after the other.
ghost use Rattle.std.specs.Prelude.{◌≡◌, map, take, drop, OnOk};
ghost use Rattle.number_text.specs.Number.{number_of};
ghost use Rattle.text_model.specs.Refusals.{Answered};
ghost use Rattle.text_model.specs.Systems.{numbers_of};
ghost use Rattle.system_text.specs.Left.{left};
ghost use Rattle.system_text.specs.Read.{formed, any_of};

use crate::each::read_each;
use crate::words::Words;
use element::Real;
use number_text::{Digits, read_number};
use std::alloc::Global;
use text_model::TextRefusal;

// The number that a word is.
fn read_one<R: Digits>(word: &[u8]) -> Result<R, TextRefusal>
    ensures { Answered R.Real.val (formed (number_of R.Real.format word.now)) result }
{
    Ok(read_number(word)?)
}

// The numbers of the next `most` words, or of all if there are fewer.
pub fn read_numbers<R: Digits>(
    heap: Global,
    words: &mut Words,
    most: usize,
) -> Result<Vec<R>, TextRefusal>
    ensures numbers { Answered (λ v. map R.Real.val v.items) (formed (numbers_of R.Real.format (take most (left words.old)))) result }
    ensures rest { OnOk result (left words.new ≡ drop most (left words.old)) }
{
    read_each(heap, words, most, |word| read_one(word))
}

// Whether words are left, if all of them are numbers: a test, by which its caller refuses together with the count.
pub fn surplus<R: Digits>(words: &mut Words) -> Result<bool, TextRefusal>
    ensures { result ≡ formed (any_of (numbers_of R.Real.format (left words.old))) }
{
    let mut any = false;
    for word in words {
        let _number: R = read_number(word)?;
        any = true;
    }
    Ok(any)
}
