// The text of a system, read whole.
ghost use Rattle.std.specs.Prelude.{◌≡◌, ◌+◌, ◌*◌, ◌≤◌, IfOk, vec_len};
ghost use Rattle.text_model.specs.Refusals.{Answered};
ghost use Rattle.text_model.specs.Systems.{numbers_of, counted};
ghost use Rattle.system_text.specs.Left.{left};
ghost use Rattle.system_text.specs.Read.{system_read};

use crate::head::Head;
use crate::numbers::{read_numbers, surplus};
use crate::words::Words;
use element::Real;
use number_text::Digits;
use std::alloc::Global;
use text_model::TextRefusal;

// A system as a text gives it: its size, and its entries row by row, each row's last being its right side.
#[derive(Drop)]
pub struct SystemText<R: Drop> {
    pub size: usize,
    pub entries: Vec<R>,
    ghost taken: { (1 ≤ size) × (size ≤ 128) },
    ghost counted: { vec_len entries ≡ size * (size + 1) },
}

// The system that the words after the head are.
pub fn read_system<R: Digits>(
    heap: Global,
    head: Head,
    words: &mut Words,
) -> Result<SystemText<R>, TextRefusal>
    ensures size { IfOk result (λ s. s.size ≡ head.size) }
    ensures entries { Answered (λ s. system_read R.Real.val head s.entries.items) (counted head.precision head.size (numbers_of R.Real.format (left words.old))) result }
{
    let count = head.size * (head.size + 1);
    let entries = read_numbers(heap, words, count)?;
    let more = surplus::<R>(words)?;
    if more | (entries.len() != count) {
        return Err(TextRefusal::Count);
    }
    Ok(SystemText {
        size: head.size,
        entries,
    })
}
