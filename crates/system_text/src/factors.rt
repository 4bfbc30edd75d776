// The text of factors after its head: the order and the rows.
ghost use Rattle.std.specs.Prelude.{◌≡◌, ◌*◌, ◌≤◌, take, drop, IfOk, OnOk, vec_items, vec_len};
ghost use Rattle.text_model.specs.Refusals.{Answered};
ghost use Rattle.text_model.specs.Systems.{numbers_of};
ghost use Rattle.text_model.specs.Factors.{places_of, complete};
ghost use Rattle.system_text.specs.Left.{left};
ghost use Rattle.system_text.specs.Read.{formed, head_read, factors_read};

use crate::each::read_each;
use crate::head::Head;
use crate::numbers::read_numbers;
use crate::whole::read_whole;
use crate::words::Words;
use element::Real;
use number_text::Digits;
use std::alloc::Global;
use text_model::TextRefusal;

// Factors as a text gives them: their size, their order, and their rows in one list.
#[derive(Drop)]
pub struct FactorsText<R: Drop> {
    pub size: usize,
    pub order: Vec<u16>,
    pub lu: Vec<R>,
    ghost taken: { (1 ≤ size) × (size ≤ 128) },
    ghost counted: { (vec_len order ≡ size) × (vec_len lu ≡ size * size) },
}

// The places that the next `most` words spell, or all words if there are fewer.
pub fn read_order(heap: Global, words: &mut Words, most: usize) -> Result<Vec<u16>, TextRefusal>
    ensures places { Answered vec_items (formed (places_of (take most (left words.old)))) result }
    ensures rest { OnOk result (left words.new ≡ drop most (left words.old)) }
{
    read_each(heap, words, most, read_whole)
}

// The order and the rows of factors; what follows them is left.
pub fn read_factors<R: Digits>(
    heap: Global,
    head: Head,
    words: &mut Words,
) -> Result<FactorsText<R>, TextRefusal>
    ensures size { IfOk result (λ v. v.size ≡ head.size) }
    ensures factors { Answered (λ v. factors_read R.Real.val head v.order.items v.lu.items (left words.new)) (complete (head_read (left words.old) head) (places_of (take head.size (left words.old))) (numbers_of R.Real.format (take (head.size * head.size) (drop head.size (left words.old))))) result }
{
    let order = read_order(heap, words, head.size)?;
    let lu = read_numbers(heap, words, head.size * head.size)?;
    if (order.len() != head.size) | (lu.len() != head.size * head.size) {
        return Err(TextRefusal::Count);
    }
    Ok(FactorsText {
        size: head.size,
        order,
        lu,
    })
}
