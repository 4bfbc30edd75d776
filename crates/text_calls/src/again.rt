// The program `again`.
ghost use Rattle.std.specs.Prelude.{◌≡◌, ◌++◌, map, length, IfOk, Result as Outcome, OnOk};
ghost use Rattle.std.specs.ControlFlow.{continue_value};
ghost use Rattle.std.specs.Option.{is_some};
ghost use Rattle.element.specs.Matrix.{Row};
ghost use Rattle.text_model.specs.declared.TextRefusal.{TextRefusal as Refusal};
ghost use Rattle.text_model.specs.Refusals.{Answered};
ghost use Rattle.text_model.specs.Lines.{answer};
ghost use Rattle.text_model.specs.Programs.{outcome, solved_again, again_printed};
ghost use Rattle.system_text.specs.Left.{left};
ghost use Rattle.text_calls.specs.Again.{all_answers, AnswersNext, again_lines};

use crate::program::{Program, printed};
use element::Real;
use number_text::Digits;
use solver::Outcomes;
use std::alloc::{AllocError, Global};
use std::ops::ControlFlow;
use system_text::{
    FactorsText, Head, Words, read_factors, read_numbers, write_answer, write_refusal,
};
use text_model::TextRefusal;
use triangular::factors_sound;

// The answer for one right side, with factors and an order that are there already.
fn solve_again<R: Digits>(
    heap: Global,
    factors: &FactorsText<R>,
    b: &[R],
) -> Result<Vec<R>, TextRefusal>
    requires { length b.now ≡ factors.now.size }
    ensures { Answered (λ v. map R.Real.val v.items) (solved_again R.Real.format factors.now.size (map R.Real.val factors.now.lu.items) factors.now.order.items (map R.Real.val b.now)) result }
{
    let mut x = Vec::from_slice(heap, b)?;
    R::again_outcome(factors.size, &factors.lu, &factors.order, b, &mut x)?;
    Ok(x)
}

// Appends an answer, or the line of the refusal; want of memory has no text.
fn write_outcome<R: Digits>(
    solved: Result<Vec<R>, TextRefusal>,
    out: &mut Vec<u8>,
) -> Result<(), AllocError>
    ensures { OnOk result ((expected : Outcome Row Refusal) → Answered (λ v. map R.Real.val v.items) expected solved → out.new.items ≡ out.old.items ++ outcome answer expected) }
{
    match solved {
        Ok(x) => write_answer(&x, out),
        // Want of memory is no refusal with a line; it goes up as what it was.
        Err(TextRefusal::Memory) => Err(AllocError),
        Err(refusal) => write_refusal(refusal, out),
    }
}

// Appends what is printed for the next right side. It breaks if there is none after it: no words are left, or too few, or
// one is no number.
fn answer_next<R: Digits>(
    heap: Global,
    factors: &FactorsText<R>,
    words: &mut Words,
    out: &mut Vec<u8>,
) -> Result<ControlFlow<()>, AllocError>
    ensures { IfOk result (λ flow. AnswersNext R.Real.format factors.now.size (map R.Real.val factors.now.lu.items) factors.now.order.items (left words.old) (left words.new) out.old.items out.new.items (is_some (continue_value flow))) }
{
    match read_numbers::<R>(heap, words, factors.size) {
        Ok(b) => {
            if b.is_empty() {
                return Ok(ControlFlow::Break(()));
            }
            if b.len() < factors.size {
                write_refusal(TextRefusal::Count, out)?;
                return Ok(ControlFlow::Break(()));
            }
            write_outcome(solve_again(heap, factors, &b), out)?;
            Ok(ControlFlow::Continue(()))
        }
        Err(TextRefusal::Memory) => Err(AllocError),
        Err(refusal) => {
            write_refusal(refusal, out)?;
            Ok(ControlFlow::Break(()))
        }
    }
}

// Appends what is printed for all right sides in the words that are left.
fn answer_all<R: Digits>(
    heap: Global,
    factors: &FactorsText<R>,
    words: &mut Words,
    out: &mut Vec<u8>,
) -> Result<(), AllocError>
    ensures { OnOk result (out.new.items ≡ out.old.items ++ all_answers R.Real.format factors.now.size (map R.Real.val factors.now.lu.items) factors.now.order.items (left words.old)) }
{
    // Nothing is counted: a step says whether there is another.
    while answer_next(heap, factors, words, out)?.is_continue() {}
    Ok(())
}

struct Again;

impl Program for Again {
    ghost lines_for = { again_lines };

    fn lines<R: Digits>(
        heap: Global,
        head: Head,
        words: &mut Words,
    ) -> Result<Vec<u8>, TextRefusal> {
        let factors = read_factors::<R>(heap, head, words)?;
        if !factors_sound(factors.size, &factors.lu, &factors.order) {
            return Err(TextRefusal::Factors);
        }
        let mut lines = Vec::new(heap);
        answer_all(heap, &factors, words, &mut lines)?;
        Ok(lines)
    }
}

// What is printed for a text; only want of memory has no text.
pub fn again_text(heap: Global, text: &[u8]) -> Result<Vec<u8>, AllocError>
    ensures { IfOk result (λ v. v.items ≡ again_printed text.now) }
{
    printed::<Again>(heap, b"factors", text)
}
