// What the programs have in common: a text is opened, its head names the format, and what follows is answered in it.
ghost use Rattle.std.specs.Prelude.{◌≡◌, ℕ, List, IfOk, Result as Outcome, vec_items};
ghost use Rattle.text_model.specs.declared.TextRefusal.{TextRefusal as Refusal};
ghost use Rattle.text_model.specs.Refusals.{Answered};
ghost use Rattle.text_model.specs.Systems.{Head as HeadOf, format, text_head};
ghost use Rattle.text_model.specs.Programs.{outcome};
ghost use Rattle.system_text.specs.Left.{left};
ghost use Rattle.system_text.specs.Read.{head_read};
ghost use Rattle.text_calls.specs.Lines.{lines_after};

use number_text::Digits;
use std::alloc::{AllocError, Global};
use system_text::{Head, Words, open_text, read_head, write_refusal};
use text_model::{Precision, TextRefusal};

// A program, by its lines for a text after its head.
pub trait Program {
    ghost lines_for: { HeadOf → Outcome (List ℕ) Refusal };

    fn lines<R: Digits>(heap: Global, head: Head, words: &mut Words) -> Result<Vec<u8>, TextRefusal>
        requires { R.Real.format ≡ format head.precision }
        ensures { Answered vec_items (lines_for (head_read (left words.old) head)) result };
}

// The lines for a text whose first word begins with `name`, or why there are none.
fn text_lines<P: Program>(heap: Global, name: &[u8], text: &[u8]) -> Result<Vec<u8>, TextRefusal>
    ensures { Answered vec_items (lines_after P.lines_for (text_head name.now text.now)) result }
{
    let mut words = open_text(text)?;
    let head = read_head(name, &mut words)?;
    match head.precision {
        Precision::Double => P::lines::<f64>(heap, head, &mut words),
        Precision::Single => P::lines::<f32>(heap, head, &mut words),
    }
}

// What a program prints for a text: its lines, or the line of the refusal; want of memory has no text.
pub fn printed<P: Program>(heap: Global, name: &[u8], text: &[u8]) -> Result<Vec<u8>, AllocError>
    ensures { IfOk result (λ v. v.items ≡ outcome (λ lines. lines) (lines_after P.lines_for (text_head name.now text.now))) }
{
    match text_lines::<P>(heap, name, text) {
        Ok(lines) => Ok(lines),
        Err(TextRefusal::Memory) => Err(AllocError),
        Err(refusal) => {
            let mut line = Vec::new(heap);
            write_refusal(refusal, &mut line)?;
            Ok(line)
        }
    }
}
