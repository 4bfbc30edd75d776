// The program `solve`.
ghost use Rattle.std.specs.Prelude.{◌≡◌, take, IfOk, codes};
ghost use Rattle.text_model.specs.Programs.{solve_printed};
ghost use Rattle.text_model.specs.Promises.{StableAnswer};
ghost use Rattle.text_calls.specs.Lines.{solve_lines};

use crate::program::{Program, printed};
use crate::rows::{matrix_of, right_side_of};
use number_text::Digits;
use solver::Outcomes;
use std::alloc::{AllocError, Global};
use system_text::{Head, Words, read_system, write_answer};
use text_model::TextRefusal;

struct Solve;

impl Program for Solve {
    ghost lines_for = { solve_lines };

    fn lines<R: Digits>(
        heap: Global,
        head: Head,
        words: &mut Words,
    ) -> Result<Vec<u8>, TextRefusal> {
        let system = read_system::<R>(heap, head, words)?;
        let matrix = matrix_of(heap, &system)?;
        let right_side = right_side_of(heap, &system)?;
        let mut lu = matrix.clone()?;
        let mut order = vec![in heap; 0u16; system.size]?;
        let mut x = right_side.clone()?;
        R::solve_outcome(
            system.size,
            &matrix,
            &right_side,
            &mut lu,
            &mut order,
            &mut x,
        )?;
        let mut lines = Vec::new(heap);
        write_answer(&x, &mut lines)?;
        Ok(lines)
    }
}

// What is printed for a text; only want of memory has no text.
pub fn solve_text(heap: Global, text: &[u8]) -> Result<Vec<u8>, AllocError>
    ensures printed { IfOk result (λ v. v.items ≡ solve_printed text.now) }
    ensures stable { IfOk result (λ v. take 6 v.items ≡ codes "answer" → StableAnswer text.now) }
{
    printed::<Solve>(heap, b"system", text)
}
