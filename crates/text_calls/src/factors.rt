// The program `factors`.
ghost use Rattle.std.specs.Prelude.{◌≡◌, IfOk};
ghost use Rattle.text_model.specs.Programs.{factors_printed};
ghost use Rattle.text_calls.specs.Lines.{factors_lines};

use crate::program::{Program, printed};
use crate::rows::matrix_of;
use element::Matrix;
use factor::factor_matrix;
use number_text::Digits;
use std::alloc::{AllocError, Global};
use system_text::{Head, Words, read_system, write_factors};
use text_model::TextRefusal;

struct Factors;

impl Program for Factors {
    ghost lines_for = { factors_lines };

    fn lines<R: Digits>(
        heap: Global,
        head: Head,
        words: &mut Words,
    ) -> Result<Vec<u8>, TextRefusal> {
        let system = read_system::<R>(heap, head, words)?;
        let matrix = matrix_of(heap, &system)?;
        let mut lu = matrix.clone()?;
        let mut order = vec![in heap; 0u16; system.size]?;
        factor_matrix(system.size, &matrix, &mut lu, &mut order)?;
        let mut lines = Vec::new(heap);
        write_factors(
            head.precision,
            &order,
            &Matrix::new(system.size, &lu),
            &mut lines,
        )?;
        Ok(lines)
    }
}

// What is printed for a text; only want of memory has no text.
pub fn factors_text(heap: Global, text: &[u8]) -> Result<Vec<u8>, AllocError>
    ensures { IfOk result (λ v. v.items ≡ factors_printed text.now) }
{
    printed::<Factors>(heap, b"system", text)
}
