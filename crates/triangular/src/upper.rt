// The backward solve: with the upper factor, which stands on and right of the diagonal of a matrix.
ghost use Rattle.std.specs.Prelude.{◌≡◌, map, length, is_ok, OnOk};
ghost use Rattle.std.specs.Float.Ieee.{div};
ghost use Rattle.exact.specs.Range.{quotient_in_range};
ghost use Rattle.element.specs.Rows.{matrix_values};
ghost use Rattle.element.specs.Products.{Gives};
ghost use Rattle.model.specs.Solve.{backward, backward_in_range};

use element::{Matrix, Real, subtract_products};
use model::OutOfRange;

// For each row from the last on: its entry in the work row, less its entries right of the diagonal times the entries
// after, over its entry on the diagonal, replaces the entry in the work row.
pub fn backward_solve<R: Real>(upper: &Matrix<R>, work: &mut [R]) -> Result<(), OutOfRange>
    requires { length work.old ≡ upper.now.size }
    ensures range { is_ok result ≡ backward_in_range R.Real.format 0 (matrix_values R.Real.val upper.now) (map R.Real.val work.old) }
    ensures entries { OnOk result (map R.Real.val work.new ≡ backward R.Real.format 0 (matrix_values R.Real.val upper.now) (map R.Real.val work.old)) }
{
    // By index, since each entry is worked out of those after it in the same slice.
    for i in (0..upper.size()).rev() {
        let row = upper.row(i);
        let rest = subtract_products(work[i], &row[i + 1..], &work[i + 1..]).ok_or(OutOfRange)?;
        work[i] = quotient(rest, row[i]).ok_or(OutOfRange)?;
    }
    Ok(())
}

// a / b, rounded. None if it is out of range.
pub fn quotient<R: Real>(a: R, b: R) -> Option<R>
    ensures { Gives R.Real.val (quotient_in_range R.Real.format (R.Real.val a) (R.Real.val b)) (div R.Real.format (R.Real.val a) (R.Real.val b)) result }
{
    let quotient = a.over(&b);
    (a.is_zero() | quotient.in_range()).then_some(quotient)
}
