// The call `multiply`: a square matrix, row by row in one slice, times a vector.
ghost use Rattle.std.specs.Prelude.{◌≡◌, true, map, length, is_ok, OnOk, ◌≢◌};
ghost use Rattle.element.specs.Rows.{matrix_values};
ghost use Rattle.element.specs.Products.{sum_rows, rows_in_range};
ghost use Rattle.element.specs.Multiply.{multiply_outcome, multiply_output};
ghost use Rattle.element.specs.Promises.{ProductsNear};

use crate::inputs::check_inputs;
use crate::matrix::Matrix;
use crate::products::{sum_in_range, sum_products};
use crate::real::Real;
use crate::refusal::MultiplyRefusal;

// Whether everything on the way to the sums of all rows is in range.
pub fn rows_in_range<R: Real>(a: &Matrix<R>, x: &[R]) -> bool
    requires { length x.now ≡ a.now.size }
    ensures { result ≡ rows_in_range R.Real.format (matrix_values R.Real.val a.now) (map R.Real.val x.now) }
{
    for row in a.rows() {
        if !sum_in_range(row, x) {
            return false;
        }
    }
    true
}

// The sums of all rows.
pub fn sum_rows<R: Real>(a: &Matrix<R>, x: &[R], y: &mut [R])
    requires vector { length x.now ≡ a.now.size }
    requires output { length y.old ≡ a.now.size }
    ensures { map R.Real.val y.new ≡ sum_rows R.Real.format (matrix_values R.Real.val a.now) (map R.Real.val x.now) }
{
    for (i, entry) in y.iter_mut().enumerate() {
        *entry = sum_products(a.row(i), x);
    }
}

// y becomes a times x. Everything is looked at before anything is written, so a refusal leaves y as it was.
pub fn multiply_matrix<R: Real>(
    n: usize,
    a: &[R],
    x: &[R],
    y: &mut [R],
) -> Result<(), MultiplyRefusal>
    ensures outcome { result ≡ multiply_outcome R.Real.format n (map R.Real.val a.now) (map R.Real.val x.now) (length y.old) }
    ensures output { map R.Real.val y.new ≡ multiply_output R.Real.format n (map R.Real.val a.now) (map R.Real.val x.now) (map R.Real.val y.old) }
    ensures kept { (is_ok result ≢ true) → y.new ≡ y.old }
    ensures near { OnOk result (ProductsNear R.Real.format n (map R.Real.val a.now) (map R.Real.val x.now) (map R.Real.val y.new)) }
{
    check_inputs(n, &[a.len()], &[x.len(), y.len()], &[a, x])?;
    let matrix = Matrix::new(n, a);
    if !rows_in_range(&matrix, x) {
        return Err(MultiplyRefusal::Range);
    }
    sum_rows(&matrix, x, y);
    Ok(())
}
