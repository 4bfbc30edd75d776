// The factors of a matrix, and the two triangular solves with them.
ghost use Rattle.std.specs.Prelude.{◌≡◌, [], map, length, is_ok, OnOk};
ghost use Rattle.element.specs.Rows.{matrix_values};
ghost use Rattle.model.specs.Solve.{forward, forward_in_range, permuted, solution, solution_in_range};

use crate::order::Order;
use crate::upper::backward_solve;
use element::{Matrix, Real, subtract_products};
use model::OutOfRange;

// A view of both factors in one matrix, and of the row permutation. On and right of the diagonal stands the upper factor,
// left of it the multipliers.
#[derive(Drop)]
pub struct Factors<'a, R> {
    matrix: Matrix<'a, R>,
    order: Order<'a>,
    ghost places: { length order.places.now ≡ matrix.size },
}

impl<'a, R: Real> Factors<'a, R> {
    pub fn new(matrix: Matrix<'a, R>, order: Order<'a>) -> Factors<'a, R>
        requires { length order.places.now ≡ matrix.size }
        ensures size { result.matrix.size ≡ matrix.entry.size }
        ensures entries { result.matrix.entries.now ≡ matrix.entry.entries.now }
        ensures order { result.order.places.now ≡ order.entry.places.now }
    {
        Factors { matrix, order }
    }

    // For each row from the first on: its entry of the right side, less its multipliers times the entries before, fills the
    // work row.
    pub fn forward_solve(&self, b: &[R], work: &mut [R]) -> Result<(), OutOfRange>
        requires right { length b.now ≡ self.now.matrix.size }
        requires output { length work.old ≡ self.now.matrix.size }
        ensures range { is_ok result ≡ forward_in_range R.Real.format (matrix_values R.Real.val self.now.matrix) (permuted (map R.Real.val b.now) self.now.order.places.now) [] }
        ensures entries { OnOk result (map R.Real.val work.new ≡ forward R.Real.format (matrix_values R.Real.val self.now.matrix) (permuted (map R.Real.val b.now) self.now.order.places.now) []) }
    {
        // By index, since each entry is worked out of those before it in the same slice.
        for i in 0..self.matrix.size() {
            let given = self.order.row(i);
            let row = self.matrix.row(i);
            work[i] = subtract_products(b[given], &row[..i], &work[..i]).ok_or(OutOfRange)?;
        }
        Ok(())
    }

    // Both solves; the work row then holds the answer.
    pub fn solve(&self, b: &[R], work: &mut [R]) -> Result<(), OutOfRange>
        requires right { length b.now ≡ self.now.matrix.size }
        requires output { length work.old ≡ self.now.matrix.size }
        ensures range { is_ok result ≡ solution_in_range R.Real.format (matrix_values R.Real.val self.now.matrix) self.now.order.places.now (map R.Real.val b.now) }
        ensures entries { OnOk result (map R.Real.val work.new ≡ solution R.Real.format (matrix_values R.Real.val self.now.matrix) self.now.order.places.now (map R.Real.val b.now)) }
    {
        self.forward_solve(b, work)?;
        backward_solve(&self.matrix, work)
    }
}
