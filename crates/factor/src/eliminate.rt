// Elimination of column k from the rows below row k, where its pivot stands.
ghost use Rattle.std.specs.Prelude.{◌≡◌, ◌+◌, ◌*◌, ◌<◌, ◌≤◌, map, length, drop, slice_set};
ghost use Rattle.element.specs.Matrix.{row};
ghost use Rattle.element.specs.Rows.{matrix_values};
ghost use Rattle.model.specs.Factor.{multiplier, eliminate_row, eliminate_row_in_range, eliminate_rows_in_range};
ghost use Rattle.factor.specs.Slices.{matrix_of};

use element::{Matrix, Real, subtract_product};

// Whether the multiplier of a row, and each product and each difference in the row, is in range.
#[tactic(auto, using(crate::proofs::Elimination::row_tested))]
pub fn row_in_range<R: Real>(k: usize, pivot_row: &[R], row: &[R]) -> bool
    requires lengths { length pivot_row.now ≡ length row.now }
    requires column { k < length row.now }
    ensures { result ≡ eliminate_row_in_range R.Real.format k (map R.Real.val pivot_row.now) (map R.Real.val row.now) }
{
    let l = row[k].over(&pivot_row[k]);
    let mut in_range = row[k].is_zero() | l.in_range();
    for (x, p) in row[k + 1..].iter().zip(&pivot_row[k + 1..]) {
        in_range &= subtract_product(*x, l, *p).is_some();
    }
    in_range
}

// Whether all of that is in range in each row below row k.
#[tactic(auto, using(crate::proofs::Elimination::rows_tested))]
pub fn rows_below_in_range<R: Real>(m: &Matrix<R>, k: usize) -> bool
    requires { k < m.now.size }
    ensures { result ≡ eliminate_rows_in_range R.Real.format k (row (matrix_values R.Real.val m.now) k) (drop (k + 1) (matrix_values R.Real.val m.now)) }
{
    let pivot_row = m.row(k);
    for row in m.rows_below(k) {
        if !row_in_range(k, pivot_row, row) {
            return false;
        }
    }
    true
}

// Subtracts the multiplier l times the pivot's row from a row; the multiplier takes the place of entry k.
#[tactic(auto, using(crate::proofs::Elimination::row_eliminated))]
pub fn eliminate_row<R: Real>(k: usize, l: R, pivot_row: &[R], row: &mut [R])
    requires lengths { length pivot_row.now ≡ length row.old }
    requires column { k < length row.old }
    requires multiplier { R.Real.val l ≡ multiplier R.Real.format k (map R.Real.val pivot_row.now) (map R.Real.val row.old) }
    ensures { map R.Real.val row.new ≡ eliminate_row R.Real.format k (map R.Real.val pivot_row.now) (map R.Real.val row.old) }
{
    row[k] = l;
    // By index, since no proof knows what a loop over a zip or a skip of `iter_mut` wrote.
    for j in k + 1..row.len() {
        let product = l.times(&pivot_row[j]);
        row[j] = row[j].minus(&product);
    }
}

// Eliminates column k from row i, below row k, of a matrix of size n. No method of `Factoring`, as `swap_rows` is none:
// what is written through the parts of a slice that is a field is not known to a proof afterwards.
pub fn eliminate_from_row<R: Real>(n: usize, m: &mut [R], k: usize, i: usize)
    requires size { n ≤ 128 }
    requires matrix { length m.old ≡ n * n }
    requires below { k < i }
    requires row { i < n }
    ensures { matrix_of R.Real.val n m.new ≡ slice_set (matrix_of R.Real.val n m.old) i (eliminate_row R.Real.format k (row (matrix_of R.Real.val n m.old) k) (row (matrix_of R.Real.val n m.old) i)) }
{
    let (above, from) = m.split_at_mut(i * n);
    let pivot_row = &above[k * n..k * n + n];
    let row = &mut from[..n];
    let l = row[k].over(&pivot_row[k]);
    eliminate_row(k, l, pivot_row, row);
}
