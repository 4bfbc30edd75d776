// The pivot of a column.
ghost use Rattle.std.specs.Prelude.{◌≡◌, ◌<◌, ◌≤◌};
ghost use Rattle.element.specs.Rows.{matrix_values};
ghost use Rattle.model.specs.Factor.{pivot};

use element::{Matrix, Real};

// The first of the rows from k on whose entry in column k has the largest magnitude.
pub fn find_pivot<R: Real>(m: &Matrix<R>, k: usize) -> usize
    requires { k < m.now.size }
    ensures pivot { result ≡ pivot k (matrix_values R.Real.val m.now) }
    ensures within { result < m.now.size }
    ensures below { k ≤ result }
{
    let mut p = k;
    // By number, since the answer is the number of a row.
    for i in k + 1..m.size() {
        if m.row(i)[k].exceeds(m.row(p)[k]) {
            p = i;
        }
    }
    p
}
