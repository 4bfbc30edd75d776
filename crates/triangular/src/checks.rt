// Whether factors and an order that are there already can be what a factoring leaves.
ghost use Rattle.std.specs.Prelude.{◌≡◌, ◌*◌, ◌≤◌, true, T, map, length};
ghost use Rattle.element.specs.Rows.{matrix_values};
ghost use Rattle.element.specs.Promises.{all_fit};
ghost use Rattle.model.specs.Calls.{once_each, no_zero_pivot, factors_sound};

use element::{Matrix, Real, all_finite};

// Whether the order has each row below the size at most once, and no other.
pub fn is_permutation(n: usize, order: &[u16]) -> bool
    ensures { result ≡ once_each n order.now }
{
    // No iterator, since each step looks at the rest of the slice.
    let mut left = order;
    while let [row, after @ ..] = left {
        if usize::from(*row) >= n || after.contains(row) {
            return false;
        }
        left = after;
    }
    true
}

// Whether no entry on the diagonal is a zero.
pub fn no_zero_pivot<R: Real>(a: &Matrix<R>) -> bool
    ensures { result ≡ no_zero_pivot 0 (matrix_values R.Real.val a.now) }
{
    // By number, since the diagonal has entry i of row i.
    for i in 0..a.size() {
        if a.row(i)[i].is_zero() {
            return false;
        }
    }
    true
}

// Whether a factoring can have left these: each row once, every entry finite, no zero on the diagonal. The order may be of
// any length, so there are no `Factors` yet.
pub fn factors_sound<R: Real>(n: usize, lu: &[R], order: &[u16]) -> bool
    requires size { n ≤ 128 }
    requires matrix { length lu.now ≡ n * n }
    ensures value { result ≡ factors_sound n (map R.Real.val lu.now) order.now }
    ensures fit { result ≡ true → T (all_fit R.Real.format (map R.Real.val lu.now)) }
{
    is_permutation(n, order) & all_finite(lu) & no_zero_pivot(&Matrix::new(n, lu))
}
