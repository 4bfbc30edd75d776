// The exchange of two rows.
ghost use Rattle.std.specs.Prelude.{◌≡◌, ◌*◌, ◌<◌, ◌≤◌, [], length};
ghost use Rattle.model.specs.Factor.{swapped};
ghost use Rattle.factor.specs.Slices.{matrix_of};

use element::Real;

// Rows i and j of a matrix of size n change places, whole. A function of the slice, as `eliminate_from_row`.
pub fn swap_rows<R: Real>(n: usize, m: &mut [R], i: usize, j: usize)
    requires size { n ≤ 128 }
    requires matrix { length m.old ≡ n * n }
    requires first { i < n }
    requires second { j < n }
    ensures { matrix_of R.Real.val n m.new ≡ swapped [] i j (matrix_of R.Real.val n m.old) }
{
    let upper = i.min(j);
    let lower = i.max(j);
    if upper < lower {
        let (above, from) = m.split_at_mut(lower * n);
        above[upper * n..upper * n + n].swap_with_slice(&mut from[..n]);
    }
}
