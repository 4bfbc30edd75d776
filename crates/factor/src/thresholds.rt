// A factoring without a look at each product and each difference before it is written: where every factor of a product
// reaches the threshold, and every entry is finite at the end, everything was in range. Otherwise nothing is known.
ghost use Rattle.std.specs.Prelude.{◌≡◌, ◌+◌, ◌<◌, map, drop, Ok, OnOk, is_ok};
ghost use Rattle.element.specs.Matrix.{row};
ghost use Rattle.element.specs.Rows.{matrix_values};
ghost use Rattle.model.specs.Factor.{columns};
ghost use Rattle.factor.specs.Slices.{matrix_of};
ghost use Rattle.factor.specs.State.{state, SameSlices};
ghost use Rattle.factor.specs.Thresholds.{all_reach, multipliers_reach, factors_reach, column_reaches, column_cleared};

use crate::factoring::Factoring;
use element::{Matrix, Real, all_finite};

// A pivot is zero, a factor is below the threshold, or an entry is not finite at the end. The slices hold no factoring.
#[derive(Clone, Copy, PartialEq, Eq, Debug)]
pub struct Unknown;

// Whether each entry is zero or reaches the threshold.
#[tactic(auto, using(crate::proofs::Reaching::entries_reached))]
pub fn entries_reach<R: Real>(xs: &[R]) -> bool
    ensures { result ≡ all_reach R.Real.format (map R.Real.val xs.now) }
{
    // Without leaving early, since all reach it in most rows.
    let mut reached = true;
    for x in xs {
        reached &= x.is_zero() | x.reaches_threshold();
    }
    reached
}

// Whether each multiplier of column k is that of a zero or reaches the threshold.
pub fn multipliers_reach<R: Real>(m: &Matrix<R>, k: usize) -> bool
    requires { k < m.now.size }
    ensures { result ≡ multipliers_reach R.Real.format k (row (matrix_values R.Real.val m.now) k) (drop (k + 1) (matrix_values R.Real.val m.now)) }
{
    let pivot = m.row(k)[k];
    let mut reached = true;
    for row in m.rows_below(k) {
        let x = row[k];
        reached &= x.is_zero() | x.over(&pivot).reaches_threshold();
    }
    reached
}

impl<'a, R: Real> Factoring<'a, R> {
    // Whether the pivot of column k is not zero and the factors of all its products reach the threshold.
    #[tactic(auto, using(crate::proofs::Flat::taken))]
    fn factors_reach(&self, k: usize) -> bool
        requires { k < self.now.size }
        ensures { result ≡ factors_reach R.Real.format k (matrix_of R.Real.val self.now.size self.now.entries.now) }
    {
        // A zero pivot ends it, so that no quotient by it is worked out.
        if self.pivot(k).is_zero() {
            return false;
        }
        let m = self.matrix();
        entries_reach(&m.row(k)[k + 1..]) & multipliers_reach(&m, k)
    }

    // Column k, eliminated if its factors reach the threshold.
    fn clear_column(&mut self, k: usize) -> Result<(), Unknown>
        requires { k < self.old.size }
        ensures reached { is_ok result ≡ column_reaches R.Real.format k (state R.Real.val self.old (Ok tt)) }
        ensures column { OnOk result (state R.Real.val self.new (Ok tt) ≡ column_cleared R.Real.format k (state R.Real.val self.old (Ok tt))) }
        ensures lends { SameSlices self.old self.new }
    {
        self.exchange(k);
        if !self.factors_reach(k) {
            return Err(Unknown);
        }
        self.eliminate_rows(k);
        Ok(())
    }

    // All columns, up to the first whose factors do not reach the threshold; then whether all entries are finite.
    #[tactic(auto, using(crate::proofs::Steps::loop_steps))]
    pub fn clear_columns(&mut self) -> Result<(), Unknown>
        ensures columns { OnOk result (state R.Real.val self.new (Ok tt) ≡ columns R.Real.format self.old.size (state R.Real.val self.old (Ok tt))) }
        ensures lends { SameSlices self.old self.new }
    {
        // By number, since a step takes the number of its column.
        for k in 0..self.size() {
            self.clear_column(k)?;
        }
        if all_finite(self.matrix().entries()) {
            Ok(())
        } else {
            Err(Unknown)
        }
    }
}
