// The columns of a factoring, one after the other.
ghost use Rattle.std.specs.Prelude.{◌≡◌, ◌<◌, Ok};
ghost use Rattle.model.specs.Factor.{column, columns};
ghost use Rattle.factor.specs.State.{state, SameSlices};

use crate::eliminate::rows_below_in_range;
use crate::factoring::Factoring;
use element::Real;
use model::FactorRefusal;

impl<'a, R: Real> Factoring<'a, R> {
    // Column k: the pivot's row changes places with row k; if the pivot is not zero and everything is in range, the
    // column is eliminated from the rows below.
    #[tactic(auto, using(crate::proofs::Steps::column_steps))]
    fn eliminate_column(&mut self, k: usize) -> Result<(), FactorRefusal>
        requires { k < self.old.size }
        ensures column { state R.Real.val self.new result ≡ column R.Real.format k (state R.Real.val self.old (Ok tt)) }
        ensures lends { SameSlices self.old self.new }
    {
        self.exchange(k);
        if self.pivot(k).is_zero() {
            return Err(FactorRefusal::Pivot(k));
        }
        if !rows_below_in_range(&self.matrix(), k) {
            return Err(FactorRefusal::Range(k));
        }
        self.eliminate_rows(k);
        Ok(())
    }

    // All columns, up to the first that has no pivot or is not in range.
    #[tactic(auto, using(crate::proofs::Steps::loop_steps))]
    pub fn eliminate_columns(&mut self) -> Result<(), FactorRefusal>
        ensures columns { state R.Real.val self.new result ≡ columns R.Real.format self.old.size (state R.Real.val self.old (Ok tt)) }
        ensures lends { SameSlices self.old self.new }
    {
        // By number, since a step takes the number of its column. `clear_columns` goes over them with another step.
        for k in 0..self.size() {
            self.eliminate_column(k)?;
        }
        Ok(())
    }
}
