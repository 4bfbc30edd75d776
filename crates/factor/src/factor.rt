// The call `factor`: the LU factors of a square matrix, with row exchanges.
ghost use Rattle.std.specs.Prelude.{◌≡◌, ◌*◌, ◌≤◌, map, length, Err, OnOk};
ghost use Rattle.element.specs.declared.refusal.InputRefusal.{InputRefusal as Refusal};
ghost use Rattle.model.specs.declared.FactorRefusal.TheVariants.{Input};
ghost use Rattle.model.specs.Factor.{factored};
ghost use Rattle.model.specs.Calls.{factor_outcome, factor_lu, factor_order};
ghost use Rattle.model.specs.Promises.{FactorsNear, PivotsBounded};
ghost use Rattle.factor.specs.Slices.{matrix_of, factoring_of};

use crate::factoring::Factoring;
use element::{Real, check_inputs};
use model::FactorRefusal;

// The factoring of a, which lu and order hold afterwards: by the shorter way where it has an answer, and else from the
// beginning once more, with everything looked at before it is written.
// Slices and a size, as callers have them: that they fit is what the calls above refuse by.
pub fn factor_into<R: Real>(
    n: usize,
    a: &[R],
    lu: &mut [R],
    order: &mut [u16],
) -> Result<(), FactorRefusal>
    requires size { n ≤ 128 }
    requires matrix { length a.now ≡ n * n }
    requires factors { length lu.old ≡ n * n }
    requires places { length order.old ≡ n }
    ensures { factoring_of R.Real.val n lu.new order.new result ≡ factored R.Real.format (matrix_of R.Real.val n a.now) }
{
    if Factoring::begin(n, a, lu, order).clear_columns().is_ok() {
        return Ok(());
    }
    Factoring::begin(n, a, lu, order).eliminate_columns()
}

// lu becomes the factors of a, and order the row permutation. A refusal of the inputs leaves both as they were; one at
// a column leaves the work up to there.
pub fn factor_matrix<R: Real>(
    n: usize,
    a: &[R],
    lu: &mut [R],
    order: &mut [u16],
) -> Result<(), FactorRefusal>
    ensures outcome { result ≡ factor_outcome R.Real.format n (map R.Real.val a.now) (length lu.old) (length order.old) }
    ensures factors { map R.Real.val lu.new ≡ factor_lu R.Real.format n (map R.Real.val a.now) (map R.Real.val lu.old) (length order.old) }
    ensures order { order.new ≡ factor_order R.Real.format n (map R.Real.val a.now) (length lu.old) order.old }
    ensures kept { (e : Refusal) → result ≡ Err (Input e) → (lu.new ≡ lu.old) × (order.new ≡ order.old) }
    ensures near { OnOk result (FactorsNear R.Real.format n (map R.Real.val a.now) (map R.Real.val lu.new) order.new × PivotsBounded n (map R.Real.val lu.new) order.new) }
{
    check_inputs(n, &[a.len(), lu.len()], &[order.len()], &[a])?;
    factor_into(n, a, lu, order)
}
