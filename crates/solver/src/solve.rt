// The call `solve`: factors, order and answer of a system, for any element type.
ghost use Rattle.std.specs.Prelude.{◌≡◌, true, map, length, is_ok, OnOk, Err, ◌≢◌};
ghost use Rattle.element.specs.declared.refusal.InputRefusal.{InputRefusal as Refusal};
ghost use Rattle.model.specs.declared.FactorRefusal.TheVariants.{Input};
ghost use Rattle.model.specs.declared.SolveRefusal.TheVariants.{Factoring};
ghost use Rattle.model.specs.Calls.{solve_outcome, solve_lu, solve_order, solve_x};
ghost use Rattle.model.specs.Promises.{SolveBackwardStable};

use element::{Matrix, Real, check_inputs};
use factor::factor_into;
use model::SolveRefusal;
use triangular::{Factors, Order};

// lu becomes the factors of a, order the row permutation and x the answer, which is found in the work row. A refusal leaves
// x as it was; one of the inputs leaves lu and order too, and one at a column leaves the work up to there.
pub fn solve_with<R: Real>(
    n: usize,
    a: &[R],
    b: &[R],
    lu: &mut [R],
    order: &mut [u16],
    x: &mut [R],
    work: &mut [R],
) -> Result<(), SolveRefusal>
    requires { length work.old ≡ 128 }
    ensures outcome { result ≡ solve_outcome R.Real.format n (map R.Real.val a.now) (map R.Real.val b.now) (length lu.old) (length order.old) (length x.old) }
    ensures factors { map R.Real.val lu.new ≡ solve_lu R.Real.format n (map R.Real.val a.now) (map R.Real.val b.now) (map R.Real.val lu.old) (length order.old) (length x.old) }
    ensures order { order.new ≡ solve_order R.Real.format n (map R.Real.val a.now) (map R.Real.val b.now) (length lu.old) order.old (length x.old) }
    ensures answer { map R.Real.val x.new ≡ solve_x R.Real.format n (map R.Real.val a.now) (map R.Real.val b.now) (length lu.old) (length order.old) (map R.Real.val x.old) }
    ensures kept { (is_ok result ≢ true) → x.new ≡ x.old }
    ensures untouched { (e : Refusal) → result ≡ Err (Factoring (Input e)) → (lu.new ≡ lu.old) × (order.new ≡ order.old) }
    ensures stable { OnOk result (SolveBackwardStable R.Real.format n (map R.Real.val a.now) (map R.Real.val b.now) (map R.Real.val lu.new) order.new (map R.Real.val x.new)) }
{
    check_inputs(
        n,
        &[a.len(), lu.len()],
        &[b.len(), order.len(), x.len()],
        &[a, b],
    )?;
    factor_into(n, a, lu, order)?;
    let factors = Factors::new(Matrix::new(n, lu), Order::new(order));
    let answer = &mut work[..n];
    factors.solve(b, answer)?;
    x.copy_from_slice(answer);
    Ok(())
}
